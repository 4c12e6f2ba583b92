//! Parts that are run.
ghost use Rattle.std.specs.Prelude.{◌≡◌, ◌<◌, length, map, slice_get, MatchOption};
ghost use Rattle.hc_rows.specs.Rows.{row_at};
ghost use Rattle.hc_canon.specs.declared.form.EntryId.{EntryId};
ghost use Rattle.hc_canon.specs.FormView.{FormView};
ghost use Rattle.hc_steps.specs.Compiled.{PlanView};
ghost use Rattle.hc_steps.specs.Plan.{run, steps_at};
ghost use Rattle.hc_steps.specs.Views.{step_view};
ghost use Rattle.hc_store.specs.Given.{IsFit, IsInstance, IsStepAt};
ghost use Rattle.hc_store.specs.Scene.{flag_of, IsBegun, RunsPart, TakesStep};
ghost use Rattle.hc_store.specs.Stored.{Advances, IsStoreOf, WakesTakers};

use crate::instance::plan_at;
use crate::site::Site;
use crate::steps::{make_number, pass_connection, take_output};
use crate::store::Store;
use crate::waking::wake_all;
use hc_compile::Step;
use hc_ops::OpTable;
use hc_signal::InstId;

/// The steps of a part, none past the last one.
fn steps_of<'a>(site: &'a Site<'_>, p: usize, part: u32) -> &'a [Step]
    requires fit { IsFit site.now }
    requires instance { p < length site.now.entries }
    ensures { (id : EntryId) (form : FormView) (plan : PlanView) → IsInstance site.now p id form plan → map step_view result.now ≡ steps_at plan.parts part }
{
    match plan_at(site, p).parts().get(part as usize) {
        None => &[],
        Some(part) => part.steps(),
    }
}

/// Whether a part is to be run.
pub(crate) fn is_stale(store: &Store, p: usize, part: u32) -> bool
    ensures { result ≡ flag_of (slice_get (row_at store.now.stale p) part) }
{
    match store.stale.row(p).get(part as usize) {
        None => false,
        Some(stale) => *stale,
    }
}

/// Wakes the parts that take from what a part runs.
fn wake_takers(site: &Site<'_>, store: &mut Store, p: usize, part: u32)
    requires fit { IsFit site.now }
    requires store { IsStoreOf site.now store.old }
    requires instance { p < length site.now.entries }
    ensures { WakesTakers site.now p part store.old store.new }
{
    let takers = plan_at(site, p).takers(part);
    wake_all(site.up(), &mut store.stale, p, takers);
}

/// A part of an instance that is to be run.
#[derive(Clone, Copy)]
struct Call {
    instance: usize,
    part: u32,
}

/// Begins to run a part of an instance of an instance, if it is stale: what takes from it is woken first.
fn begin_run(
    site: &Site<'_>,
    store: &mut Store,
    p: usize,
    part: u32,
    inst: InstId,
    below: u32,
) -> Option<Call>
    requires fit { IsFit site.now }
    requires store { IsStoreOf site.now store.old }
    requires step { IsStepAt site.now p part (run inst.0 below) }
    ensures advances { Advances site.now store.old store.new }
    ensures taken { MatchOption result (TakesStep site.now p part (run inst.0 below) store.old store.new) (λ call. IsBegun site.now p part (run inst.0 below) call.instance call.part store.old store.new) }
{
    let q = site.kid(p, inst);
    if is_stale(store, q, below) {
        wake_takers(site, store, p, part);
        return Some(Call {
            instance: q,
            part: below,
        });
    }
    None
}

/// Takes a step of a part, up to the part of an instance that it is to run.
fn start_step(
    site: &Site<'_>,
    ops: &OpTable,
    store: &mut Store,
    p: usize,
    part: u32,
    step: Step,
) -> Option<Call>
    requires fit { IsFit site.now }
    requires store { IsStoreOf site.now store.old }
    requires step { IsStepAt site.now p part (step_view step) }
    ensures advances { Advances site.now store.old store.new }
    ensures taken { MatchOption result (TakesStep site.now p part (step_view step) store.old store.new) (λ call. IsBegun site.now p part (step_view step) call.instance call.part store.old store.new) }
{
    match step {
        Step::Make { node } => {
            make_number(site, ops, store, p, part, node);
            None
        }
        Step::Take { node, inst, port } => {
            take_output(site, store, p, part, node, inst, port);
            None
        }
        Step::Pass { node, inst, port } => {
            pass_connection(site, store, p, part, node, inst, port);
            None
        }
        Step::Run { inst, part: below } => begin_run(site, store, p, part, inst, below),
    }
}

/// Runs a part of an instance: its steps, one after another.
pub fn run(site: &Site<'_>, ops: &OpTable, store: &mut Store, p: usize, part: u32)
    requires fit { IsFit site.now }
    requires store { IsStoreOf site.now store.old }
    requires instance { p < length site.now.entries }
    ensures advances { Advances site.now store.old store.new }
    ensures walked { RunsPart site.now p part store.old store.new }
{
    let steps = steps_of(site, p, part);
    'steps: for step in steps {
        match start_step(site, ops, store, p, part, *step) {
            None => {}
            Some(call) => run(site, ops, store, call.instance, call.part),
        }
    }
}
