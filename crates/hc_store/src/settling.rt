//! Settling.
ghost use Rattle.std.specs.Prelude.{◌≡◌, ◌<◌, length};
ghost use Rattle.hc_canon.specs.declared.form.EntryId.{EntryId};
ghost use Rattle.hc_canon.specs.FormView.{FormView};
ghost use Rattle.hc_steps.specs.Compiled.{PlanView};
ghost use Rattle.hc_store.specs.Given.{IsFit, IsInstance};
ghost use Rattle.hc_store.specs.Scene.{SettlesAll, SettlesPart, SettlesTop};
ghost use Rattle.hc_store.specs.Stored.{Advances, IsStoreOf};

use crate::instance::plan_at;
use crate::parts::{is_stale, run};
use crate::site::Site;
use crate::store::Store;
use hc_ops::OpTable;

/// How many parts the plan of an instance has.
fn count_parts(site: &Site<'_>, p: usize) -> u32
    requires fit { IsFit site.now }
    requires instance { p < length site.now.entries }
    ensures { (id : EntryId) (form : FormView) (plan : PlanView) → IsInstance site.now p id form plan → result ≡ length plan.parts }
{
    plan_at(site, p).parts().len() as u32
}

/// Runs a part of the top if it is stale.
fn run_if_stale(site: &Site<'_>, ops: &OpTable, store: &mut Store, part: u32)
    requires fit { IsFit site.now }
    requires store { IsStoreOf site.now store.old }
    requires top { 0 < length site.now.entries }
    ensures advances { Advances site.now store.old store.new }
    ensures settled { SettlesPart site.now part store.old store.new }
{
    if is_stale(store, 0, part) {
        run(site, ops, store, 0, part);
    }
}

/// Runs each part of the top that is stale, in order.
fn run_top(site: &Site<'_>, ops: &OpTable, store: &mut Store)
    requires fit { IsFit site.now }
    requires store { IsStoreOf site.now store.old }
    requires top { 0 < length site.now.entries }
    ensures advances { Advances site.now store.old store.new }
    ensures settled { SettlesTop site.now store.old store.new }
{
    let many = count_parts(site, 0);
    'parts: for part in 0..many {
        run_if_stale(site, ops, store, part);
    }
}

/// Settles the numbers of all instances. No part is stale after it.
pub fn settle(site: &Site<'_>, ops: &OpTable, store: &mut Store)
    requires fit { IsFit site.now }
    requires store { IsStoreOf site.now store.old }
    requires top { 0 < length site.now.entries }
    ensures advances { Advances site.now store.old store.new }
    ensures settled { SettlesAll site.now store.old store.new }
{
    run_top(site, ops, store);
    store.stale.fill(false);
}
