//! Elaboration of a design into a database: its distinct calls, one after another.
ghost use Rattle.std.specs.Prelude.{◌≡◌, Err, IfOk, Ok, OnErr, length};
ghost use Rattle.hc_elab.specs.Rows.{AreFinished, AreThere, IsFinished};
ghost use Rattle.hc_plan.specs.Elaborates.{DesignElaborates, Elaborated};
ghost use Rattle.hc_plan.specs.Hierarchies.{IsHierarchyFor, LogGrew, LogsDistinct};
ghost use Rattle.hc_plan.specs.Plan.{IsPlanOf};
ghost use Rattle.hc_plan.specs.Planning.{Faults};
ghost use Rattle.hc_plan.specs.Stepping.{outcome_of, outs_of};
ghost use Rattle.hc_signal.specs.Checked.{IsChecked};

use hc_body::laws::bodies_have_their_children;
use hc_canon::EntryId;
use hc_dbstate::{DbState, Hier, entries_keep_their_forms};
use hc_fault::{NoMemory, Refused};
use hc_lang::Design;
use hc_paths::kinds::Paths;
use hc_plan::kinds::{Plan, PlanRow};
use hc_plan::{Step, conclude, designs_elaborate_once, form_of, plan, plans_elaborate};
use std::alloc::Global;

/// Finishes a row over what became of its children: one turn, unless its tree has a loop or a child is not finished.
fn finish(
    alloc: Global,
    row: &PlanRow,
    outs: &[Option<(EntryId, Paths)>],
    db: &mut DbState,
) -> Result<Option<(EntryId, Paths)>, NoMemory>
    requires checked { IsChecked row.now.body.circuit }
    requires many { length row.now.kids ≡ length row.now.body.circuit.instances }
    requires there { AreThere db.old (outs_of outs.now) }
    ensures ok { IfOk result (λ out. IsFinished db.old db.new (outs_of outs.now) row.now (outcome_of out)) }
    ensures same { OnErr result (db.new ≡ db.old) }
{
    entries_keep_their_forms();
    let step = form_of(alloc, row, outs)?;
    match step {
        Step::Ready(form, paths) => match db.insert(form) {
            Ok(id) => Ok(Some((id, paths))),
            Err((_, refused)) => Err(refused),
        },
        Step::Looped => Ok(None),
        Step::PassedOver => Ok(None),
    }
}

/// Finishes the rows of a plan, one after another.
fn finish_rows(
    alloc: Global,
    design: &Design,
    plan: &Plan,
    db: &mut DbState,
) -> Result<Vec<Option<(EntryId, Paths)>>, NoMemory>
    requires { IsPlanOf design.now plan.now.rows plan.now.stop }
    ensures ok { IfOk result (λ outs. AreFinished db.old db.new plan.now.rows (outs_of outs.items)) }
    ensures grew { LogGrew db.old db.new }
{
    bodies_have_their_children();
    let rows = plan.rows.as_slice();
    let mut outs = Vec::new(alloc);
    'rows: for row in rows {
        let out = finish(alloc, row, outs.as_slice(), db)?;
        outs.push(out)?;
    }
    Ok(outs)
}

/// Elaborates the call of the `top` line into the database: its hierarchy, with one turn for each of its distinct calls, in
/// the order of their first places in its walk.
///
/// A fault is the first one of depth-first elaboration: F9, F10, F11 or F13 of the `top` line; else, call by call, a fault of its
/// body, F29 to F32 on the line where a limit is passed, or, after its children, F33 on line 0. Turns that were taken before a
/// fault stay in the log, and so do those before memory ran out.
pub fn elab_one(alloc: Global, design: &Design, db: &mut DbState) -> Result<Hier, Refused>
    ensures hierarchy { IfOk result (λ h. (e : Elaborated) × DesignElaborates design.now (Ok e) × IsHierarchyFor db.new.entries h e × LogsDistinct db.old db.new e) }
    ensures fault { Faults (λ f. DesignElaborates design.now (Err f)) result }
    ensures grew { LogGrew db.old db.new }
{
    plans_elaborate();
    designs_elaborate_once();
    let plan = match plan(alloc, design) {
        Ok(plan) => plan,
        Err(refused) => return Err(refused),
    };
    let outs = finish_rows(alloc, design, &plan, db)?;
    db.legal();
    match conclude(alloc, design, plan, outs) {
        Ok(hier) => Ok(hier),
        Err(refused) => Err(refused),
    }
}
