//! What a design elaborates to, over what became of the rows of its plan.
ghost use Rattle.std.specs.Prelude.{◌≡◌, ◌<◌, ◌++◌, ◌∷◌, [], ℕ, suc, None, Some, Err, IfOk, OnOk, length, slice_get};
ghost use Rattle.hc_dbstate.specs.Elaboration.{hier_view};
ghost use Rattle.hc_plan.specs.Concluded.{IsConcluded, IsEndOf};
ghost use Rattle.hc_plan.specs.Elaborates.{DesignElaborates};
ghost use Rattle.hc_plan.specs.Finishing.{AreOutcomes, any_form};
ghost use Rattle.hc_plan.specs.Hierarchies.{IsHierAt};
ghost use Rattle.hc_plan.specs.Plan.{IsPlanOf};
ghost use Rattle.hc_plan.specs.Planning.{Faults};
ghost use Rattle.hc_plan.specs.Stepping.{dones_of, outs_of};
ghost use Rattle.hc_plan.specs.declared.kinds.PlanRow.{PlanRow};
ghost use Rattle.hc_statements.specs.Elaborated.{fault_at};
ghost use Rattle.hc_statements.specs.Gives.{Tells};
ghost use Rattle.hc_fault.specs.declared.fault.FaultKind.{FaultKind};

use crate::hierarchy::hier_of;
use crate::kinds::Plan;
use crate::laws::plans_decide;
use hc_canon::EntryId;
use hc_dbstate::Hier;
use hc_fault::{FaultKind, ItemList, NoMemory, Refused};
use hc_lang::Design;
use hc_paths::kinds::Paths;
use hc_statements::refused_at;
use std::alloc::Global;

/// How the rows of a plan ended: what is done of all of them, or the place of the first that is not finished.
#[derive(Drop)]
enum End {
    Finished(ItemList<(EntryId, Paths)>),
    OpenAt(usize),
}

/// Adds what is done of a row at the end.
fn add(done: &mut ItemList<(EntryId, Paths)>, row: (EntryId, Paths)) -> Result<(), NoMemory>
    ensures { OnOk result (done.new ≡ done.old ++ row ∷ []) }
{
    match done.push(row) {
        Ok(()) => Ok(()),
        Err((_, refused)) => Err(refused),
    }
}

/// How the rows with these outcomes ended.
fn end_of(alloc: Global, outs: Vec<Option<(EntryId, Paths)>>) -> Result<End, NoMemory>
    ensures { IfOk result (IsEndOf (outs_of outs.items)) }
{
    let mut done = ItemList::with_capacity(alloc, outs.len())?;
    'outs: for out in outs {
        match out {
            Some(row) => add(&mut done, row)?,
            None => return Ok(End::OpenAt(done.as_slice().len())),
        }
    }
    Ok(End::Finished(done))
}

/// The fault of the row at a place, which looped: F33 at its first place.
fn loop_at(alloc: Global, plan: &Plan, place: usize) -> Refused
    requires { place < length plan.now.rows }
    ensures { (row : PlanRow) → slice_get plan.now.rows place ≡ Some row →
        Tells result (fault_at row.first FaultKind.CombLoop 0) }
{
    let row = &plan.rows.as_slice()[place];
    refused_at(alloc, &row.first, FaultKind::CombLoop, 0)
}

/// The stop of a plan whose rows are finished, where it has one; else the hierarchy.
fn stop_or_hier(
    alloc: Global,
    design: &Design,
    plan: Plan,
    done: &[(EntryId, Paths)],
) -> Result<Hier, Refused>
    requires plan { IsPlanOf design.now plan.rows plan.stop }
    requires many { length done.now ≡ length plan.rows }
    ensures whole { OnOk result (plan.stop ≡ None) }
    ensures hierarchy { IfOk result (λ h. (k : ℕ) → suc k ≡ length plan.rows →
        IsHierAt design.now plan.rows (dones_of done.now) k (hier_view h)) }
    ensures fault { Faults (λ f. plan.stop ≡ Some f) result }
{
    let Plan { rows, stop } = plan;
    match stop {
        Some(fault) => Err(Refused::Fault(fault)),
        None => {
            let plan = Plan { rows, stop: None };
            match hier_of(alloc, design, &plan, done) {
                Ok(hier) => Ok(hier),
                Err(NoMemory) => Err(Refused::NoMemory),
            }
        }
    }
}

/// What a design elaborates to, over what became of the rows of its plan: F33, on line 0, at the path of the first row whose
/// tree has a loop; else the plan's stop; else the hierarchy.
pub fn conclude(
    alloc: Global,
    design: &Design,
    plan: Plan,
    outs: Vec<Option<(EntryId, Paths)>>,
) -> Result<Hier, Refused>
    requires plan { IsPlanOf design.now plan.rows plan.stop }
    requires outcomes { AreOutcomes any_form plan.rows (outs_of outs.items) }
    ensures hierarchy { IfOk result (IsConcluded design.now plan outs.items) }
    ensures fault { Faults (λ f. DesignElaborates design.now (Err f)) result }
{
    plans_decide();
    match end_of(alloc, outs) {
        Ok(End::Finished(done)) => stop_or_hier(alloc, design, plan, done.as_slice()),
        Ok(End::OpenAt(place)) => Err(loop_at(alloc, &plan, place)),
        Err(NoMemory) => Err(Refused::NoMemory),
    }
}
