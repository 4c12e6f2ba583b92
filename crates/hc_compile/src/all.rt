//! The plans of all entries that an entry uses.
ghost use Rattle.std.specs.Prelude.{◌≡◌, ◌<◌, true, Some, length, slice_get, IfOk, IfSome};
ghost use Rattle.hc_canon.specs.FormView.{FormView};
ghost use Rattle.hc_steps.specs.Compiled.{AreCompiled, AreMarkedCompiled, AreNoted, IsPlanned};
ghost use Rattle.hc_dbstate.specs.Uses.{IsMarked};

use crate::masks::{
    Masks, Splits, coarse_of, every_of, kid_masks, masks_at, masks_of_all, splits_of_all,
};
use hc_canon::EntryId;
use hc_dbstate::{DbState, is_marked, used_entries};
use hc_draft::{Moves, draft_plan, flag_at, no_plan};
use hc_fault::NoMemory;
use hc_paths::kinds::Paths;
use hc_paths::make::local_order;
use hc_stepcheck::{Site, are_noted, is_compiled};
use hc_steps::Plan;
use std::alloc::Global;

/// The masks by which an entry is compiled.
fn wanted(
    alloc: Global,
    db: &DbState,
    id: EntryId,
    masks: &Masks,
    splits: &Splits,
) -> Result<Paths, NoMemory>
    requires { id.0 < length db.now.entries }
{
    let own = masks_at(alloc, masks.own.as_slice(), id)?;
    if flag_at(splits.own.as_slice(), id.0) {
        return Ok(own);
    }
    if flag_at(splits.kids.as_slice(), id.0) {
        return coarse_of(alloc, &own, every_of(db.get(id)));
    }
    masks_at(alloc, masks.coarse.as_slice(), id)
}

/// A plan of an entry.
fn draft_entry(
    alloc: Global,
    db: &DbState,
    id: EntryId,
    masks: &Masks,
    splits: &Splits,
    plans: &[Plan],
    moves: &[Moves],
) -> Result<(Plan, Moves), NoMemory>
    requires { id.0 < length db.now.entries }
{
    let form = db.get(id);
    let by = if flag_at(splits.kids.as_slice(), id.0) {
        masks.own.as_slice()
    } else {
        masks.coarse.as_slice()
    };
    let kids = kid_masks(alloc, by, form.kids())?;
    let own = wanted(alloc, db, id, masks, splits)?;
    match local_order(alloc, form.circuit(), kids.as_slice()) {
        Err(_) => Err(NoMemory),
        Ok(order) => draft_plan(
            alloc,
            db,
            form,
            plans,
            moves,
            kids.as_slice(),
            order.as_slice(),
            own.masks.as_slice(),
        ),
    }
}

/// A plan of each marked entry at its place, kids first.
fn draft_all(alloc: Global, db: &DbState, marks: &[bool]) -> Result<Vec<Plan>, NoMemory> {
    let masks = masks_of_all(alloc, db, marks)?;
    let splits = splits_of_all(alloc, db, marks, &masks)?;
    let mut plans = Vec::new(alloc);
    let mut moves = Vec::new(alloc);
    for place in 0..db.len() {
        let id = EntryId(place);
        let (plan, moved) = if is_marked(marks, id) {
            draft_entry(
                alloc,
                db,
                id,
                &masks,
                &splits,
                plans.as_slice(),
                moves.as_slice(),
            )?
        } else {
            no_plan(alloc)
        };
        plans.push(plan)?;
        moves.push(moved)?;
    }
    Ok(plans)
}

/// The plan of an entry.
fn plan_at(plans: &[Plan], id: EntryId) -> Option<&Plan>
    ensures { IfSome result (λ plan. slice_get plans.now id.0 ≡ Some plan.now) }
{
    plans.get(id.0)
}

/// Whether an entry has its plan at its place.
fn is_planned(alloc: Global, db: &DbState, plans: &[Plan], id: EntryId) -> Result<bool, NoMemory>
    requires there { id.0 < length db.now.entries }
    requires noted { AreNoted plans.now }
    ensures { IfOk result (λ b. b ≡ true → (form : FormView) → slice_get db.now.entries id.0 ≡ Some form → IsPlanned db.now.entries plans.now id form) }
{
    let Some(plan) = plan_at(plans, id) else {
        return Ok(false);
    };
    let form = db.get(id);
    let site = Site {
        db,
        plans,
        form,
        plan,
    };
    is_compiled(alloc, &site)
}

/// Whether an entry has its plan at its place, if it is marked.
fn is_marked_planned(
    alloc: Global,
    db: &DbState,
    marks: &[bool],
    plans: &[Plan],
    id: EntryId,
) -> Result<bool, NoMemory>
    requires there { id.0 < length db.now.entries }
    requires noted { AreNoted plans.now }
    ensures { IfOk result (λ b. b ≡ true → (form : FormView) → IsMarked marks.now id → slice_get db.now.entries id.0 ≡ Some form → IsPlanned db.now.entries plans.now id form) }
{
    if is_marked(marks, id) {
        is_planned(alloc, db, plans, id)
    } else {
        Ok(true)
    }
}

/// Whether each marked entry has its plan at its place.
fn are_planned(
    alloc: Global,
    db: &DbState,
    marks: &[bool],
    plans: &[Plan],
) -> Result<bool, NoMemory>
    requires { AreNoted plans.now }
    ensures { IfOk result (λ b. b ≡ true → AreMarkedCompiled db.now.entries marks.now plans.now) }
{
    'each: for place in 0..db.len() {
        match is_marked_planned(alloc, db, marks, plans, EntryId(place)) {
            Err(e) => return Err(e),
            Ok(planned) => {
                if planned {} else {
                    return Ok(false);
                }
            }
        }
    }
    Ok(true)
}

/// The compiled plans of an entry and of all that it uses, each at its place, in order; other entries have an empty one.
/// Kids are compiled first, each once. Each plan is checked; want of memory is also the answer where a check fails.
pub fn compile_all(alloc: Global, db: &DbState, top: EntryId) -> Result<Vec<Plan>, NoMemory>
    requires { top.0 < length db.now.entries }
    ensures { IfOk result (λ plans. AreCompiled db.now.entries top plans.items) }
{
    let marks = used_entries(alloc, db, top)?;
    let plans = draft_all(alloc, db, marks.as_slice())?;
    if are_noted(plans.as_slice()) {
        match are_planned(alloc, db, marks.as_slice(), plans.as_slice()) {
            Err(e) => return Err(e),
            Ok(planned) => {
                if planned {
                    return Ok(plans);
                }
            }
        }
    }
    Err(NoMemory)
}
