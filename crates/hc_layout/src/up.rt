ghost use Rattle.std.specs.Prelude.{◌≡◌, ◌+◌, ◌<◌, ◌∷◌, [], ◌++◌, length, slice_get, IfOk, OnOk, Some};
ghost use Rattle.std.specs.List.{range_with_len};
ghost use Rattle.hc_canon.specs.declared.form.EntryId.{EntryId as Id};
ghost use Rattle.hc_layout.specs.Layout.{IsLayout, kids_of};
ghost use Rattle.hc_layout.specs.Up.{AreRunners, IsUp, parts_of, ran_in, runner, runners_of};

use crate::layout::{Layout, short};
use hc_canon::EntryId;
use hc_compile::Plan;
use hc_dbstate::DbState;
use hc_fault::NoMemory;
use hc_rows::Rows;
use hc_signal::InstId;
use std::alloc::Global;

/// How many parts the plan of an entry has, none where it has no plan.
fn count_parts(plans: &[Plan], id: EntryId) -> usize
    ensures { result ≡ length (parts_of plans.now id) }
{
    match plans.get(id.0) {
        None => 0,
        Some(plan) => plan.parts().len(),
    }
}

/// The part that runs a part of an instance of an entry.
fn running_part(plans: &[Plan], id: EntryId, i: InstId, part: u32) -> u32
    ensures { result ≡ ran_in (slice_get plans.now id.0) i.0 part }
{
    match plans.get(id.0) {
        None => u32::MAX,
        Some(plan) => plan.ran_in(i, part),
    }
}

/// The number of a part of an instance, or the other number where there is no such part.
fn number_or(up: &Rows<u32>, p: usize, part: u32, own: usize) -> usize
    ensures { result ≡ runner up.now p part own }
{
    if (part as usize) < up.row(p).len() {
        up.number(p, part as usize)
    } else {
        own
    }
}

/// The row of the top: the numbers of its parts.
fn top_row(alloc: Global, plans: &[Plan], top: EntryId) -> Result<Vec<u32>, NoMemory>
    ensures { IfOk result (λ row. row.items ≡ range_with_len 0 (length (parts_of plans.now top))) }
{
    let mut row = Vec::new(alloc);
    'parts: for part in 0..short(count_parts(plans, top))? {
        row.push(part)?;
    }
    Ok(row)
}

/// The row of an own instance of an instance.
fn kid_row(
    alloc: Global,
    plans: &[Plan],
    up: &Rows<u32>,
    p: usize,
    id: EntryId,
    i: InstId,
    kid: EntryId,
) -> Result<Vec<u32>, NoMemory>
    ensures { IfOk result (λ row. row.items ≡ runners_of plans.now up.now p id i.0 kid) }
{
    let start = up.items().len();
    let mut row = Vec::new(alloc);
    'parts: for part in 0..short(count_parts(plans, kid))? {
        let by = running_part(plans, id, i, part);
        row.push(short(number_or(up, p, by, start + part as usize))?)?;
    }
    Ok(row)
}

/// Adds the row of an own instance of an instance.
fn push_kid(
    alloc: Global,
    plans: &[Plan],
    up: &mut Rows<u32>,
    p: usize,
    id: EntryId,
    i: InstId,
    kid: EntryId,
) -> Result<(), NoMemory>
    ensures { OnOk result (up.new ≡ up.old ++ runners_of plans.now up.old p id i.0 kid ∷ []) }
{
    let row = kid_row(alloc, plans, up, p, id, i, kid)?;
    up.push_row(row.as_slice())?;
    Ok(())
}

/// An entry of a list.
fn kid_at(kids: &[EntryId], i: usize) -> EntryId
    requires { i < length kids.now }
    ensures { slice_get kids.now i ≡ Some result }
{
    kids[i]
}

/// Adds the rows of the own instances of an instance.
fn push_kids(
    alloc: Global,
    db: &DbState,
    plans: &[Plan],
    layout: &Layout,
    up: &mut Rows<u32>,
    p: usize,
) -> Result<(), NoMemory>
    requires layout { (top : Id) × IsLayout db.now.entries top layout.now }
    requires there { p < length layout.now.entries }
    requires up { AreRunners db.now.entries plans.now layout.now up.old }
    requires many { slice_get layout.now.first p ≡ Some (length up.old) }
    ensures up { OnOk result (AreRunners db.now.entries plans.now layout.now up.new) }
    ensures many { OnOk result ((id : Id) → slice_get layout.now.entries p ≡ Some id → length up.new ≡ length up.old + length (kids_of db.now.entries id)) }
{
    let id = layout.entry(p);
    let kids = db.get(id).kids();
    'kids: for i in 0..kids.len() {
        let inst = InstId(short(i)?);
        push_kid(alloc, plans, up, p, id, inst, kid_at(kids, i))?;
    }
    Ok(())
}

/// Of each part of each instance the number of the part that runs it, among the parts of all instances.
pub fn runners(
    alloc: Global,
    db: &DbState,
    plans: &[Plan],
    layout: &Layout,
    top: EntryId,
) -> Result<Rows<u32>, NoMemory>
    requires { IsLayout db.now.entries top layout.now }
    ensures { IfOk result (λ up. IsUp db.now.entries plans.now layout.now up) }
{
    let mut up = Rows::new(alloc);
    let row = top_row(alloc, plans, top)?;
    up.push_row(row.as_slice())?;
    'instances: for p in 0..layout.len() {
        push_kids(alloc, db, plans, layout, &mut up, p)?;
    }
    Ok(up)
}
