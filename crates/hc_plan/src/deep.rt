//! The first fault of a call that is met again on a level where it does not fit.
ghost use Rattle.std.specs.Prelude.{◌≡◌, ◌+◌, ◌<◌, ◌≤◌, suc, Some, slice_get};
ghost use Rattle.hc_plan.specs.Plan.{AreRows, height_in};
ghost use Rattle.hc_plan.specs.Planning.{FaultIs, FitBefore, IsFirstDeep, IsStopped, rows_in};
ghost use Rattle.hc_plan.specs.declared.kinds.PlanRow.{PlanRow};
ghost use Rattle.hc_statements.specs.Elaborated.{child_path};

use crate::depth_first::MOST_LEVELS;
use crate::lookup::{Table, row_at};
use hc_body::kinds::Child;
use hc_body::laws::{bodies_are_single, bodies_stay};
use hc_fault::{FaultKind, NoMemory, Path, Refused};
use hc_lang::Design;
use hc_statements::refused_at;
use std::alloc::Global;

/// The height of the row at a place.
fn height_at(table: &Table, place: usize) -> u32
    ensures { result ≡ height_in (slice_get (rows_in table.now.entries) place) }
{
    match row_at(table, place) {
        Some(row) => row.height,
        None => 0,
    }
}

/// The first of these rows that does not fit on a level.
fn first_deep(table: &Table, kids: &[u32], level: usize) -> Option<usize>
    requires { level ≤ 65 }
    ensures { IsFirstDeep (rows_in table.now.entries) kids.now level result }
{
    'kids: for at in 0..kids.len() {
        if level + height_at(table, kids[at] as usize) as usize > MOST_LEVELS + 1 {
            return Some(at);
        }
    }
    None
}

/// The first fault of a call that has a row, on a level where it does not fit.
#[cycle(deep)]
pub(crate) fn too_deep_in(
    alloc: Global,
    design: &Design,
    table: &Table,
    place: usize,
    path: &Path,
    level: usize,
) -> Refused
    requires rows { AreRows design.now (rows_in table.now.entries) }
    requires level { level ≤ 64 }
    requires deep { (row : PlanRow) → slice_get (rows_in table.now.entries) place ≡ Some row → 65 < level + row.height }
    ensures { FaultIs (λ f. (row : PlanRow) → slice_get (rows_in table.now.entries) place ≡ Some row → IsStopped design.now level path.now row.call (rows_in table.now.entries) (rows_in table.now.entries) f) result }
{
    bodies_are_single();
    bodies_stay();
    let Some(row) = row_at(table, place) else {
        return Refused::NoMemory;
    };
    let children = row.body.children.as_slice();
    if level >= MOST_LEVELS {
        return match children.first() {
            Some(child) => refused_at(alloc, path, FaultKind::TooDeep, child.line),
            None => Refused::NoMemory,
        };
    }
    let kids = row.kids.as_slice();
    match first_deep(table, kids, level + 1) {
        Some(at) => match children.get(at) {
            Some(child) => too_deep_child(
                alloc,
                design,
                table,
                child,
                kids[at] as usize,
                path,
                level,
            ),
            None => Refused::NoMemory,
        },
        None => Refused::NoMemory,
    }
}

/// The first fault of a child that has a row, below a level where it does not fit.
#[cycle(deep)]
fn too_deep_child(
    alloc: Global,
    design: &Design,
    table: &Table,
    child: &Child,
    place: usize,
    path: &Path,
    level: usize,
) -> Refused
    requires rows { AreRows design.now (rows_in table.now.entries) }
    requires level { level < 64 }
    requires deep { 65 < level + 1 + height_in (slice_get (rows_in table.now.entries) place) }
    ensures { FaultIs (λ f. (row : PlanRow) → slice_get (rows_in table.now.entries) place ≡ Some row → IsStopped design.now (suc level) (child_path path.now child.now.ident) row.call (rows_in table.now.entries) (rows_in table.now.entries) f) result }
{
    match path.child(alloc, &child.ident) {
        Ok(inner) => too_deep_in(alloc, design, table, place, &inner, level + 1),
        Err(NoMemory) => Refused::NoMemory,
    }
}
