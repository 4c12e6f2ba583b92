//! The distinct calls of a design, found depth first: each body is made once.
ghost use Rattle.std.specs.Prelude.{◌≡◌, ◌+◌, ◌<◌, ◌≤◌, ◌++◌, ◌∷◌, [], suc, ℕ, List, None, Some, Ok, Err, IfOk, OnOk, length, max, slice_get};
ghost use Rattle.hc_body.specs.BodyOf.{IsCall, IsCallOf};
ghost use Rattle.hc_body.specs.TopCall as top;
ghost use Rattle.hc_fault.specs.declared.fault.FaultKind.{FaultKind};
ghost use Rattle.hc_lang.specs.declared.tree.CircuitText.{CircuitText};
ghost use Rattle.hc_plan.specs.Elaborates as spec;
ghost use Rattle.hc_plan.specs.Plan.{AreRows, IsPlanOf, calls_of};
ghost use Rattle.hc_plan.specs.Plan as of;
ghost use Rattle.hc_plan.specs.Planning.{AreKeyed, ArePlanned, AreStopped, FaultIs, Faults, IsAdded, IsBody, IsFound, IsMadeRow, IsOneMore, IsPlanned, IsStopped, IsWithin, rows_in};
ghost use Rattle.hc_plan.specs.declared.kinds.PlanRow.{PlanRow};
ghost use Rattle.hc_signal.specs.Member.{Has};
ghost use Rattle.hc_statements.specs.Elaborated.{fault_at};
ghost use Rattle.hc_statements.specs.declared.kinds.Child.{Child};

use crate::deep::too_deep_in;
use crate::kinds::{Plan, PlanRow};
use crate::lookup::{Table, add, count, find, row_at};
use crate::rows::rows_of;
use crate::sums::{Sums, has_few_words, limit_passed, own_sums, plus, row_sums};
use hc_body::kinds::{Body, Call, Child};
use hc_body::laws::{bodies_are_single, bodies_have_their_children, bodies_stay, calls_of_the_top};
use hc_body::make::{body, top_call};
use hc_fault::{Fault, FaultKind, ItemList, NoMemory, Path, Refused};
use hc_lang::{CircuitText, Design};
use hc_statements::refused_at;
use indexmap::IndexMap;
use std::alloc::Global;

pub(crate) const MOST_LEVELS: usize = 64;

/// The circuit of a call.
pub(crate) fn circuit_of<'a>(design: &'a Design, call: &Call) -> &'a CircuitText
    requires { IsCall design.now call.now }
    ensures { IsCallOf design.now call.now result.now }
{
    &design.circuits.as_slice()[call.circuit as usize]
}

/// The body of a call. F32 on the line of its circuit where its own words are past the limit.
fn body_within(alloc: Global, design: &Design, call: &Call, path: &Path) -> Result<Body, Refused>
    requires { IsCall design.now call.now }
    ensures ok { IfOk result (λ b. IsBody design.now path.now call.now b) }
    ensures fault { Faults (λ f. (level : ℕ) (rows : List PlanRow) → IsStopped design.now level path.now call.now rows rows f) result }
{
    let circuit = circuit_of(design, call);
    let body = match body(alloc, design, call, path) {
        Ok(body) => body,
        Err(refused) => return Err(refused),
    };
    if has_few_words(&body) {
        Ok(body)
    } else {
        Err(refused_at(alloc, path, FaultKind::DesignWords, circuit.line))
    }
}

/// Adds the row of a child: its sums, its place and its height. F30, F31 or F32 on the child's line where a sum is then past its
/// limit.
fn add_kid(
    alloc: Global,
    path: &Path,
    line: u32,
    sums: &mut Sums,
    kids: &mut ItemList<u32>,
    height: &mut u32,
    row: &PlanRow,
    place: u32,
) -> Result<(), Refused>
    requires sums { IsWithin sums.old }
    requires row { IsWithin (of.row_sums row.now) }
    ensures sums { OnOk result (sums.new ≡ spec.plus sums.old (of.row_sums row.now)) }
    ensures under { OnOk result (spec.limit_passed sums.new ≡ None) }
    ensures kids { OnOk result (kids.new ≡ kids.old ++ place ∷ []) }
    ensures height { OnOk result (height.new ≡ max height.old row.now.height) }
    ensures fault { Faults (λ f. (kind : FaultKind) × (spec.limit_passed (spec.plus sums.old (of.row_sums row.now)) ≡ Some kind) × (f ≡ fault_at path.now kind line)) result }
{
    let all = plus(*sums, row_sums(row));
    if let Some(kind) = limit_passed(all) {
        return Err(refused_at(alloc, path, kind, line));
    }
    match kids.push(place) {
        Ok(()) => {
            *sums = all;
            *height = (*height).max(row.height);
            Ok(())
        }
        Err(_) => Err(Refused::NoMemory),
    }
}

/// Adds the row at a place, which is that of a child.
fn add_row(
    alloc: Global,
    path: &Path,
    line: u32,
    sums: &mut Sums,
    kids: &mut ItemList<u32>,
    height: &mut u32,
    table: &Table,
    place: u32,
) -> Result<(), Refused>
    requires sums { IsWithin sums.old }
    requires row { (row : PlanRow) → slice_get (rows_in table.now.entries) place ≡ Some row → IsWithin (of.row_sums row) }
    ensures ok { OnOk result ((row : PlanRow) → slice_get (rows_in table.now.entries) place ≡ Some row → IsAdded row place sums.old sums.new kids.old kids.new height.old height.new) }
    ensures fault { Faults (λ f. (row : PlanRow) → slice_get (rows_in table.now.entries) place ≡ Some row → (kind : FaultKind) × (spec.limit_passed (spec.plus sums.old (of.row_sums row)) ≡ Some kind) × (f ≡ fault_at path.now kind line)) result }
{
    match row_at(table, place as usize) {
        Some(row) => add_kid(alloc, path, line, sums, kids, height, row, place),
        None => Err(Refused::NoMemory),
    }
}

/// A row for a call whose children have rows.
fn row_of(
    alloc: Global,
    call: &Call,
    path: Path,
    body: Body,
    sums: Sums,
    kids: ItemList<u32>,
    height: u32,
) -> Result<PlanRow, NoMemory>
    requires { height ≤ 64 }
    ensures { IfOk result (λ row. IsMadeRow row call.now path body sums kids height) }
{
    let args = Vec::from_slice(alloc, call.args.as_slice())?;
    Ok(PlanRow {
        call: Call {
            circuit: call.circuit,
            args: ItemList::from_vec(args),
        },
        first: path,
        body,
        kids,
        height: height + 1,
        instances: sums.instances,
        weight: sums.weight,
        words: sums.words,
    })
}

/// Puts in the row of a call whose children have rows, and tells its place.
fn add_call(
    alloc: Global,
    table: &mut Table,
    call: &Call,
    path: Path,
    body: Body,
    sums: Sums,
    kids: ItemList<u32>,
    height: u32,
) -> Result<u32, Refused>
    requires keyed { AreKeyed table.old.entries }
    requires fresh { ¬ Has (calls_of (rows_in table.old.entries)) call.now }
    requires height { height ≤ 64 }
    ensures keyed { AreKeyed table.new.entries }
    ensures ok { IfOk result (λ k. (k ≡ length (rows_in table.old.entries)) × ((row : PlanRow) × (rows_in table.new.entries ≡ rows_in table.old.entries ++ row ∷ []) × IsMadeRow row call.now path body sums kids height)) }
    ensures fault { Faults (λ f. ⊥) result }
{
    let Ok(place) = u32::try_from(count(table)) else {
        return Err(Refused::NoMemory);
    };
    match row_of(alloc, call, path, body, sums, kids, height) {
        Ok(row) => match add(alloc, table, row) {
            Ok(()) => Ok(place),
            Err(NoMemory) => Err(Refused::NoMemory),
        },
        Err(NoMemory) => Err(Refused::NoMemory),
    }
}

/// A call that has a row, on this level, at this path: its place, or the first fault of a call in it that is too deep there.
fn met_again(
    alloc: Global,
    design: &Design,
    table: &Table,
    place: usize,
    path: &Path,
    level: usize,
) -> Result<u32, Refused>
    requires rows { AreRows design.now (rows_in table.now.entries) }
    requires level { level ≤ 64 }
    ensures ok { IfOk result (λ k. (row : PlanRow) → slice_get (rows_in table.now.entries) place ≡ Some row → IsPlanned design.now level path.now row.call (rows_in table.now.entries) (rows_in table.now.entries) k) }
    ensures fault { Faults (λ f. (row : PlanRow) → slice_get (rows_in table.now.entries) place ≡ Some row → IsStopped design.now level path.now row.call (rows_in table.now.entries) (rows_in table.now.entries) f) result }
{
    bodies_are_single();
    bodies_stay();
    let Some(row) = row_at(table, place) else {
        return Err(Refused::NoMemory);
    };
    if level + row.height as usize > MOST_LEVELS + 1 {
        return Err(too_deep_in(alloc, design, table, place, path, level));
    }
    match u32::try_from(place) {
        Ok(place) => Ok(place),
        Err(_) => Err(Refused::NoMemory),
    }
}

/// The place of the row that a call has, on this level, at this path; that of a new row where it has none.
#[cycle(plan)]
fn place_of(
    alloc: Global,
    design: &Design,
    table: &mut Table,
    call: &Call,
    path: Path,
    level: usize,
) -> Result<u32, Refused>
    requires call { IsCall design.now call.now }
    requires level { (1 ≤ level) × (level ≤ 64) }
    requires keyed { AreKeyed table.old.entries }
    requires rows { AreRows design.now (rows_in table.old.entries) }
    ensures keyed { AreKeyed table.new.entries }
    ensures ok { IfOk result (IsPlanned design.now level path call.now (rows_in table.old.entries) (rows_in table.new.entries)) }
    ensures fault { Faults (IsStopped design.now level path call.now (rows_in table.old.entries) (rows_in table.new.entries)) result }
{
    match find(alloc, table, call) {
        Ok(Some(place)) => met_again(alloc, design, table, place, &path, level),
        Ok(None) => match plan_call(alloc, design, table, call, path, level) {
            Ok(place) => Ok(place),
            Err(refused) => Err(refused),
        },
        Err(NoMemory) => Err(Refused::NoMemory),
    }
}

/// A child of a call on this level: the row of its call, its sums and its height. F29 where it would be too deep.
#[cycle(plan)]
fn plan_child(
    alloc: Global,
    design: &Design,
    table: &mut Table,
    child: &Child,
    path: &Path,
    level: usize,
    sums: &mut Sums,
    kids: &mut ItemList<u32>,
    height: &mut u32,
) -> Result<(), Refused>
    requires call { IsCall design.now child.now.call }
    requires level { (1 ≤ level) × (level ≤ 64) }
    requires within { IsWithin sums.old }
    requires keyed { AreKeyed table.old.entries }
    requires rows { AreRows design.now (rows_in table.old.entries) }
    ensures keyed { AreKeyed table.new.entries }
    ensures ok { OnOk result (IsOneMore design.now level path.now child.now (rows_in table.old.entries) (rows_in table.new.entries) sums.old sums.new kids.old kids.new height.old height.new) }
    ensures fault { Faults (λ f. (more : List Child) → AreStopped design.now level path.now sums.old (child.now ∷ more) (rows_in table.old.entries) (rows_in table.new.entries) f) result }
{
    if level >= MOST_LEVELS {
        return Err(refused_at(alloc, path, FaultKind::TooDeep, child.line));
    }
    let Ok(inner) = path.child(alloc, &child.ident) else {
        return Err(Refused::NoMemory);
    };
    match place_of(alloc, design, table, &child.call, inner, level + 1) {
        Ok(place) => add_row(alloc, path, child.line, sums, kids, height, table, place),
        Err(refused) => Err(refused),
    }
}

/// The children of a call on this level, one after another: their sums with those before, the places of their rows, and their
/// greatest height.
#[cycle(plan)]
fn plan_children(
    alloc: Global,
    design: &Design,
    table: &mut Table,
    children: &[Child],
    path: &Path,
    level: usize,
    own: Sums,
) -> Result<(Sums, ItemList<u32>, u32), Refused>
    requires calls { (child : Child) → Has children.now child → IsCall design.now child.call }
    requires level { (1 ≤ level) × (level ≤ 64) }
    requires within { IsWithin own }
    requires keyed { AreKeyed table.old.entries }
    requires rows { AreRows design.now (rows_in table.old.entries) }
    ensures keyed { AreKeyed table.new.entries }
    ensures ok { IfOk result (λ done. ArePlanned design.now level path.now own children.now (rows_in table.old.entries) (rows_in table.new.entries) done.0 done.1 done.2) }
    ensures fault { Faults (AreStopped design.now level path.now own children.now (rows_in table.old.entries) (rows_in table.new.entries)) result }
{
    let mut sums = own;
    let mut kids = ItemList::new(alloc);
    let mut height = 0;
    'children: for child in children {
        match plan_child(
            alloc,
            design,
            table,
            child,
            path,
            level,
            &mut sums,
            &mut kids,
            &mut height,
        ) {
            Ok(()) => {}
            Err(refused) => return Err(refused),
        }
    }
    Ok((sums, kids, height))
}

/// A call without a row, on this level, at this path: its new row.
#[cycle(plan)]
fn plan_call(
    alloc: Global,
    design: &Design,
    table: &mut Table,
    call: &Call,
    path: Path,
    level: usize,
) -> Result<u32, Refused>
    requires call { IsCall design.now call.now }
    requires level { (1 ≤ level) × (level ≤ 64) }
    requires keyed { AreKeyed table.old.entries }
    requires rows { AreRows design.now (rows_in table.old.entries) }
    requires fresh { ¬ Has (calls_of (rows_in table.old.entries)) call.now }
    ensures keyed { AreKeyed table.new.entries }
    ensures ok { IfOk result (IsPlanned design.now level path call.now (rows_in table.old.entries) (rows_in table.new.entries)) }
    ensures last { IfOk result (λ k. suc k ≡ length (rows_in table.new.entries)) }
    ensures fault { Faults (IsStopped design.now level path call.now (rows_in table.old.entries) (rows_in table.new.entries)) result }
{
    bodies_are_single();
    bodies_stay();
    bodies_have_their_children();
    let body = match body_within(alloc, design, call, &path) {
        Ok(body) => body,
        Err(refused) => return Err(refused),
    };
    body.circuit.lawful();
    match plan_children(
        alloc,
        design,
        table,
        body.children.as_slice(),
        &path,
        level,
        own_sums(&body),
    ) {
        Ok((sums, kids, height)) => add_call(alloc, table, call, path, body, sums, kids, height),
        Err(refused) => Err(refused),
    }
}

/// The distinct calls of a design in the order of their first finish, each with its body, up to the first fault that the tree of
/// calls shows, if there is one. Loops are not looked for. A fault of the `top` line is answered as such: F9, F10, F11 or F13.
pub fn plan(alloc: Global, design: &Design) -> Result<Plan, Refused>
    ensures ok { IfOk result (λ p. IsPlanOf design.now p.rows p.stop) }
    ensures fault { Faults (λ f. top.top_call design.now ≡ Err f) result }
{
    calls_of_the_top();
    let call = match top_call(alloc, design) {
        Ok(call) => call,
        Err(refused) => return Err(refused),
    };
    let mut table: Table = IndexMap::new(alloc);
    let path = Path {
        steps: ItemList::new(alloc),
    };
    match plan_call(alloc, design, &mut table, &call, path, 1) {
        Ok(_) => plan_with(alloc, table, None),
        Err(Refused::Fault(fault)) => plan_with(alloc, table, Some(fault)),
        Err(Refused::NoMemory) => Err(Refused::NoMemory),
    }
}

/// A plan with these rows and this stop.
fn plan_with(alloc: Global, table: Table, stop: Option<Fault>) -> Result<Plan, Refused>
    ensures ok { IfOk result (λ p. (p.rows ≡ rows_in table.entries) × (p.stop ≡ stop)) }
    ensures fault { Faults (λ f. ⊥) result }
{
    match rows_of(alloc, table) {
        Ok(rows) => Ok(Plan { rows, stop }),
        Err(NoMemory) => Err(Refused::NoMemory),
    }
}
