//! A plan of a form, to be checked.
use crate::masks::mask_at;
use crate::needs::{Moves, Needs, flag_at, needs_of};
use crate::readers::fill_tables;
use crate::writer::{Writer, make_writer};
use hc_canon::Form;
use hc_dbstate::DbState;
use hc_fault::{ItemList, NoMemory};
use hc_paths::kinds::Paths;
use hc_signal::{Circuit, InstId, NodeId};
use hc_steps::{Plan, narrow};
use std::alloc::Global;

/// What is to be emitted: a node of the order, or a part of an instance, in the order of masks.
#[derive(Clone, Copy, PartialEq, Eq, PartialOrd, Ord)]
struct Item {
    mask: u128,
    moves: bool,
    is_part: bool,
    inst: u32,
    place: usize,
}

/// All nodes of the order and all parts of instances.
fn items_of(
    alloc: Global,
    form: &Form,
    needs: &Needs,
    order: &[NodeId],
) -> Result<Vec<Item>, NoMemory> {
    let mut items = Vec::new(alloc);
    for place in 0..order.len() {
        let at = order[place].0 as usize;
        items.push(Item {
            mask: mask_at(needs.nodes.as_slice(), at),
            moves: flag_at(needs.moves.as_slice(), at),
            is_part: false,
            inst: 0,
            place,
        })?;
    }
    let count = narrow(form.circuit().instances().len())?;
    for inst in 0..count {
        add_items(&mut items, needs, inst)?;
    }
    items.sort()?;
    Ok(items)
}

/// Where the parts of an instance begin among all.
fn start_at(needs: &Needs, inst: usize) -> usize {
    match needs.first_part.get(inst) {
        None => needs.runs.len(),
        Some(start) => *start as usize,
    }
}

/// All parts of an instance.
fn add_items(items: &mut Vec<Item>, needs: &Needs, inst: u32) -> Result<(), NoMemory> {
    let start = start_at(needs, inst as usize);
    let end = start_at(needs, inst as usize + 1);
    for at in start..end {
        let place = at - start;
        items.push(Item {
            mask: mask_at(needs.runs.as_slice(), at),
            moves: flag_at(needs.run_moves.as_slice(), at),
            is_part: true,
            inst,
            place,
        })?;
    }
    Ok(())
}

/// Writes what is to be emitted.
fn emit(
    alloc: Global,
    out: &mut Writer,
    form: &Form,
    plans: &[Plan],
    kids: &[Paths],
    order: &[NodeId],
    items: &[Item],
) -> Result<(), NoMemory> {
    let mut mask = 0;
    let mut moves = false;
    for item in items {
        if item.mask != mask || item.moves != moves {
            mask = item.mask;
            moves = item.moves;
            out.next_part(alloc, mask, moves)?;
        }
        if item.is_part {
            out.part(form, plans, InstId(item.inst), item.place)?;
        } else if let Some(id) = order.get(item.place) {
            out.node(form, plans, kids, *id)?;
        }
    }
    out.next_part(alloc, mask, moves)?;
    Ok(())
}

/// Whether each output depends on the state.
fn output_moves(
    alloc: Global,
    circuit: &Circuit,
    needs: &Needs,
) -> Result<ItemList<bool>, NoMemory> {
    let mut flags = Vec::new(alloc);
    for id in circuit.outputs() {
        flags.push(flag_at(needs.moves.as_slice(), id.0 as usize))?;
    }
    Ok(ItemList::from_vec(flags))
}

/// A plan of a form whose instances have these masks and plans, and which has these masks.
pub fn draft_plan(
    alloc: Global,
    db: &DbState,
    form: &Form,
    plans: &[Plan],
    moves: &[Moves],
    kids: &[Paths],
    order: &[NodeId],
    own: &[u128],
) -> Result<(Plan, Moves), NoMemory> {
    let circuit = form.circuit();
    let needs = needs_of(alloc, form, plans, moves, kids, order, own)?;
    let items = items_of(alloc, form, &needs, order)?;
    let mut out = make_writer(alloc, circuit, &needs)?;
    emit(alloc, &mut out, form, plans, kids, order, items.as_slice())?;
    let kept = output_moves(alloc, circuit, &needs)?;
    let count = needs.runs.len();
    let (parts, part_moves, spots, first_part) = out.into_parts();
    let mut plan = Plan {
        parts,
        spots,
        readers: Vec::new(alloc),
        takers: Vec::new(alloc),
        input_readers: Vec::new(alloc),
        state_parts: Vec::new(alloc),
        first_part,
        ran: vec![in alloc; u32::MAX; count]?,
    };
    fill_tables(alloc, db, form, plans, &mut plan)?;
    Ok((
        plan,
        Moves {
            outputs: kept,
            parts: ItemList::from_vec(part_moves),
        },
    ))
}

/// The plan of an entry that is not used.
pub fn no_plan(alloc: Global) -> (Plan, Moves) {
    (
        Plan {
            parts: Vec::new(alloc),
            spots: Vec::new(alloc),
            readers: Vec::new(alloc),
            takers: Vec::new(alloc),
            input_readers: Vec::new(alloc),
            state_parts: Vec::new(alloc),
            first_part: Vec::new(alloc),
            ran: Vec::new(alloc),
        },
        Moves {
            outputs: ItemList::new(alloc),
            parts: ItemList::new(alloc),
        },
    )
}
