//! The tables of a plan. Nothing rests on it: plans are checked.
use hc_canon::Form;
use hc_dbstate::DbState;
use hc_fault::{ItemList, NoMemory};
use hc_paths::fanin::fanin;
use hc_signal::{Circuit, InstId, Node, NodeId};
use hc_steps::{
    Plan, Spot, Step, count_parts, count_steps, kid_circuit, kid_plan, output_of, spot_of, step_at,
};
use std::alloc::Global;

/// So many empty rows.
fn rows(alloc: Global, count: usize) -> Result<Vec<ItemList<u32>>, NoMemory> {
    let mut list = Vec::new(alloc);
    for _ in 0..count {
        list.push(ItemList::new(alloc))?;
    }
    Ok(list)
}

/// Adds a part at the end of a row, if it is not there.
fn add_last(row: &mut ItemList<u32>, part: u32) -> Result<(), NoMemory> {
    if let Some(last) = row.as_slice().last() {
        if *last == part {
            return Ok(());
        }
    }
    match row.push(part) {
        Ok(()) => Ok(()),
        Err(_) => Err(NoMemory),
    }
}

/// Adds a part at the end of a row of a table.
fn add_at(table: &mut Vec<ItemList<u32>>, at: usize, part: u32) -> Result<(), NoMemory> {
    match table.get_mut(at) {
        None => Ok(()),
        Some(row) => add_last(row, part),
    }
}

/// The port of a node that is an input.
fn port_of(circuit: &Circuit, id: NodeId) -> Option<u32> {
    match circuit.nodes().get(id.0 as usize) {
        None => None,
        Some(row) => match &row.node {
            Node::Input { port } => Some(*port),
            _ => None,
        },
    }
}

/// Notes that a part reads a node.
fn add_reader(plan: &mut Plan, circuit: &Circuit, part: u32, id: NodeId) -> Result<(), NoMemory> {
    if let Some(port) = port_of(circuit, id) {
        return add_at(&mut plan.input_readers, port as usize, part);
    }
    let maker = spot_of(plan.spots.as_slice(), id).part;
    if maker == part {
        return Ok(());
    }
    add_at(&mut plan.readers, maker as usize, part)
}

/// Notes that a part reads these nodes.
fn add_readers(
    plan: &mut Plan,
    circuit: &Circuit,
    part: u32,
    ids: &[NodeId],
) -> Result<(), NoMemory> {
    for id in ids {
        add_reader(plan, circuit, part, *id)?;
    }
    Ok(())
}

/// Notes that a part reads the state.
fn add_state(plan: &mut Plan, part: u32) -> Result<(), NoMemory> {
    if let Some(last) = plan.state_parts.last() {
        if *last == part {
            return Ok(());
        }
    }
    plan.state_parts.push(part)?;
    Ok(())
}

/// Whether a node reads the state.
fn is_state(circuit: &Circuit, id: NodeId) -> bool {
    match circuit.nodes().get(id.0 as usize) {
        None => false,
        Some(row) => match &row.node {
            Node::Reg { .. } | Node::Read { .. } => true,
            _ => false,
        },
    }
}

/// Notes that a part takes an output of an instance.
fn add_taker(
    db: &DbState,
    form: &Form,
    plans: &[Plan],
    plan: &mut Plan,
    part: u32,
    inst: InstId,
    port: u32,
) -> Result<(), NoMemory> {
    let Some(kid) = kid_circuit(db, form, inst) else {
        return Ok(());
    };
    let Some(own) = kid_plan(plans, form, inst) else {
        return Ok(());
    };
    let Some(wire) = output_of(kid, port) else {
        return Ok(());
    };
    let maker = plan.ran_in(inst, spot_of(own.spots(), wire).part);
    if maker == part {
        return Ok(());
    }
    add_at(&mut plan.takers, maker as usize, part)
}

/// Notes which part runs a part of an instance.
fn set_ran(plan: &mut Plan, inst: InstId, part: u32, by: u32) {
    if let Some(start) = plan.first_part.get(inst.0 as usize) {
        if let Some(it) = plan.ran.get_mut(*start as usize + part as usize) {
            *it = by;
        }
    }
}

/// Notes the run of a step.
fn note_run(plan: &mut Plan, at: Spot) {
    match step_at(plan.parts.as_slice(), at) {
        Some(Step::Run { inst, part }) => set_ran(plan, inst, part, at.part),
        _ => {}
    }
}

/// Notes what a step reads and takes.
fn note_reads(
    ids: &mut Vec<NodeId>,
    db: &DbState,
    form: &Form,
    plans: &[Plan],
    plan: &mut Plan,
    at: Spot,
) -> Result<(), NoMemory> {
    let circuit = form.circuit();
    match step_at(plan.parts.as_slice(), at) {
        Some(Step::Make { node }) => {
            if is_state(circuit, node) {
                add_state(plan, at.part)?;
            }
            fanin(ids, circuit, &[], node)?;
            add_readers(plan, circuit, at.part, ids.as_slice())
        }
        Some(
            Step::Take {
                node: _,
                inst,
                port,
            },
        ) => add_taker(db, form, plans, plan, at.part, inst, port),
        Some(
            Step::Pass {
                node,
                inst: _,
                port: _,
            },
        ) => add_reader(plan, circuit, at.part, node),
        _ => Ok(()),
    }
}

/// How many steps a part has.
fn steps_in(plan: &Plan, part: u32) -> u32 {
    match count_steps(plan.parts.as_slice(), part) {
        None => 0,
        Some(count) => count,
    }
}

/// Notes the runs of a part.
fn note_runs(plan: &mut Plan, part: u32) {
    let count = steps_in(plan, part);
    for step in 0..count {
        note_run(plan, Spot { part, step });
    }
}

/// Notes what a part reads and takes.
fn note_part(
    ids: &mut Vec<NodeId>,
    db: &DbState,
    form: &Form,
    plans: &[Plan],
    plan: &mut Plan,
    part: u32,
) -> Result<(), NoMemory> {
    let count = steps_in(plan, part);
    for step in 0..count {
        note_reads(ids, db, form, plans, plan, Spot { part, step })?;
    }
    Ok(())
}

/// Notes the runs of all parts.
fn note_all_runs(plan: &mut Plan, count: u32) {
    for part in 0..count {
        note_runs(plan, part);
    }
}

/// Fills the tables of a plan whose parts and spots are there.
pub(crate) fn fill_tables(
    alloc: Global,
    db: &DbState,
    form: &Form,
    plans: &[Plan],
    plan: &mut Plan,
) -> Result<(), NoMemory> {
    let Some(count) = count_parts(plan.parts.as_slice()) else {
        return Err(NoMemory);
    };
    plan.readers = rows(alloc, count as usize)?;
    plan.takers = rows(alloc, count as usize)?;
    plan.input_readers = rows(alloc, form.circuit().ports().inputs.as_slice().len())?;
    note_all_runs(plan, count);
    let mut ids = Vec::new(alloc);
    for part in 0..count {
        note_part(&mut ids, db, form, plans, plan, part)?;
    }
    Ok(())
}
