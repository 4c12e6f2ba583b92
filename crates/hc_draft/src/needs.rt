//! What is waited for before each node is computed and each part of an instance is run. Nothing rests on it: plans are
//! checked.
ghost use Rattle.std.specs.Prelude.{◌≡◌, false, slice_index_or};

use crate::masks::{mask_at, narrow_mask, node_needs};
use crate::through::{connection, mask_of_output};
use hc_canon::Form;
use hc_fault::{ItemList, NoMemory};
use hc_paths::fanin::fanin;
use hc_paths::kinds::Paths;
use hc_signal::{Circuit, InstId, Node, NodeId};
use hc_steps::{Part, Plan, all_of, is_bit, kid_plan, narrow};
use std::alloc::Global;

/// What is known of a drafted plan beside itself: whether each output, and each part, depends on the state.
#[derive(Drop)]
pub struct Moves {
    pub(crate) outputs: ItemList<bool>,
    pub(crate) parts: ItemList<bool>,
}

/// Of each node, and of each part of each instance, the inputs that are waited for, and whether it depends on the state.
/// The parts of an instance begin at its own start.
#[derive(Drop)]
pub(crate) struct Needs {
    pub(crate) every: u128,
    pub(crate) nodes: Vec<u128>,
    pub(crate) moves: Vec<bool>,
    pub(crate) first_part: Vec<u32>,
    pub(crate) runs: Vec<u128>,
    pub(crate) run_moves: Vec<bool>,
}

/// A flag of a list, none past its end.
pub fn flag_at(flags: &[bool], at: usize) -> bool
    ensures { result ≡ slice_index_or flags.now at false }
{
    match flags.get(at) {
        None => false,
        Some(flag) => *flag,
    }
}

fn set_flag(flags: &mut Vec<bool>, at: usize, to: bool) {
    if let Some(flag) = flags.get_mut(at) {
        *flag = to;
    }
}

/// The node at a place, if it is an output of an instance.
pub(crate) fn output_at(circuit: &Circuit, id: NodeId) -> Option<(InstId, u32)> {
    match circuit.nodes().get(id.0 as usize) {
        None => None,
        Some(row) => match &row.node {
            Node::InstOut { inst, port } => Some((*inst, *port)),
            _ => None,
        },
    }
}

/// Whether one of these nodes depends on the state.
fn any_moves(flags: &[bool], ids: &[NodeId]) -> bool {
    for id in ids {
        if flag_at(flags, id.0 as usize) {
            return true;
        }
    }
    false
}

/// What was kept of the plan of an instance.
pub(crate) fn kid_moves<'a>(moves: &'a [Moves], form: &Form, inst: InstId) -> Option<&'a Moves> {
    match form.kids().get(inst.0 as usize) {
        None => None,
        Some(id) => moves.get(id.0),
    }
}

/// Whether a node depends on the state by itself.
fn is_source(form: &Form, moves: &[Moves], id: NodeId) -> bool {
    match form.circuit().nodes().get(id.0 as usize) {
        None => false,
        Some(row) => match &row.node {
            Node::Reg { .. } | Node::Read { .. } => true,
            Node::InstOut { inst, port } => match kid_moves(moves, form, *inst) {
                None => true,
                Some(kid) => flag_at(kid.outputs.as_slice(), *port as usize),
            },
            _ => false,
        },
    }
}

/// Of each node whether it depends on the state.
fn node_moves(
    alloc: Global,
    form: &Form,
    kids: &[Paths],
    order: &[NodeId],
    moves: &[Moves],
) -> Result<Vec<bool>, NoMemory> {
    let circuit = form.circuit();
    let mut flags = vec![in alloc; false; circuit.nodes().len()]?;
    let mut ids = Vec::new(alloc);
    for id in order {
        fanin(&mut ids, circuit, kids, *id)?;
        let own = is_source(form, moves, *id);
        let any = any_moves(flags.as_slice(), ids.as_slice());
        set_flag(&mut flags, id.0 as usize, own || any);
    }
    Ok(flags)
}

/// The parts of the plan of an instance.
pub(crate) fn kid_parts<'a>(plans: &'a [Plan], form: &Form, inst: InstId) -> &'a [Part] {
    match kid_plan(plans, form, inst) {
        None => &[],
        Some(plan) => plan.parts(),
    }
}

/// Whether a part of an instance depends on the state: by itself or by a connection.
fn run_moves(circuit: &Circuit, flags: &[bool], own: bool, inst: InstId, part: &Part) -> bool {
    if own {
        return true;
    }
    let needs = part.needs();
    for port in 0..128 {
        if is_bit(needs, port) {
            if let Some(id) = connection(circuit, inst, port) {
                if flag_at(flags, id.0 as usize) {
                    return true;
                }
            }
        }
    }
    false
}

/// Adds the parts of an instance.
fn add_runs(
    needs: &mut Needs,
    form: &Form,
    plans: &[Plan],
    moves: &[Moves],
    inst: InstId,
) -> Result<(), NoMemory> {
    let start = narrow(needs.runs.len())?;
    needs.first_part.push(start)?;
    let parts = kid_parts(plans, form, inst);
    for b in 0..parts.len() {
        let part = &parts[b];
        let wait = if part.needs() == 0 { 0 } else { needs.every };
        let own = match kid_moves(moves, form, inst) {
            None => true,
            Some(kid) => flag_at(kid.parts.as_slice(), b),
        };
        let moving = run_moves(form.circuit(), needs.moves.as_slice(), own, inst, part);
        needs.runs.push(wait)?;
        needs.run_moves.push(moving)?;
    }
    Ok(())
}

/// Narrows what the parts of an instance wait for that an output needs.
fn narrow_runs(needs: &mut Needs, parts: &[Part], start: usize, mask: u128, within: u128) {
    for b in 0..parts.len() {
        if parts[b].needs() & !mask == 0 {
            if let Some(at) = start.checked_add(b) {
                narrow_mask(&mut needs.runs, at, within);
            }
        }
    }
}

/// Narrows what parts of instances wait for, by a node that is an output.
fn narrow_by(needs: &mut Needs, form: &Form, plans: &[Plan], kids: &[Paths], id: NodeId) {
    if let Some((inst, port)) = output_at(form.circuit(), id) {
        let start = match needs.first_part.get(inst.0 as usize) {
            None => 0,
            Some(start) => *start as usize,
        };
        let within = mask_at(needs.nodes.as_slice(), id.0 as usize);
        let parts = kid_parts(plans, form, inst);
        narrow_runs(
            needs,
            parts,
            start,
            mask_of_output(kids, inst, port),
            within,
        );
    }
}

/// What is waited for in a form whose instances have these masks and plans, and which has these masks.
pub(crate) fn needs_of(
    alloc: Global,
    form: &Form,
    plans: &[Plan],
    moves: &[Moves],
    kids: &[Paths],
    order: &[NodeId],
    own: &[u128],
) -> Result<Needs, NoMemory> {
    let circuit = form.circuit();
    let every = all_of(circuit.ports().inputs.as_slice().len());
    let mut needs = Needs {
        every,
        nodes: node_needs(alloc, circuit, kids, order, own, every)?,
        moves: node_moves(alloc, form, kids, order, moves)?,
        first_part: Vec::new(alloc),
        runs: Vec::new(alloc),
        run_moves: Vec::new(alloc),
    };
    let count = narrow(circuit.instances().len())?;
    for inst in 0..count {
        add_runs(&mut needs, form, plans, moves, InstId(inst))?;
    }
    for id in order {
        narrow_by(&mut needs, form, plans, kids, *id);
    }
    Ok(needs)
}
