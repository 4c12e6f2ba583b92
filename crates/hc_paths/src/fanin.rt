//! What a node is computed from in the same cycle.
ghost use Rattle.std.specs.Prelude.{◌≡◌, ◌<◌, ◌∷◌, [], ◌++◌, List, slice_get, OnOk};
ghost use Rattle.hc_paths.specs.Fanin.{kept, local_fanin, local_fanin_of_node, picked, picked_of};
ghost use Rattle.hc_paths.specs.Kids.{masks_of};
ghost use Rattle.hc_paths.specs.Local.{mask_at};
ghost use Rattle.hc_signal.specs.Occurrences.{comb_fanin};

use crate::kinds::Paths;
use hc_fault::NoMemory;
use hc_signal::{Circuit, InstId, Instance, Node, NodeId};

/// Adds these nodes.
fn add_all(ids: &mut Vec<NodeId>, more: &[NodeId]) -> Result<(), NoMemory>
    ensures { OnOk result (ids.new.items ≡ ids.old.items ++ more.now) }
{
    ids.extend_from_slice(more)?;
    Ok(())
}

/// Adds a node.
fn add(ids: &mut Vec<NodeId>, id: NodeId) -> Result<(), NoMemory>
    ensures { OnOk result (ids.new.items ≡ ids.old.items ++ id ∷ []) }
{
    ids.push(id)?;
    Ok(())
}

/// Adds the operands that count in the same cycle: none of a register, and of a read its address.
fn add_operands(ids: &mut Vec<NodeId>, node: &Node) -> Result<(), NoMemory>
    ensures { OnOk result (ids.new.items ≡ ids.old.items ++ comb_fanin node.now) }
{
    match node {
        Node::Wire { driver: Some(a) } => add(ids, *a),
        Node::Two { op: _, a, b } => add_all(ids, &[*a, *b]),
        Node::Not { a } => add(ids, *a),
        Node::Mux { sel, cases } => {
            add(ids, *sel)?;
            add_all(ids, cases.as_slice())
        }
        Node::Cat { parts } => add_all(ids, parts.as_slice()),
        Node::Select { a, hi: _, lo: _ } => add(ids, *a),
        Node::Read { mem: _, addr } => add(ids, *addr),
        Node::Op { kind: _, args } => add_all(ids, args.as_slice()),
        // the value of a register is that before the clock edge
        Node::Reg { .. } => Ok(()),
        Node::Wire { driver: None }
        | Node::Input { .. }
        | Node::Const { .. }
        | Node::InstOut { .. } => Ok(()),
    }
}

/// Adds a node where the bit is 1.
fn add_kept(ids: &mut Vec<NodeId>, bit: u128, id: NodeId) -> Result<(), NoMemory>
    requires { bit < 2 }
    ensures { OnOk result ((rest : List NodeId) → ids.new.items ++ rest ≡ ids.old.items ++ kept bit id rest) }
{
    if bit == 1 {
        ids.push(id)?;
    }
    Ok(())
}

/// Adds the connections whose bit of the mask is 1.
fn add_picked(ids: &mut Vec<NodeId>, mask: u128, conns: &[NodeId]) -> Result<(), NoMemory>
    ensures { OnOk result (ids.new.items ≡ ids.old.items ++ picked mask conns.now) }
{
    let mut rest = mask;
    'conns: for id in conns {
        add_kept(ids, rest % 2, *id)?;
        rest /= 2;
    }
    Ok(())
}

/// The mask of an output of an instance.
fn mask_at(kids: &[Paths], inst: InstId, port: u32) -> Option<u128>
    ensures { result ≡ mask_at (masks_of kids.now) inst.0 port }
{
    let kid = kids.get(inst.0 as usize)?;
    kid.masks.as_slice().get(port as usize).copied()
}

/// Adds the connections that an output of an instance depends on.
fn add_through(
    ids: &mut Vec<NodeId>,
    instances: &[Instance],
    kids: &[Paths],
    inst: InstId,
    port: u32,
) -> Result<(), NoMemory>
    ensures { OnOk result (ids.new.items ≡ ids.old.items ++ picked_of (slice_get instances.now inst.0) (mask_at (masks_of kids.now) inst.0 port)) }
{
    match instances.get(inst.0 as usize) {
        None => Ok(()),
        Some(it) => match mask_at(kids, inst, port) {
            None => Ok(()),
            Some(mask) => add_picked(ids, mask, it.conns.as_slice()),
        },
    }
}

/// Adds what a node is computed from in the same cycle, through an instance by its mask.
fn add_node(
    ids: &mut Vec<NodeId>,
    instances: &[Instance],
    kids: &[Paths],
    node: &Node,
) -> Result<(), NoMemory>
    ensures { OnOk result (ids.new.items ≡ ids.old.items ++ local_fanin_of_node instances.now (masks_of kids.now) node.now) }
{
    match node {
        Node::InstOut { inst, port } => add_through(ids, instances, kids, *inst, *port),
        _ => add_operands(ids, node),
    }
}

/// Makes the list that of the nodes which a node is computed from in the same cycle, through an instance by its mask.
pub fn fanin(
    ids: &mut Vec<NodeId>,
    circuit: &Circuit,
    kids: &[Paths],
    id: NodeId,
) -> Result<(), NoMemory>
    ensures { OnOk result (ids.new.items ≡ local_fanin circuit.now (masks_of kids.now) id.0) }
{
    ids.clear();
    match circuit.nodes().get(id.0 as usize) {
        None => Ok(()),
        Some(row) => add_node(ids, circuit.instances(), kids, &row.node),
    }
}
