//! Whether the operands of a node are known.
ghost use Rattle.std.specs.Prelude.{◌≡◌, true, ℕ, take};
ghost use Rattle.hc_steps.specs.Plan.{IsPlain, made};
ghost use Rattle.hc_steps.specs.Views.{AreKnownAt, IsKnownAt};
ghost use Rattle.hc_signal.specs.Occurrences.{comb_fanin};

use crate::known::is_node_known;
use hc_signal::{Circuit, Node, NodeId};
use hc_steps::{Part, Spot};

/// Whether the numbers of these nodes are known before a step.
fn are_known(circuit: &Circuit, parts: &[Part], spots: &[Spot], at: Spot, ids: &[NodeId]) -> bool
    ensures { result ≡ true → AreKnownAt circuit.now parts.now at.part at.step ids.now }
{
    'ids: for id in ids {
        if is_node_known(circuit, parts, spots, at, *id) {} else {
            return false;
        }
    }
    true
}

/// Whether the operands of a node of the circuit itself are known before a step.
pub(crate) fn are_operands_known(
    circuit: &Circuit,
    parts: &[Part],
    spots: &[Spot],
    at: Spot,
    node: &Node,
) -> bool
    ensures { result ≡ true → IsPlain node.now × AreKnownAt circuit.now parts.now at.part at.step (comb_fanin node.now) }
{
    match node {
        Node::Wire { driver: Some(a) } => are_known(circuit, parts, spots, at, &[*a]),
        Node::Two { op: _, a, b } => are_known(circuit, parts, spots, at, &[*a, *b]),
        Node::Not { a } => are_known(circuit, parts, spots, at, &[*a]),
        Node::Mux { sel, cases } => {
            if is_node_known(circuit, parts, spots, at, *sel) {
                return are_known(circuit, parts, spots, at, cases.as_slice());
            }
            false
        }
        Node::Cat { parts: it } => are_known(circuit, parts, spots, at, it.as_slice()),
        Node::Select { a, hi: _, lo: _ } => are_known(circuit, parts, spots, at, &[*a]),
        Node::Read { mem: _, addr } => are_known(circuit, parts, spots, at, &[*addr]),
        Node::Op { kind: _, args } => are_known(circuit, parts, spots, at, args.as_slice()),
        // the value of a register is that before the clock edge
        Node::Reg { .. } | Node::Wire { driver: None } => true,
        Node::Input { .. } | Node::Const { .. } | Node::InstOut { .. } => false,
    }
}
