//! What makes the value of each node, in small steps.
ghost use Rattle.std.specs.Prelude.{◌≡◌, ◌<◌, length};
ghost use Rattle.hc_signal.specs.Lawful.{IsLawfulNode};
ghost use Rattle.hc_signal.specs.declared.signal.Node.TheVariants.{Mux};
ghost use Rattle.hc_values.specs.Steps.{IsMadeBy, IsStepOf};

use hc_signal::{Circuit, Node, NodeId, NodeRow, Op2};
use std::mem::size_of;

/// What makes the value of a node.
#[derive(Clone, Copy)]
pub enum Make {
    /// The value of another node.
    Same(NodeId),
    /// An operator of two operands.
    Binary(Op2, NodeId, NodeId),
    /// The complement.
    Complement(NodeId),
    /// The bits of another node from `hi` down to `lo`.
    Part { a: NodeId, hi: u8, lo: u8 },
    /// The second node where the first one is 0, and else the third.
    Choice(NodeId, NodeId, NodeId),
    /// The node is an input.
    FromPort(u32),
    /// The node is a register.
    Held,
    /// All else: the row of the node tells.
    Row,
}

/// A node, and what makes its value.
#[derive(Clone, Copy)]
pub struct Step {
    pub id: NodeId,
    pub make: Make,
}

// small, since each settling reads all steps
const _: () = prove!(size_of::<Step>() <= 20);

/// A multiplexer of these cases: two have a step of their own.
fn choice_of(sel: NodeId, cases: &[NodeId]) -> Make
    ensures { IsMadeBy (Mux sel cases.now) result }
{
    match cases {
        [a, b] => Make::Choice(sel, *a, *b),
        _ => Make::Row,
    }
}

/// What makes the value of a node.
fn make_of(circuit: &Circuit, row: &NodeRow) -> Make
    requires { IsLawfulNode circuit.now row.now.width row.now.node }
    ensures { IsMadeBy row.now.node result }
{
    circuit.lawful();
    match &row.node {
        Node::Wire { driver: Some(a) } => Make::Same(*a),
        Node::Two { op, a, b } => Make::Binary(*op, *a, *b),
        Node::Not { a } => Make::Complement(*a),
        Node::Select { a, hi, lo } => Make::Part {
            a: *a,
            hi: *hi as u8,
            lo: *lo as u8,
        },
        Node::Mux { sel, cases } => choice_of(*sel, cases.as_slice()),
        Node::Input { port } => Make::FromPort(*port),
        Node::Reg { .. } => Make::Held,
        Node::Wire { driver: None }
        | Node::Const { .. }
        | Node::Cat { .. }
        | Node::Read { .. }
        | Node::InstOut { .. }
        | Node::Op { .. } => Make::Row,
    }
}

/// The step of a node.
pub fn step_of(circuit: &Circuit, id: NodeId) -> Step
    requires { id.0 < length circuit.now.nodes }
    ensures node { result.id ≡ id }
    ensures step { IsStepOf circuit.now result }
{
    circuit.lawful();
    let make = make_of(circuit, &circuit.nodes()[id.0 as usize]);
    Step { id, make }
}
