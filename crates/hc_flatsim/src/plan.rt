//! What makes the value of each node, in small steps.
ghost use Rattle.std.specs.Prelude.{◌≡◌, slice_get, IfOk};
ghost use Rattle.hc_signal.specs.Lawful.{IsLawfulNode};
ghost use Rattle.hc_flatsim.specs.Plan.{choice_of, make_of, plan_of, step_of};

use hc_fault::NoMemory;
use hc_signal::{Circuit, Node, NodeId, NodeRow, Op2};
use std::alloc::Global;
use std::mem::size_of;

/// What makes the value of a node.
#[derive(Clone, Copy)]
pub enum Make {
    /// The value of another node.
    Same(NodeId),
    /// An operator of two operands.
    Binary(Op2, NodeId, NodeId),
    /// The complement.
    Complement(NodeId),
    /// The bits of another node from `hi` down to `lo`.
    Part { a: NodeId, hi: u8, lo: u8 },
    /// The second node where the first one is 0, and else the third.
    Choice(NodeId, NodeId, NodeId),
    /// The value of an input.
    FromPort(u32),
    /// The node is a register.
    Held,
    /// All else: the row of the node tells.
    Row,
}

/// A node, and what makes its value.
#[derive(Clone, Copy)]
pub struct Step {
    pub id: NodeId,
    pub make: Make,
}

// small, since each settling reads all steps
const _: () = prove!(size_of::<Step>() <= 20);

/// A multiplexer of these cases.
fn choice_of(sel: NodeId, cases: &[NodeId]) -> Make
    ensures { result ≡ choice_of sel cases.now }
{
    match cases {
        [a, b] => Make::Choice(sel, *a, *b),
        _ => Make::Row,
    }
}

/// What makes the value of a node.
fn make_of(circuit: &Circuit, row: &NodeRow) -> Make
    requires lawful { IsLawfulNode circuit.now row.now.width row.now.node }
    ensures { result ≡ make_of row.now.node }
{
    circuit.lawful();
    match &row.node {
        Node::Wire { driver: Some(a) } => Make::Same(*a),
        Node::Two { op, a, b } => Make::Binary(*op, *a, *b),
        Node::Not { a } => Make::Complement(*a),
        Node::Select { a, hi, lo } => Make::Part {
            a: *a,
            hi: *hi as u8,
            lo: *lo as u8,
        },
        Node::Mux { sel, cases } => choice_of(*sel, cases.as_slice()),
        Node::Input { port } => Make::FromPort(*port),
        Node::Reg { .. } => Make::Held,
        _ => Make::Row,
    }
}

/// The step of a node.
fn step_of(circuit: &Circuit, id: NodeId) -> Step
    ensures { result ≡ step_of circuit.now id }
{
    circuit.lawful();
    let make = match circuit.nodes().get(id.0 as usize) {
        Some(row) => make_of(circuit, row),
        None => Make::Row,
    };
    Step { id, make }
}

/// A step for each of these nodes, in their order.
pub fn plan_of(alloc: Global, circuit: &Circuit, order: &[NodeId]) -> Result<Vec<Step>, NoMemory>
    ensures { IfOk result (λ steps. steps.items ≡ plan_of circuit.now order.now) }
{
    let mut steps = Vec::new(alloc);
    'order: for id in order {
        steps.push(step_of(circuit, *id))?;
    }
    Ok(steps)
}
