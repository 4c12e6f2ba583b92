//! The registers of a circuit, and those of all instances at the start.
ghost use Rattle.std.specs.Prelude.{◌≡◌, ◌++◌, ◌∷◌, [], IfOk, OnOk};
ghost use Rattle.hc_bits.specs.BitVector.{IsWidth};
ghost use Rattle.hc_canon.specs.declared.form.EntryId.{EntryId as Id};
ghost use Rattle.hc_hierstate.specs.Changes.{initial_row, initial_rows};
ghost use Rattle.hc_hierstate.specs.States.{is_register_at, registers_in};
ghost use Rattle.hc_layout.specs.Layout.{IsLayout};
ghost use Rattle.hc_values.specs.Edges.{initial_of};
ghost use Rattle.hc_values.specs.Rows.{zero_of};

use hc_bits::Bits;
use hc_dbstate::DbState;
use hc_fault::NoMemory;
use hc_layout::Layout;
use hc_rows::Rows;
use hc_signal::{Circuit, Node, NodeId, NodeRow};
use hc_values::zero;
use std::alloc::Global;

/// Whether a node is a register.
fn is_register(circuit: &Circuit, id: NodeId) -> bool
    ensures { result ≡ is_register_at circuit.now id }
{
    match circuit.nodes().get(id.0 as usize) {
        Some(row) => matches!(row.node, Node::Reg { .. }),
        None => false,
    }
}

/// The nodes of a circuit that are registers, in order.
pub fn registers_of(alloc: Global, circuit: &Circuit) -> Result<Vec<NodeId>, NoMemory>
    ensures { IfOk result (λ ids. ids.items ≡ registers_in circuit.now) }
{
    circuit.lawful();
    let mut ids = Vec::new(alloc);
    'nodes: for n in 0..circuit.nodes().len() {
        let id = NodeId(n as u32);
        if is_register(circuit, id) {
            ids.push(id)?;
        }
    }
    Ok(ids)
}

/// The initial value of a register, and 0 for another node, in its width.
fn initial(row: &NodeRow) -> Bits
    requires { IsWidth row.now.width }
    ensures { result ≡ initial_of row.now.node (zero_of row.now.width) }
{
    match &row.node {
        Node::Reg { init, .. } => *init,
        _ => zero(row.width),
    }
}

/// Adds the row of a circuit at the start.
fn push_row(circuit: &Circuit, rows: &mut Rows<Bits>) -> Result<(), NoMemory>
    ensures { OnOk result (rows.new ≡ rows.old ++ initial_row circuit.now ∷ []) }
{
    circuit.lawful();
    let nodes = circuit.nodes();
    rows.start_row()?;
    'nodes: for node in nodes {
        rows.push(initial(node))?;
    }
    Ok(())
}

/// The registers of all instances at the start, a row for each instance with a number for each node: the initial value of a
/// register, and 0 for another node.
pub fn initial_registers(
    alloc: Global,
    db: &DbState,
    layout: &Layout,
) -> Result<Rows<Bits>, NoMemory>
    requires { (top : Id) × IsLayout db.now.entries top layout.now }
    ensures { IfOk result (λ rows. rows ≡ initial_rows db.now.entries layout.now) }
{
    let mut rows = Rows::new(alloc);
    'instances: for p in 0..layout.len() {
        push_row(db.get(layout.entry(p)).circuit(), &mut rows)?;
    }
    Ok(rows)
}
