ghost use Rattle.std.specs.Prelude.{◌≡◌, ◌≤◌, ◌+◌, ◌++◌, ◌∷◌, [], length, map, replicate, slice_get, if◌then◌else◌, IfOk, OnOk, Some, ℕ};
ghost use Rattle.std.proofs.Math.ListN.{set};
ghost use Rattle.hc_canon.specs.Layout.{AreNumbers};
ghost use Rattle.hc_canon.specs.Numbering.{counted, instances_met, memories_met, nodes_met};
ghost use Rattle.hc_walk.specs.DepthFirst.{NumbersTo};
ghost use Rattle.hc_canon.specs.Numbers.{input_number, IsOrderOf, numbered, port_of, renumbering};
ghost use Rattle.hc_signal.specs.declared.signal.NodeRow.{NodeRow};
ghost use Rattle.hc_walk.specs.VertexId.{vertex_of, vertices_of};

use hc_fault::NoMemory;
use hc_signal::{Circuit, Node, NodeRow};
use hc_walk::VertexId;
use std::alloc::Global;

/// The old numbers of what was met, in order; of the nodes those that are no inputs.
#[derive(Drop)]
pub struct Order {
    pub nodes: Vec<u32>,
    pub memories: Vec<u32>,
    pub instances: Vec<u32>,
}

/// The new numbers, by the old ones.
#[derive(Drop)]
pub struct Numbers {
    pub nodes: Vec<u32>,
    pub memories: Vec<u32>,
    pub instances: Vec<u32>,
}

fn is_input(node: &Node) -> bool
    ensures { (row : NodeRow) (n : ℕ) → row.node ≡ node.now → counted (Some row) n ≡ (if result then [] else n ∷ []) }
{
    match node {
        Node::Input { port: _ } => true,
        _ => false,
    }
}

fn note_node(circuit: &Circuit, nodes: &mut Vec<u32>, n: u32) -> Result<(), NoMemory>
    ensures { OnOk result (nodes.new.items ≡ nodes.old.items ++ counted (slice_get circuit.now.nodes n) n) }
{
    match circuit.nodes().get(n as usize) {
        Some(row) => {
            if is_input(&row.node) {
                return Ok(());
            }
            nodes.push(n)?;
            Ok(())
        }
        None => {
            nodes.push(n)?;
            Ok(())
        }
    }
}

fn note(circuit: &Circuit, order: &mut Order, vertex: VertexId) -> Result<(), NoMemory>
    ensures nodes { OnOk result (order.new.nodes.items ≡ order.old.nodes.items ++ nodes_met circuit.now (vertex_of vertex ∷ [])) }
    ensures memories { OnOk result (order.new.memories.items ≡ order.old.memories.items ++ memories_met (vertex_of vertex ∷ [])) }
    ensures instances { OnOk result (order.new.instances.items ≡ order.old.instances.items ++ instances_met (vertex_of vertex ∷ [])) }
{
    match vertex {
        VertexId::Node(id) => note_node(circuit, &mut order.nodes, id.0),
        VertexId::Memory(id) => {
            order.memories.push(id.0)?;
            Ok(())
        }
        VertexId::Instance(id) => {
            order.instances.push(id.0)?;
            Ok(())
        }
    }
}

/// What was met, kind by kind.
pub fn order_of(alloc: Global, circuit: &Circuit, met: &[VertexId]) -> Result<Order, NoMemory>
    ensures { IfOk result (IsOrderOf circuit.now (vertices_of met.now)) }
{
    let mut order = Order {
        nodes: Vec::new(alloc),
        memories: Vec::new(alloc),
        instances: Vec::new(alloc),
    };
    'vertices: for vertex in met {
        note(circuit, &mut order, *vertex)?;
    }
    Ok(order)
}

fn port_of(node: &Node) -> u32
    ensures { result ≡ port_of node.now }
{
    match node {
        Node::Input { port } => *port,
        _ => 0,
    }
}

fn input_numbers(alloc: Global, rows: &[NodeRow]) -> Result<Vec<u32>, NoMemory>
    ensures { IfOk result (λ made. made.items ≡ map input_number rows.now) }
{
    let mut made = Vec::new(alloc);
    'rows: for row in rows {
        made.push(port_of(&row.node))?;
    }
    Ok(made)
}

#[tactic(auto, using(std::proofs::lemmas::List::set_past))]
fn set_number(table: &mut Vec<u32>, at: u32, number: u32)
    ensures { table.new.items ≡ set table.old.items at number }
{
    let at = at as usize;
    if at < table.len() {
        table[at] = number;
    }
}

fn number_all(table: &mut Vec<u32>, order: &[u32], start: u32)
    requires { start + length order.now ≤ 4294967296 }
    ensures { table.new.items ≡ numbered table.old.items start order.now }
{
    'order: for (i, at) in order.iter().enumerate() {
        set_number(table, *at, start + i as u32);
    }
}

/// The new numbers of what was met: an input has the number of its port, and the others are counted.
pub fn numbers_of(
    alloc: Global,
    circuit: &Circuit,
    met: &[VertexId],
    order: &Order,
) -> Result<Numbers, NoMemory>
    requires few { length circuit.now.ports.inputs ≤ 128 }
    requires walk { NumbersTo circuit.now (vertices_of met.now) }
    requires order { IsOrderOf circuit.now (vertices_of met.now) order.now }
    ensures { IfOk result (λ numbers. AreNumbers circuit.now (vertices_of met.now) (renumbering numbers)) }
{
    circuit.lawful();
    let _ = met;
    let mut nodes = input_numbers(alloc, circuit.nodes())?;
    let inputs = circuit.ports().inputs.as_slice().len() as u32;
    number_all(&mut nodes, order.nodes.as_slice(), inputs);
    let mut memories = vec![in alloc; 0; circuit.memories().len()]?;
    number_all(&mut memories, order.memories.as_slice(), 0);
    let mut instances = vec![in alloc; 0; circuit.instances().len()]?;
    number_all(&mut instances, order.instances.as_slice(), 0);
    Ok(Numbers {
        nodes,
        memories,
        instances,
    })
}
