//! The parts of a new simulator.
ghost use Rattle.std.specs.Prelude.{◌≡◌, ◌↔◌, ◌≤◌, map, replicate, slice_get, IfOk};
ghost use Rattle.hc_bits.specs.BitVector.{BitVector, IsWidth};
ghost use Rattle.hc_signal.specs.Graph.{mem, Reached};
ghost use Rattle.hc_signal.specs.Lawful.{IsLawful};
ghost use Rattle.hc_signal.specs.Member.{Has};
ghost use Rattle.hc_signal.specs.declared.signal.MemId.{MemId};
ghost use Rattle.hc_signal.specs.declared.signal.Memory.{Memory};
ghost use Rattle.hc_signal.specs.declared.signal.NodeRow.{NodeRow};
ghost use Rattle.hc_signal.specs.declared.signal.Port.{Port};
ghost use Rattle.hc_paths.specs.Digraph.{AllDifferent};
ghost use Rattle.hc_flatsim.specs.Edges.{initial_registers};
ghost use Rattle.hc_flatsim.specs.Machine.{is_register_row, node_widths, registers_among, widths};
ghost use Rattle.hc_flatsim.specs.Starting.{memories_among, zero_of, zeros_of_memory};

use crate::edges::reset_registers;
use crate::words::{Words, zero};
use hc_bits::Bits;
use hc_fault::NoMemory;
use hc_signal::{Circuit, MemId, Memory, Node, NodeId, NodeRow, Port};
use hc_walk::{VertexId, walk};
use std::alloc::Global;

/// The memories among vertices.
fn memories_among(alloc: Global, vertices: &[VertexId]) -> Result<Vec<MemId>, NoMemory>
    ensures { IfOk result (λ ids. ids.items ≡ memories_among vertices.now) }
{
    let mut ids = Vec::new(alloc);
    'vertices: for vertex in vertices {
        if let VertexId::Memory(id) = vertex {
            ids.push(*id)?;
        }
    }
    Ok(ids)
}

/// The memories that the outputs reach, each once.
pub fn used_memories(alloc: Global, circuit: &Circuit) -> Result<Vec<MemId>, NoMemory>
    ensures each { IfOk result (λ ids. (id : MemId) → Has ids.items id ↔ Reached circuit.now (mem id.0)) }
    ensures once { IfOk result (λ ids. AllDifferent ids.items) }
{
    let met = walk(alloc, circuit)?;
    memories_among(alloc, met.as_slice())
}

/// Whether a node is a register.
fn is_register(circuit: &Circuit, id: NodeId) -> bool
    ensures { result ≡ is_register_row (slice_get circuit.now.nodes id.0) }
{
    match circuit.nodes().get(id.0 as usize) {
        Some(row) => matches!(row.node, Node::Reg { .. }),
        None => false,
    }
}

/// The registers among these nodes, in their order.
pub fn registers_among(
    alloc: Global,
    circuit: &Circuit,
    order: &[NodeId],
) -> Result<Vec<NodeId>, NoMemory>
    ensures { IfOk result (λ ids. ids.items ≡ registers_among circuit.now order.now) }
{
    let mut ids = Vec::new(alloc);
    'order: for id in order {
        if is_register(circuit, *id) {
            ids.push(*id)?;
        }
    }
    Ok(ids)
}

/// 0 for each node, in its width.
pub fn zeros_of_nodes(alloc: Global, circuit: &Circuit) -> Result<Vec<Bits>, NoMemory>
    ensures { IfOk result (λ values. values.items ≡ map (λ (row : NodeRow). zero_of row.width) circuit.now.nodes) }
{
    circuit.lawful();
    let rows = circuit.nodes();
    let mut values = Vec::new(alloc);
    'rows: for row in rows {
        values.push(zero(row.width))?;
    }
    Ok(values)
}

/// The initial value of each register among these nodes, and 0 for the other nodes.
pub fn initial_registers(
    alloc: Global,
    circuit: &Circuit,
    clocked: &[NodeId],
) -> Result<Vec<Bits>, NoMemory>
    ensures value { IfOk result (λ registers. registers.items ≡ initial_registers circuit.now clocked.now (map (λ (row : NodeRow). zero_of row.width) circuit.now.nodes)) }
    ensures widths { IfOk result (λ registers. widths registers.items ≡ node_widths circuit.now.nodes) }
{
    let mut registers = zeros_of_nodes(alloc, circuit)?;
    reset_registers(circuit, clocked, registers.as_mut_slice());
    Ok(registers)
}

/// 0 for each port, in its width.
pub fn zeros_of_ports(alloc: Global, ports: &[Port]) -> Result<Vec<Bits>, NoMemory>
    requires { (p : Port) → Has ports.now p → IsWidth p.width }
    ensures { IfOk result (λ values. values.items ≡ map (λ (p : Port). zero_of p.width) ports.now) }
{
    let mut values = Vec::new(alloc);
    'ports: for port in ports {
        values.push(zero(port.width))?;
    }
    Ok(values)
}

/// All words 0, for each memory.
pub fn zeros_of_memories(alloc: Global, circuit: &Circuit) -> Result<Vec<Words>, NoMemory>
    ensures { IfOk result (λ words. words.items ≡ map zeros_of_memory circuit.now.memories) }
{
    circuit.lawful();
    let memories = circuit.memories();
    let mut words = Vec::new(alloc);
    'memories: for memory in memories {
        words.push(Words::zeros(alloc, memory.size, memory.width)?)?;
    }
    Ok(words)
}
