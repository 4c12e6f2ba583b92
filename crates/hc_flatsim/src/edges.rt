//! Clock edges and resets.
ghost use Rattle.std.specs.Prelude.{◌≡◌, ◌<◌, ◌==◌, [], false, length, map, slice_get, slice_set, Some};
ghost use Rattle.hc_bits.specs.BitVector.{BitVector};
ghost use Rattle.hc_bench.specs.Simulation.{cleared, is_enabled, next_value};
ghost use Rattle.hc_signal.specs.Lawful.{IsLawfulMemory, IsLawfulNode, IsLawfulWrite, MayClear, MayHaveWidth};
ghost use Rattle.hc_flatsim.specs.Edges.{initial_of, initial_register_at, initial_registers, next_memories, next_of_row, next_register_at, next_registers, next_words_at, places, written, written_all};
ghost use Rattle.hc_flatsim.specs.Machine.{memory_widths, node_widths, number_at, valuation, widths};
ghost use Rattle.hc_flatsim.specs.Updates.{replaced};

use crate::operands::operand;
use crate::words::Words;
use hc_bits::Bits;
use hc_signal::{Circuit, MemId, Memory, Node, NodeId, NodeRow, WritePort};

/// Whether a node is 1.
fn is_one(circuit: &Circuit, values: &[Bits], id: NodeId) -> bool
    requires values { widths values.now ≡ node_widths circuit.now.nodes }
    requires within { id.0 < length circuit.now.nodes }
    ensures { result ≡ (number_at values.now id.0 == 1) }
{
    operand(circuit, values, id).value() == 1
}

/// Whether an enable is 1 or absent.
fn is_enabled(circuit: &Circuit, values: &[Bits], enable: Option<NodeId>) -> bool
    requires values { widths values.now ≡ node_widths circuit.now.nodes }
    requires within { MayHaveWidth circuit.now enable 1 }
    ensures { result ≡ is_enabled (valuation values.now) [] enable }
{
    match enable {
        None => true,
        Some(id) => is_one(circuit, values, id),
    }
}

/// The value of a clear that is 1.
fn cleared(
    circuit: &Circuit,
    values: &[Bits],
    clear: Option<(NodeId, Bits)>,
    otherwise: Bits,
) -> Bits
    requires values { widths values.now ≡ node_widths circuit.now.nodes }
    requires within { MayClear circuit.now clear otherwise.width }
    ensures { result ≡ record { width = otherwise.width; value = cleared (valuation values.now) [] clear otherwise.value } }
{
    match clear {
        Some((id, value)) if is_one(circuit, values, id) => value,
        _ => otherwise,
    }
}

/// The value of a register after the edge, and the old one for other nodes.
fn next_of(circuit: &Circuit, values: &[Bits], row: &NodeRow, old: Bits) -> Bits
    requires values { widths values.now ≡ node_widths circuit.now.nodes }
    requires width { old.width ≡ row.now.width }
    requires lawful { IsLawfulNode circuit.now row.now.width row.now.node }
    ensures { result ≡ record { width = old.width; value = next_value (valuation values.now) [] row.now.node old.value } }
{
    match &row.node {
        Node::Reg {
            next,
            enable,
            clear,
            init: _,
        } => {
            let kept = if is_enabled(circuit, values, *enable) {
                operand(circuit, values, *next)
            } else {
                old
            };
            cleared(circuit, values, *clear, kept)
        }
        _ => old,
    }
}

/// Replaces the value at a place, and tells whether it was another.
fn replace(values: &mut [Bits], place: usize, value: Bits) -> bool
    requires { place < length values.old }
    ensures value { values.new ≡ slice_set values.old place value }
    ensures told { result ≡ false → values.new ≡ values.old }
{
    let changed = values[place] != value;
    values[place] = value;
    changed
}

/// Steps the register of one node, and tells whether it changed.
fn step_register(circuit: &Circuit, values: &[Bits], registers: &mut [Bits], id: NodeId) -> bool
    requires values { widths values.now ≡ node_widths circuit.now.nodes }
    requires registers { widths registers.old ≡ node_widths circuit.now.nodes }
    ensures value { registers.new ≡ replaced (next_register_at circuit.now values.now id.0) id.0 registers.old }
    ensures widths { widths registers.new ≡ node_widths circuit.now.nodes }
    ensures told { result ≡ false → registers.new ≡ registers.old }
{
    circuit.lawful();
    if let Some(row) = circuit.nodes().get(id.0 as usize) {
        let next = next_of(circuit, values, row, registers[id.0 as usize]);
        replace(registers, id.0 as usize, next)
    } else {
        false
    }
}

/// Steps the registers of these nodes, and tells whether one of them changed.
pub fn step_registers(
    circuit: &Circuit,
    clocked: &[NodeId],
    values: &[Bits],
    registers: &mut [Bits],
) -> bool
    requires values { widths values.now ≡ node_widths circuit.now.nodes }
    requires registers { widths registers.old ≡ node_widths circuit.now.nodes }
    ensures value { registers.new ≡ next_registers circuit.now values.now clocked.now registers.old }
    ensures widths { widths registers.new ≡ node_widths circuit.now.nodes }
    ensures told { result ≡ false → registers.new ≡ registers.old }
{
    let mut changed = false;
    'clocked: for id in clocked {
        if step_register(circuit, values, registers, *id) {
            changed = true;
        }
    }
    changed
}

/// The initial value of a register, and the old one for other nodes.
fn initial_of(row: &NodeRow, old: Bits) -> Bits
    ensures { result ≡ initial_of row.now.node old }
{
    match &row.node {
        Node::Reg { init, .. } => *init,
        _ => old,
    }
}

/// Puts the register of one node to its initial value.
fn reset_register(circuit: &Circuit, registers: &mut [Bits], id: NodeId)
    requires registers { widths registers.old ≡ node_widths circuit.now.nodes }
    ensures value { registers.new ≡ replaced (initial_register_at circuit.now id.0) id.0 registers.old }
    ensures widths { widths registers.new ≡ node_widths circuit.now.nodes }
{
    circuit.lawful();
    if let Some(row) = circuit.nodes().get(id.0 as usize) {
        let initial = initial_of(row, registers[id.0 as usize]);
        registers[id.0 as usize] = initial;
    }
}

/// Puts the registers of these nodes to their initial values.
pub fn reset_registers(circuit: &Circuit, clocked: &[NodeId], registers: &mut [Bits])
    requires registers { widths registers.old ≡ node_widths circuit.now.nodes }
    ensures value { registers.new ≡ initial_registers circuit.now clocked.now registers.old }
    ensures widths { widths registers.new ≡ node_widths circuit.now.nodes }
{
    'clocked: for id in clocked {
        reset_register(circuit, registers, *id);
    }
}

/// Takes one write port, and tells whether a word changed.
fn write(circuit: &Circuit, values: &[Bits], port: &WritePort, words: &mut Words) -> bool
    requires values { widths values.now ≡ node_widths circuit.now.nodes }
    requires enable { port.now.enable.0 < length circuit.now.nodes }
    requires addr { port.now.addr.0 < length circuit.now.nodes }
    requires value { port.now.value.0 < length circuit.now.nodes }
    ensures value { words.new ≡ written circuit.now values.now port.now words.old }
    ensures told { result ≡ false → words.new ≡ words.old }
{
    if is_one(circuit, values, port.enable) {
        let place = operand(circuit, values, port.addr).value();
        words.write(place, operand(circuit, values, port.value))
    } else {
        false
    }
}

/// Takes the write ports of a memory, in order, and tells whether a word changed.
fn write_all(circuit: &Circuit, values: &[Bits], memory: &Memory, words: &mut Words) -> bool
    requires values { widths values.now ≡ node_widths circuit.now.nodes }
    requires lawful { IsLawfulMemory circuit.now memory.now }
    ensures value { words.new ≡ written_all circuit.now values.now memory.now.writes words.old }
    ensures told { result ≡ false → words.new ≡ words.old }
{
    let ports = memory.writes.as_slice();
    let mut changed = false;
    'ports: for port in ports {
        if write(circuit, values, port, words) {
            changed = true;
        }
    }
    changed
}

/// Steps one memory, and tells whether a word changed.
fn step_memory(circuit: &Circuit, values: &[Bits], memories: &mut [Words], id: MemId) -> bool
    requires values { widths values.now ≡ node_widths circuit.now.nodes }
    requires memories { map widths memories.old ≡ map memory_widths circuit.now.memories }
    ensures value { memories.new ≡ replaced (next_words_at circuit.now values.now id.0) id.0 memories.old }
    ensures widths { map widths memories.new ≡ map memory_widths circuit.now.memories }
    ensures told { result ≡ false → memories.new ≡ memories.old }
{
    circuit.lawful();
    if let Some(memory) = circuit.memories().get(id.0 as usize) {
        write_all(circuit, values, memory, &mut memories[id.0 as usize])
    } else {
        false
    }
}

/// Steps these memories, and tells whether a word changed.
pub fn step_memories(
    circuit: &Circuit,
    used: &[MemId],
    values: &[Bits],
    memories: &mut [Words],
) -> bool
    requires values { widths values.now ≡ node_widths circuit.now.nodes }
    requires memories { map widths memories.old ≡ map memory_widths circuit.now.memories }
    ensures value { memories.new ≡ next_memories circuit.now values.now used.now memories.old }
    ensures widths { map widths memories.new ≡ map memory_widths circuit.now.memories }
    ensures told { result ≡ false → memories.new ≡ memories.old }
{
    let mut changed = false;
    'used: for id in used {
        if step_memory(circuit, values, memories, *id) {
            changed = true;
        }
    }
    changed
}
