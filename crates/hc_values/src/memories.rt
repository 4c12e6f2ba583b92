//! Memories at clock edges.
ghost use Rattle.std.specs.Prelude.{◌≡◌, ◌<◌, false, length, map};
ghost use Rattle.hc_signal.specs.Lawful.{IsLawfulMemory};
ghost use Rattle.hc_values.specs.Edges.{memory_places, next_memories, next_words_at, written, written_all, KeepsOthers, StepsMemories};
ghost use Rattle.hc_values.specs.Rows.{memory_widths, node_widths, widths};
ghost use Rattle.hc_values.specs.Updates.{replaced};

use crate::operands::{is_one, operand};
use crate::words::Words;
use hc_bits::Bits;
use hc_signal::{Circuit, MemId, Memory, WritePort};

/// Takes one write port, and tells whether a word changed.
fn write(circuit: &Circuit, values: &[Bits], port: &WritePort, words: &mut Words) -> bool
    requires values { widths values.now ≡ node_widths circuit.now.nodes }
    requires enable { port.now.enable.0 < length circuit.now.nodes }
    requires addr { port.now.addr.0 < length circuit.now.nodes }
    requires value { port.now.value.0 < length circuit.now.nodes }
    ensures value { words.new ≡ written circuit.now values.now port.now words.old }
    ensures told { result ≡ false → words.new ≡ words.old }
{
    if is_one(circuit, values, port.enable) {
        let place = operand(circuit, values, port.addr).value();
        words.write(place, operand(circuit, values, port.value))
    } else {
        false
    }
}

/// Takes the write ports of a memory, in order, and tells whether a word changed.
fn write_all(circuit: &Circuit, values: &[Bits], memory: &Memory, words: &mut Words) -> bool
    requires values { widths values.now ≡ node_widths circuit.now.nodes }
    requires lawful { IsLawfulMemory circuit.now memory.now }
    ensures value { words.new ≡ written_all circuit.now values.now memory.now.writes words.old }
    ensures told { result ≡ false → words.new ≡ words.old }
{
    let ports = memory.writes.as_slice();
    let mut changed = false;
    'ports: for port in ports {
        if write(circuit, values, port, words) {
            changed = true;
        }
    }
    changed
}

/// Steps one memory, and tells whether a word changed.
fn step_memory(circuit: &Circuit, values: &[Bits], memories: &mut [Words], id: MemId) -> bool
    requires values { widths values.now ≡ node_widths circuit.now.nodes }
    requires memories { map widths memories.old ≡ map memory_widths circuit.now.memories }
    ensures value { memories.new ≡ replaced (next_words_at circuit.now values.now id.0) id.0 memories.old }
    ensures widths { map widths memories.new ≡ map memory_widths circuit.now.memories }
    ensures told { result ≡ false → memories.new ≡ memories.old }
{
    circuit.lawful();
    if let Some(memory) = circuit.memories().get(id.0 as usize) {
        write_all(circuit, values, memory, &mut memories[id.0 as usize])
    } else {
        false
    }
}

/// Steps these memories, one after another.
fn step_each(circuit: &Circuit, used: &[MemId], values: &[Bits], memories: &mut [Words]) -> bool
    requires values { widths values.now ≡ node_widths circuit.now.nodes }
    requires memories { map widths memories.old ≡ map memory_widths circuit.now.memories }
    ensures value { memories.new ≡ next_memories circuit.now values.now used.now memories.old }
    ensures widths { map widths memories.new ≡ map memory_widths circuit.now.memories }
    ensures told { result ≡ false → memories.new ≡ memories.old }
{
    let mut changed = false;
    'used: for id in used {
        if step_memory(circuit, values, memories, *id) {
            changed = true;
        }
    }
    changed
}

/// The clock edge for these memories: the last write port wins, and nothing is written past the end. Tells whether a word
/// changed.
pub fn step_memories(
    circuit: &Circuit,
    used: &[MemId],
    values: &[Bits],
    memories: &mut [Words],
) -> bool
    requires values { widths values.now ≡ node_widths circuit.now.nodes }
    requires memories { map widths memories.old ≡ map memory_widths circuit.now.memories }
    ensures value { StepsMemories circuit.now values.now used.now memories.old memories.new }
    ensures others { KeepsOthers (memory_places used.now) memories.old memories.new }
    ensures widths { map widths memories.new ≡ map memory_widths circuit.now.memories }
    ensures told { result ≡ false → memories.new ≡ memories.old }
{
    step_each(circuit, used, values, memories)
}
