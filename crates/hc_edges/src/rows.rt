//! One row of registers or memories.
ghost use Rattle.std.specs.Prelude.{◌≡◌, ℕ, false, map};
ghost use Rattle.hc_rows.specs.Rows.{row_at};
ghost use Rattle.hc_values.specs.Edges.{memory_places, places, KeepsOthers, ResetsRegisters, StepsMemories, StepsRegisters};
ghost use Rattle.hc_values.specs.Rows.{memory_widths, node_widths, widths};

use hc_bits::Bits;
use hc_rows::Rows;
use hc_signal::{Circuit, MemId, NodeId};
use hc_values::{Words, reset_registers, step_memories, step_registers};

/// The clock edge for these registers of an instance. Tells whether one of them changed.
pub(crate) fn step_row(
    circuit: &Circuit,
    ids: &[NodeId],
    values: &[Bits],
    registers: &mut Rows<Bits>,
    p: usize,
) -> bool
    requires values { widths values.now ≡ node_widths circuit.now.nodes }
    requires registers { widths (row_at registers.old p) ≡ node_widths circuit.now.nodes }
    ensures value { StepsRegisters circuit.now values.now ids.now (row_at registers.old p) (row_at registers.new p) }
    ensures others { KeepsOthers (places ids.now) (row_at registers.old p) (row_at registers.new p) }
    ensures widths { widths (row_at registers.new p) ≡ node_widths circuit.now.nodes }
    ensures told { result ≡ false → row_at registers.new p ≡ row_at registers.old p }
    ensures rows { (q : ℕ) → ¬ (p ≡ q) → row_at registers.new q ≡ row_at registers.old q }
{
    step_registers(circuit, ids, values, registers.row_mut(p))
}

/// Puts these registers of an instance to their initial values. Tells whether one of them changed.
pub(crate) fn reset_row(
    circuit: &Circuit,
    ids: &[NodeId],
    registers: &mut Rows<Bits>,
    p: usize,
) -> bool
    requires { widths (row_at registers.old p) ≡ node_widths circuit.now.nodes }
    ensures value { ResetsRegisters circuit.now ids.now (row_at registers.old p) (row_at registers.new p) }
    ensures others { KeepsOthers (places ids.now) (row_at registers.old p) (row_at registers.new p) }
    ensures widths { widths (row_at registers.new p) ≡ node_widths circuit.now.nodes }
    ensures told { result ≡ false → row_at registers.new p ≡ row_at registers.old p }
    ensures rows { (q : ℕ) → ¬ (p ≡ q) → row_at registers.new q ≡ row_at registers.old q }
{
    reset_registers(circuit, ids, registers.row_mut(p))
}

/// The clock edge for these memories of an instance. Tells whether a word changed.
pub(crate) fn write_row(
    circuit: &Circuit,
    ids: &[MemId],
    values: &[Bits],
    words: &mut Rows<Words>,
    p: usize,
) -> bool
    requires values { widths values.now ≡ node_widths circuit.now.nodes }
    requires words { map widths (row_at words.old p) ≡ map memory_widths circuit.now.memories }
    ensures value { StepsMemories circuit.now values.now ids.now (row_at words.old p) (row_at words.new p) }
    ensures others { KeepsOthers (memory_places ids.now) (row_at words.old p) (row_at words.new p) }
    ensures widths { map widths (row_at words.new p) ≡ map memory_widths circuit.now.memories }
    ensures told { result ≡ false → row_at words.new p ≡ row_at words.old p }
    ensures rows { (q : ℕ) → ¬ (p ≡ q) → row_at words.new q ≡ row_at words.old q }
{
    step_memories(circuit, ids, values, words.row_mut(p))
}
