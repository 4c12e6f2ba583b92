//! What is kept of a circuit at the start.
ghost use Rattle.std.specs.Prelude.{◌≡◌, map, IfOk};
ghost use Rattle.hc_values.specs.Rows.{zeros_of_memory, zeros_of_nodes};

use crate::words::{Words, zero};
use hc_bits::Bits;
use hc_fault::NoMemory;
use hc_signal::Circuit;
use std::alloc::Global;

/// 0 for each node, in its width.
pub fn zeros_of_nodes(alloc: Global, circuit: &Circuit) -> Result<Vec<Bits>, NoMemory>
    ensures { IfOk result (λ values. values.items ≡ zeros_of_nodes circuit.now.nodes) }
{
    circuit.lawful();
    let rows = circuit.nodes();
    let mut values = Vec::new(alloc);
    'rows: for row in rows {
        values.push(zero(row.width))?;
    }
    Ok(values)
}

/// All words 0, for each memory.
pub fn zeros_of_memories(alloc: Global, circuit: &Circuit) -> Result<Vec<Words>, NoMemory>
    ensures { IfOk result (λ words. words.items ≡ map zeros_of_memory circuit.now.memories) }
{
    circuit.lawful();
    let memories = circuit.memories();
    let mut words = Vec::new(alloc);
    'memories: for memory in memories {
        words.push(Words::zeros(alloc, memory.size, memory.width)?)?;
    }
    Ok(words)
}
