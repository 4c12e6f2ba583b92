//! The value of a node by its row.
ghost use Rattle.std.specs.Prelude.{◌≡◌, ◌<◌, length, slice_get, Some};
ghost use Rattle.hc_bits.specs.BitVector.{IsWidth};
ghost use Rattle.hc_values.specs.Rows.{words_at, AreRowsOf};
ghost use Rattle.hc_values.specs.Values.{own_vector, word_or_zero};

use crate::operands::{cat, mux, operand, operation, two};
use crate::words::{Words, zero};
use hc_bits::Bits;
use hc_ops::OpTable;
use hc_signal::{Circuit, MemId, Node, NodeId, NodeRow};

/// The word of a memory at an address, 0 past its end.
fn read(memories: &[Words], mem: MemId, addr: Bits, width: u32) -> Bits
    requires width { IsWidth width }
    requires within { mem.0 < length memories.now }
    ensures { result ≡ word_or_zero width (slice_get (words_at memories.now mem.0) addr.value) }
{
    match memories[mem.0 as usize].word(addr.value()) {
        Some(word) => word,
        None => zero(width),
    }
}

/// The value of a node from those of its operands. Inputs and outputs of instances keep theirs.
pub fn compute(
    circuit: &Circuit,
    ops: &OpTable,
    registers: &[Bits],
    memories: &[Words],
    values: &[Bits],
    id: NodeId,
    row: &NodeRow,
) -> Bits
    requires row { slice_get circuit.now.nodes id.0 ≡ Some row.now }
    requires kept { AreRowsOf circuit.now (record { values = values.now; registers = registers.now; memories = memories.now }) }
    ensures { result ≡ own_vector circuit.now (record { values = values.now; registers = registers.now; memories = memories.now }) id.0 row.now }
{
    circuit.lawful();
    match &row.node {
        Node::Input { .. } => values[id.0 as usize],
        Node::Wire { driver: None } => zero(row.width),
        Node::Wire { driver: Some(a) } => operand(circuit, values, *a),
        Node::Const { value } => *value,
        Node::Two { op, a, b } => two(
            *op,
            operand(circuit, values, *a),
            operand(circuit, values, *b),
        ),
        Node::Not { a } => operand(circuit, values, *a).not(),
        Node::Mux { sel, cases } => mux(
            circuit,
            values,
            operand(circuit, values, *sel),
            cases.as_slice(),
        ),
        Node::Cat { parts } => cat(circuit, values, parts.as_slice()),
        Node::Select { a, hi, lo } => operand(circuit, values, *a).select(*hi, *lo),
        Node::Reg { .. } => registers[id.0 as usize],
        Node::Read { mem, addr } => read(
            memories,
            *mem,
            operand(circuit, values, *addr),
            row.width,
        ),
        Node::Op { kind, args } => operation(circuit, ops, values, *kind, args.as_slice()),
        Node::InstOut { .. } => values[id.0 as usize],
    }
}
