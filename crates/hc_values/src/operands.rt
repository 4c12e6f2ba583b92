//! What operators make of the values of their operands.
ghost use Rattle.std.specs.Prelude.{◌≡◌, ◌<◌, ◌≤◌, ◌==◌, length, map};
ghost use Rattle.hc_bits.specs.BitVector.{cat_all, mux};
ghost use Rattle.hc_bits.specs.Catalogue.{operation};
ghost use Rattle.hc_ops.specs.Arguments.{AreLawful};
ghost use Rattle.hc_signal.specs.Operators.{binary};
ghost use Rattle.hc_values.specs.Rows.{node_widths, number_at, widths};
ghost use Rattle.hc_values.specs.Values.{operand, AreWithin, IsTwo};

use hc_bits::{Bits, OpKind};
use hc_ops::OpTable;
use hc_signal::{Circuit, NodeId, Op2};

/// The value of an operand.
pub fn operand(circuit: &Circuit, values: &[Bits], id: NodeId) -> Bits
    requires values { widths values.now ≡ node_widths circuit.now.nodes }
    requires within { id.0 < length circuit.now.nodes }
    ensures { result ≡ operand circuit.now values.now id }
{
    let _ = circuit;
    values[id.0 as usize]
}

/// Whether a node is 1.
pub fn is_one(circuit: &Circuit, values: &[Bits], id: NodeId) -> bool
    requires values { widths values.now ≡ node_widths circuit.now.nodes }
    requires within { id.0 < length circuit.now.nodes }
    ensures { result ≡ (number_at values.now id.0 == 1) }
{
    operand(circuit, values, id).value() == 1
}

/// The value of an operator of two operands.
pub fn two(op: Op2, a: Bits, b: Bits) -> Bits
    requires one_width { IsTwo op a.width b.width }
    ensures { result ≡ binary op a b }
{
    match op {
        Op2::Add => a.add(b),
        Op2::Sub => a.sub(b),
        Op2::Mulu => a.mulu(b),
        Op2::Muls => a.muls(b),
        Op2::And => a.and(b),
        Op2::Or => a.or(b),
        Op2::Xor => a.xor(b),
        Op2::Eq => a.eq_bit(b),
        Op2::Lt => a.lt_bit(b),
    }
}

/// The case that the selector picks.
pub fn mux(circuit: &Circuit, values: &[Bits], sel: Bits, cases: &[NodeId]) -> Bits
    requires values { widths values.now ≡ node_widths circuit.now.nodes }
    requires some { 1 ≤ length cases.now }
    requires within { AreWithin circuit.now cases.now }
    ensures { result ≡ mux sel (map (operand circuit.now values.now) cases.now) }
{
    let last = cases.len() - 1;
    let place = sel.value().min(last as u128) as usize;
    operand(circuit, values, cases[place])
}

/// The parts side by side, the first one highest.
pub fn cat(circuit: &Circuit, values: &[Bits], parts: &[NodeId]) -> Bits
    requires values { widths values.now ≡ node_widths circuit.now.nodes }
    requires some { 1 ≤ length parts.now }
    requires within { AreWithin circuit.now parts.now }
    requires fits { (cat_all (map (operand circuit.now values.now) parts.now)).width ≤ 128 }
    ensures { result ≡ cat_all (map (operand circuit.now values.now) parts.now) }
{
    match parts.split_first() {
        None => unreachable!(),
        Some((first, rest)) => {
            let high = operand(circuit, values, *first);
            if rest.is_empty() {
                high
            } else {
                high.cat(cat(circuit, values, rest))
            }
        }
    }
}

/// The value of an operation.
pub fn operation(
    circuit: &Circuit,
    ops: &OpTable,
    values: &[Bits],
    kind: OpKind,
    args: &[NodeId],
) -> Bits
    requires values { widths values.now ≡ node_widths circuit.now.nodes }
    requires within { AreWithin circuit.now args.now }
    requires lawful { AreLawful kind (map (operand circuit.now values.now) args.now) }
    ensures { result ≡ operation kind (map (operand circuit.now values.now) args.now) }
{
    let op = ops.find(kind);
    match args {
        [a] => op.call(&[operand(circuit, values, *a)]),
        [a, b] => op.call(&[operand(circuit, values, *a), operand(circuit, values, *b)]),
        _ => unreachable!(),
    }
}
