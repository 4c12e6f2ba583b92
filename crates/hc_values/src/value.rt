//! The value of the node of a step.
ghost use Rattle.std.specs.Prelude.{◌<◌, length};
ghost use Rattle.hc_signal.specs.Lawful.{HasWidth};
ghost use Rattle.hc_values.specs.Rows.{AreRowsOf};
ghost use Rattle.hc_values.specs.Steps.{IsStepOf};
ghost use Rattle.hc_values.specs.Values.{IsOwn, IsValue};

use crate::compute::compute;
use crate::operands::{mux, operand, two};
use crate::step::{Make, Step};
use crate::words::Words;
use hc_bits::Bits;
use hc_ops::OpTable;
use hc_signal::{Circuit, NodeId};

/// The value of a node, which its row tells.
fn value_by_row(
    circuit: &Circuit,
    ops: &OpTable,
    registers: &[Bits],
    memories: &[Words],
    values: &[Bits],
    id: NodeId,
) -> Bits
    requires within { id.0 < length circuit.now.nodes }
    requires kept { AreRowsOf circuit.now (record { values = values.now; registers = registers.now; memories = memories.now }) }
    ensures { IsOwn circuit.now (record { values = values.now; registers = registers.now; memories = memories.now }) id.0 result }
{
    let row = &circuit.nodes()[id.0 as usize];
    compute(circuit, ops, registers, memories, values, id, row)
}

/// The value of the node of a step, by the circuit alone.
fn own_value_of(
    circuit: &Circuit,
    ops: &OpTable,
    registers: &[Bits],
    memories: &[Words],
    values: &[Bits],
    step: Step,
) -> Bits
    requires step { IsStepOf circuit.now step }
    requires kept { AreRowsOf circuit.now (record { values = values.now; registers = registers.now; memories = memories.now }) }
    ensures { IsOwn circuit.now (record { values = values.now; registers = registers.now; memories = memories.now }) step.id.0 result }
{
    circuit.lawful();
    match step.make {
        Make::Same(a) => operand(circuit, values, a),
        Make::Binary(op, a, b) => two(op, operand(circuit, values, a), operand(circuit, values, b)),
        Make::Complement(a) => operand(circuit, values, a).not(),
        Make::Part { a, hi, lo } => operand(circuit, values, a).select(hi as u32, lo as u32),
        Make::Choice(sel, a, b) => mux(circuit, values, operand(circuit, values, sel), &[a, b]),
        Make::FromPort(_) => values[step.id.0 as usize],
        Make::Held => registers[step.id.0 as usize],
        Make::Row => value_by_row(circuit, ops, registers, memories, values, step.id),
    }
}

/// The value of the node of a step from what is kept of its circuit. An input keeps its value, and so does an output of an
/// instance.
pub fn value_of(
    circuit: &Circuit,
    ops: &OpTable,
    registers: &[Bits],
    memories: &[Words],
    values: &[Bits],
    step: Step,
) -> Bits
    requires step { IsStepOf circuit.now step }
    requires kept { AreRowsOf circuit.now (record { values = values.now; registers = registers.now; memories = memories.now }) }
    ensures width { HasWidth circuit.now step.id result.width }
    ensures value { IsValue circuit.now (record { values = values.now; registers = registers.now; memories = memories.now }) step.id.0 result.value }
{
    own_value_of(circuit, ops, registers, memories, values, step)
}
