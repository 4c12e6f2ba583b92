//! The values of all nodes that the outputs reach.
ghost use Rattle.std.specs.Prelude.{◌≡◌, true, false, length, map, slice_get};
ghost use Rattle.hc_flatsim.specs.Machine.{node_widths, port_widths, widths};
ghost use Rattle.hc_flatsim.specs.Plan.{plan_of, planned, step_of};
ghost use Rattle.hc_flatsim.specs.Settling.{operand, settled, with_row, IsGiven};

use crate::compute::compute;
use crate::operands::{mux, operand, two};
use crate::plan::{Make, Step};
use crate::words::Words;
use hc_bits::Bits;
use hc_ops::OpTable;
use hc_signal::{Circuit, NodeId};

/// Computes the value of one node from its row.
fn settle_node(
    circuit: &Circuit,
    ops: &OpTable,
    registers: &[Bits],
    memories: &[Words],
    inputs: &[Bits],
    values: &mut [Bits],
    id: NodeId,
)
    requires given { IsGiven circuit.now (record { registers = registers.now; memories = memories.now; inputs = inputs.now }) }
    requires values { widths values.old ≡ node_widths circuit.now.nodes }
    ensures value { values.new ≡ with_row circuit.now (record { registers = registers.now; memories = memories.now; inputs = inputs.now }) values.old id.0 (slice_get circuit.now.nodes id.0) }
    ensures widths { widths values.new ≡ node_widths circuit.now.nodes }
{
    if let Some(row) = circuit.nodes().get(id.0 as usize) {
        let value = compute(circuit, ops, registers, memories, inputs, values, id, row);
        values[id.0 as usize] = value;
    }
}

/// Takes a step that tells what makes the value. False where the row of the node is to tell, and nothing is done then.
fn settle_short(
    circuit: &Circuit,
    registers: &[Bits],
    memories: &[Words],
    inputs: &[Bits],
    values: &mut [Bits],
    step: Step,
) -> bool
    requires step { step ≡ step_of circuit.now step.id }
    requires given { IsGiven circuit.now (record { registers = registers.now; memories = memories.now; inputs = inputs.now }) }
    requires values { widths values.old ≡ node_widths circuit.now.nodes }
    ensures value { result ≡ true → values.new ≡ with_row circuit.now (record { registers = registers.now; memories = memories.now; inputs = inputs.now }) values.old step.id.0 (slice_get circuit.now.nodes step.id.0) }
    ensures same { result ≡ false → values.new ≡ values.old }
    ensures widths { widths values.new ≡ node_widths circuit.now.nodes }
{
    circuit.lawful();
    let place = step.id.0 as usize;
    match step.make {
        Make::Same(a) => {
            let value = operand(circuit, values, a);
            values[place] = value;
            true
        }
        Make::Binary(op, a, b) => {
            let value = two(op, operand(circuit, values, a), operand(circuit, values, b));
            values[place] = value;
            true
        }
        Make::Complement(a) => {
            let value = operand(circuit, values, a).not();
            values[place] = value;
            true
        }
        Make::Part { a, hi, lo } => {
            let value = operand(circuit, values, a).select(hi as u32, lo as u32);
            values[place] = value;
            true
        }
        Make::Choice(sel, a, b) => {
            let value = mux(circuit, values, operand(circuit, values, sel), &[a, b]);
            values[place] = value;
            true
        }
        Make::FromPort(port) => {
            values[place] = inputs[port as usize];
            true
        }
        Make::Held => {
            values[place] = registers[place];
            true
        }
        Make::Row => false,
    }
}

/// Takes one step of the plan.
fn settle_step(
    circuit: &Circuit,
    ops: &OpTable,
    registers: &[Bits],
    memories: &[Words],
    inputs: &[Bits],
    values: &mut [Bits],
    step: Step,
)
    requires step { step ≡ step_of circuit.now step.id }
    requires given { IsGiven circuit.now (record { registers = registers.now; memories = memories.now; inputs = inputs.now }) }
    requires values { widths values.old ≡ node_widths circuit.now.nodes }
    ensures value { values.new ≡ with_row circuit.now (record { registers = registers.now; memories = memories.now; inputs = inputs.now }) values.old step.id.0 (slice_get circuit.now.nodes step.id.0) }
    ensures widths { widths values.new ≡ node_widths circuit.now.nodes }
{
    if !settle_short(circuit, registers, memories, inputs, values, step) {
        settle_node(circuit, ops, registers, memories, inputs, values, step.id);
    }
}

/// Computes the values of the planned nodes, in their order.
pub fn settle(
    circuit: &Circuit,
    ops: &OpTable,
    plan: &[Step],
    registers: &[Bits],
    memories: &[Words],
    inputs: &[Bits],
    values: &mut [Bits],
)
    requires plan { plan.now ≡ plan_of circuit.now (planned plan.now) }
    requires given { IsGiven circuit.now (record { registers = registers.now; memories = memories.now; inputs = inputs.now }) }
    requires values { widths values.old ≡ node_widths circuit.now.nodes }
    ensures value { values.new ≡ settled circuit.now (record { registers = registers.now; memories = memories.now; inputs = inputs.now }) (planned plan.now) values.old }
    ensures widths { widths values.new ≡ node_widths circuit.now.nodes }
{
    'plan: for step in plan {
        settle_step(circuit, ops, registers, memories, inputs, values, *step);
    }
}

/// Notes the values of outputs.
fn note_values(circuit: &Circuit, values: &[Bits], to: &mut [Bits])
    requires values { widths values.now ≡ node_widths circuit.now.nodes }
    requires many { length to.old ≡ length circuit.now.outputs }
    ensures { to.new ≡ map (operand circuit.now values.now) circuit.now.outputs }
{
    circuit.lawful();
    let outputs = circuit.outputs();
    'outputs: for k in 0..outputs.len() {
        to[k] = operand(circuit, values, outputs[k]);
    }
}

/// Notes the values of outputs in place of others.
pub fn note(circuit: &Circuit, values: &[Bits], to: &mut [Bits])
    requires values { widths values.now ≡ node_widths circuit.now.nodes }
    requires widths { widths to.old ≡ port_widths circuit.now.ports.outputs }
    ensures value { to.new ≡ map (operand circuit.now values.now) circuit.now.outputs }
    ensures widths { widths to.new ≡ port_widths circuit.now.ports.outputs }
{
    circuit.lawful();
    note_values(circuit, values, to);
}
