//! Registers at clock edges and resets.
ghost use Rattle.std.specs.Prelude.{◌≡◌, ◌<◌, ◌==◌, [], false, length, slice_get, slice_set, Some};
ghost use Rattle.hc_bits.specs.BitVector.{BitVector};
ghost use Rattle.hc_bench.specs.Simulation.{cleared, is_enabled, next_value};
ghost use Rattle.hc_signal.specs.Lawful.{IsLawfulNode, MayClear, MayHaveWidth};
ghost use Rattle.hc_values.specs.Edges.{initial_of, initial_register_at, initial_registers, next_register_at, next_registers, places, KeepsOthers, ResetsRegisters, StepsRegisters};
ghost use Rattle.hc_values.specs.Rows.{node_widths, number_at, widths};
ghost use Rattle.hc_values.specs.Updates.{replaced};
ghost use Rattle.hc_values.specs.Values.{valuation};

use crate::operands::{is_one, operand};
use hc_bits::Bits;
use hc_signal::{Circuit, Node, NodeId, NodeRow};

/// Whether an enable is 1 or absent.
fn is_enabled(circuit: &Circuit, values: &[Bits], enable: Option<NodeId>) -> bool
    requires values { widths values.now ≡ node_widths circuit.now.nodes }
    requires within { MayHaveWidth circuit.now enable 1 }
    ensures { result ≡ is_enabled (valuation values.now) [] enable }
{
    match enable {
        None => true,
        Some(id) => is_one(circuit, values, id),
    }
}

/// The value of a clear that is 1.
fn cleared(
    circuit: &Circuit,
    values: &[Bits],
    clear: Option<(NodeId, Bits)>,
    otherwise: Bits,
) -> Bits
    requires values { widths values.now ≡ node_widths circuit.now.nodes }
    requires within { MayClear circuit.now clear otherwise.width }
    ensures { result ≡ record { width = otherwise.width; value = cleared (valuation values.now) [] clear otherwise.value } }
{
    match clear {
        Some((id, value)) if is_one(circuit, values, id) => value,
        _ => otherwise,
    }
}

/// The value of a register after the edge, and the old one for other nodes.
fn next_of(circuit: &Circuit, values: &[Bits], row: &NodeRow, old: Bits) -> Bits
    requires values { widths values.now ≡ node_widths circuit.now.nodes }
    requires width { old.width ≡ row.now.width }
    requires lawful { IsLawfulNode circuit.now row.now.width row.now.node }
    ensures { result ≡ record { width = old.width; value = next_value (valuation values.now) [] row.now.node old.value } }
{
    match &row.node {
        Node::Reg {
            next,
            enable,
            clear,
            init: _,
        } => {
            let kept = if is_enabled(circuit, values, *enable) {
                operand(circuit, values, *next)
            } else {
                old
            };
            cleared(circuit, values, *clear, kept)
        }
        _ => old,
    }
}

/// Replaces the value at a place, and tells whether it was another.
fn replace(values: &mut [Bits], place: usize, value: Bits) -> bool
    requires { place < length values.old }
    ensures value { values.new ≡ slice_set values.old place value }
    ensures told { result ≡ false → values.new ≡ values.old }
{
    let changed = values[place] != value;
    values[place] = value;
    changed
}

/// Steps the register of one node, and tells whether it changed.
fn step_register(circuit: &Circuit, values: &[Bits], registers: &mut [Bits], id: NodeId) -> bool
    requires values { widths values.now ≡ node_widths circuit.now.nodes }
    requires registers { widths registers.old ≡ node_widths circuit.now.nodes }
    ensures value { registers.new ≡ replaced (next_register_at circuit.now values.now id.0) id.0 registers.old }
    ensures widths { widths registers.new ≡ node_widths circuit.now.nodes }
    ensures told { result ≡ false → registers.new ≡ registers.old }
{
    circuit.lawful();
    if let Some(row) = circuit.nodes().get(id.0 as usize) {
        let next = next_of(circuit, values, row, registers[id.0 as usize]);
        replace(registers, id.0 as usize, next)
    } else {
        false
    }
}

/// Steps the registers of these nodes, one after another.
fn step_each(circuit: &Circuit, clocked: &[NodeId], values: &[Bits], registers: &mut [Bits]) -> bool
    requires values { widths values.now ≡ node_widths circuit.now.nodes }
    requires registers { widths registers.old ≡ node_widths circuit.now.nodes }
    ensures value { registers.new ≡ next_registers circuit.now values.now clocked.now registers.old }
    ensures widths { widths registers.new ≡ node_widths circuit.now.nodes }
    ensures told { result ≡ false → registers.new ≡ registers.old }
{
    let mut changed = false;
    'clocked: for id in clocked {
        if step_register(circuit, values, registers, *id) {
            changed = true;
        }
    }
    changed
}

/// The clock edge for these registers: a clear comes before an enable. Tells whether one of them changed.
pub fn step_registers(
    circuit: &Circuit,
    clocked: &[NodeId],
    values: &[Bits],
    registers: &mut [Bits],
) -> bool
    requires values { widths values.now ≡ node_widths circuit.now.nodes }
    requires registers { widths registers.old ≡ node_widths circuit.now.nodes }
    ensures value { StepsRegisters circuit.now values.now clocked.now registers.old registers.new }
    ensures others { KeepsOthers (places clocked.now) registers.old registers.new }
    ensures widths { widths registers.new ≡ node_widths circuit.now.nodes }
    ensures told { result ≡ false → registers.new ≡ registers.old }
{
    step_each(circuit, clocked, values, registers)
}

/// The initial value of a register, and the old one for other nodes.
fn initial_of(row: &NodeRow, old: Bits) -> Bits
    ensures { result ≡ initial_of row.now.node old }
{
    match &row.node {
        Node::Reg { init, .. } => *init,
        _ => old,
    }
}

/// Puts the register of one node to its initial value, and tells whether it changed.
fn reset_register(circuit: &Circuit, registers: &mut [Bits], id: NodeId) -> bool
    requires registers { widths registers.old ≡ node_widths circuit.now.nodes }
    ensures value { registers.new ≡ replaced (initial_register_at circuit.now id.0) id.0 registers.old }
    ensures widths { widths registers.new ≡ node_widths circuit.now.nodes }
    ensures told { result ≡ false → registers.new ≡ registers.old }
{
    circuit.lawful();
    if let Some(row) = circuit.nodes().get(id.0 as usize) {
        let initial = initial_of(row, registers[id.0 as usize]);
        replace(registers, id.0 as usize, initial)
    } else {
        false
    }
}

/// Puts the registers of these nodes to their initial values, one after another.
fn reset_each(circuit: &Circuit, clocked: &[NodeId], registers: &mut [Bits]) -> bool
    requires registers { widths registers.old ≡ node_widths circuit.now.nodes }
    ensures value { registers.new ≡ initial_registers circuit.now clocked.now registers.old }
    ensures widths { widths registers.new ≡ node_widths circuit.now.nodes }
    ensures told { result ≡ false → registers.new ≡ registers.old }
{
    let mut changed = false;
    'clocked: for id in clocked {
        if reset_register(circuit, registers, *id) {
            changed = true;
        }
    }
    changed
}

/// Puts these registers to their initial values. Tells whether one of them changed.
pub fn reset_registers(circuit: &Circuit, clocked: &[NodeId], registers: &mut [Bits]) -> bool
    requires { widths registers.old ≡ node_widths circuit.now.nodes }
    ensures value { ResetsRegisters circuit.now clocked.now registers.old registers.new }
    ensures others { KeepsOthers (places clocked.now) registers.old registers.new }
    ensures widths { widths registers.new ≡ node_widths circuit.now.nodes }
    ensures told { result ≡ false → registers.new ≡ registers.old }
{
    reset_each(circuit, clocked, registers)
}
