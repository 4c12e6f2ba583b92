//! The lines of a bench.
ghost use Rattle.std.specs.Prelude.{◌≡◌, ◌≤◌, ◌<◌, ◌+◌, [], length, IfOk, IfSome};
ghost use Rattle.hc_bits.specs.BitVector.{IsWidth};
ghost use Rattle.hc_signal.specs.Lawful.{ArePorts};
ghost use Rattle.hc_bench.specs.Steps as spec;
ghost use Rattle.hc_lines.specs.declared.tree.BenchWhat.TheVariants as line;

use crate::kinds::Step;
use hc_bits::Bits;
use hc_fault::{Fault, FaultKind, Name};
use hc_lang::{BenchLine, BenchValue, BenchWhat};
use hc_signal::{Port, Ports};

/// The most cycles of a bench.
const MOST_CYCLES: u64 = 1_000_000;

/// The place of the input of this name.
fn input_place(inputs: &[Port], name: &Name) -> Option<usize>
    ensures place { result ≡ spec.input_place name.now inputs.now }
    ensures within { IfSome result (λ k. k < length inputs.now) }
{
    inputs.iter().position(|port| port.name == *name)
}

/// The value in this width, where it has one.
fn value_in(width: u32, value: &BenchValue) -> Option<Bits>
    requires { IsWidth width }
    ensures { result ≡ spec.value_in width value.now }
{
    match value {
        BenchValue::Plain(number) => Bits::from_i64(width, *number),
        BenchValue::Sized { width: own, value } => {
            if *own == i64::from(width) {
                Bits::new(width, *value)
            } else {
                None
            }
        }
    }
}

/// The step that sets an input. F34 where no input has the name, F35 where the value is none of its width.
fn set(ports: &Ports, name: &Name, value: &BenchValue) -> Result<Step, FaultKind>
    requires few { length ports.now.inputs ≤ 128 }
    requires lawful { ArePorts ports.now }
    ensures { result ≡ spec.set_at ports.now.inputs value.now (spec.input_place name.now ports.now.inputs) }
{
    let inputs = ports.inputs.as_slice();
    let Some(place) = input_place(inputs, name) else {
        return Err(FaultKind::BenchPort);
    };
    match value_in(inputs[place].width, value) {
        Some(value) => Ok(Step::Set {
            port: place as u32,
            value,
        }),
        None => Err(FaultKind::BenchValue),
    }
}

/// The step of this many cycles after `count`. F36 where they are too many in all.
fn cycle(count: u32, times: i64) -> Result<Step, FaultKind>
    ensures { result ≡ spec.step_of [] count (line.Cycle times) }
{
    let times = times.unsigned_abs();
    if u64::from(count) + times <= MOST_CYCLES {
        Ok(Step::Cycle {
            times: times as u32,
        })
    } else {
        Err(FaultKind::TooManyCycles)
    }
}

/// The step of a line after `count` cycles, or its first fault.
fn step_of(ports: &Ports, count: u32, what: &BenchWhat) -> Result<Step, FaultKind>
    requires few { length ports.now.inputs ≤ 128 }
    requires lawful { ArePorts ports.now }
    ensures step { result ≡ spec.step_of ports.now.inputs count what.now }
    ensures cycles { count ≤ 1000000 → IfOk result (λ step. count + spec.cycles_of step ≤ 1000000) }
{
    match what {
        BenchWhat::Set { port, value } => set(ports, port, value),
        BenchWhat::Cycle { times } => cycle(count, *times),
        BenchWhat::Reset => Ok(Step::Reset),
    }
}

/// The step of a line after `count` cycles, or its first fault with the line.
pub(crate) fn step_at(ports: &Ports, count: u32, line: &BenchLine) -> Result<Step, Fault>
    requires few { length ports.now.inputs ≤ 128 }
    requires lawful { ArePorts ports.now }
    ensures step { result ≡ spec.at_line line.now.line (spec.step_of ports.now.inputs count line.now.what) }
    ensures cycles { count ≤ 1000000 → IfOk result (λ step. count + spec.cycles_of step ≤ 1000000) }
{
    match step_of(ports, count, &line.what) {
        Ok(step) => Ok(step),
        Err(kind) => Err(Fault {
            kind,
            line: line.line,
            path: None,
        }),
    }
}

/// How many cycles a step has.
pub(crate) fn cycles_of(step: &Step) -> u32
    ensures { result ≡ spec.cycles_of step.now }
{
    match step {
        Step::Cycle { times } => *times,
        Step::Set { .. } | Step::Reset => 0,
    }
}
