ghost use Rattle.std.specs.Prelude.{◌≡◌, ℕ, IfErr, IsErrAnd, IsOkUnless, MatchResult, OnOk};
ghost use Rattle.hc_signal.specs.Checked.{Breaks, IsChecked, Rule};
ghost use Rattle.hc_check.specs.CheckStop.{IsStop, Tells};

use crate::undriven::least_undriven;
use hc_fault::{FaultKind, NoMemory};
use hc_signal::Circuit;
use hc_walk::walk;
use std::alloc::Global;

/// Why a circuit did not pass.
#[derive(Clone, Copy, Debug, PartialEq, Eq, Drop)]
pub enum CheckStop {
    /// A rule is broken. `NoOutputs`: the circuit has no output, and `which` is 0. `PortCount`: it has more than 128
    /// inputs or more than 128 outputs, and `which` is 128, the place of the first port too many: an input's where the
    /// inputs are too many, else an output's. `Undriven`: the outputs reach a wire without a driver, and `which` is the
    /// number of the least such node.
    Broken { kind: FaultKind, which: u32 },
    /// Memory ran out.
    NoMemory,
}

impl From<NoMemory> for CheckStop {
    ghost use Rattle.std.specs.Prelude.{◌≡◌};
    ghost use Rattle.hc_check.specs.declared.rules.CheckStop.TheVariants.{NoMemory};

    ghost from_gives = { λ _ stop. stop ≡ NoMemory };

    fn from(_error: NoMemory) -> CheckStop {
        CheckStop::NoMemory
    }
}

/// The most inputs, and the most outputs.
const MOST_PORTS: usize = 128;

fn broken(kind: FaultKind, which: u32) -> Result<(), CheckStop>
    ensures { result ≡ Err (CheckStop.Broken kind which) }
{
    Err(CheckStop::Broken { kind, which })
}

/// Tries the rules in their order.
fn try_rules(alloc: Global, circuit: &Circuit) -> Result<(), CheckStop>
    ensures { MatchResult result (λ _. IsChecked circuit.now) (IsStop circuit.now) }
{
    let inputs = circuit.ports().inputs.as_slice().len();
    let outputs = circuit.ports().outputs.as_slice().len();
    if outputs == 0 {
        return broken(FaultKind::NoOutputs, 0);
    }
    if inputs > MOST_PORTS || outputs > MOST_PORTS {
        return broken(FaultKind::PortCount, MOST_PORTS as u32);
    }
    let met = walk(alloc, circuit)?;
    match least_undriven(circuit, met.as_slice()) {
        Some(node) => broken(FaultKind::Undriven, node),
        None => Ok(()),
    }
}

/// Whether the circuit meets the rules; if not, the first that it breaks: it has outputs; it has at most 128 inputs and
/// at most 128 outputs; each wire that the outputs reach has a driver. What no output reaches is not looked at.
pub fn check(alloc: Global, circuit: &Circuit) -> Result<(), CheckStop>
    ensures passed { OnOk result (IsChecked circuit.now) }
    ensures broken { IfErr result (IsStop circuit.now) }
    // Only want of memory keeps back a verdict.
    ensures passes { IsChecked circuit.now → IsOkUnless result CheckStop.NoMemory }
    ensures tells { (rule : Rule) (place : ℕ) → Breaks circuit.now rule place → IsErrAnd result (Tells rule place) }
{
    try_rules(alloc, circuit)
}
