ghost use Rattle.std.specs.Prelude.{◌≡◌, ◌≤◌, ◌++◌, ◌∷◌, [], length, IfOk, OnOk};
ghost use Rattle.hc_signal.specs.Lawful.{ArePorts};
ghost use Rattle.hc_bench.specs.Answers.{Answers};
ghost use Rattle.hc_bench.specs.Steps.{steps_of, AreStepsFor};

use crate::kinds::{Bench, Step};
use crate::lines::{cycles_of, step_at};
use hc_fault::{ItemList, NoMemory, Refused};
use hc_lang::Design;
use hc_signal::Ports;
use std::alloc::Global;

/// Adds a step at the end.
fn add(steps: &mut ItemList<Step>, step: Step) -> Result<(), NoMemory>
    ensures { OnOk result (steps.new ≡ steps.old ++ step ∷ []) }
{
    match steps.push(step) {
        Ok(()) => Ok(()),
        Err((_, refused)) => Err(refused),
    }
}

/// The bench of a design, for the ports of its top. The faults are F34 where a line sets no input, F35 where the value
/// is none of the input's width, and F36 where the cycles up to a line are more than 1,000,000; the first line that has
/// one is told, without a path.
pub fn bench(alloc: Global, design: &Design, ports: &Ports) -> Result<Bench, Refused>
    requires few { length ports.now.inputs ≤ 128 }
    requires lawful { ArePorts ports.now }
    ensures answer { Answers (λ bench. bench.steps) result (steps_of design.now ports.now) }
    ensures steps { IfOk result (λ bench. AreStepsFor ports.now.inputs bench.steps) }
{
    let mut steps = ItemList::new(alloc);
    let mut count = 0;
    'lines: for line in design.bench.as_slice() {
        let step = match step_at(ports, count, line) {
            Ok(step) => step,
            Err(fault) => return Err(Refused::Fault(fault)),
        };
        count += cycles_of(&step);
        if add(&mut steps, step).is_err() {
            return Err(Refused::NoMemory);
        }
    }
    Ok(Bench { steps })
}
