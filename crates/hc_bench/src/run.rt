ghost use Rattle.std.specs.Prelude.{◌≡◌, ◌≤◌, ◌+◌, ◌++◌, ◌∷◌, [], OnOk, OnErr};
ghost use Rattle.hc_signal.specs.Tree.{graph};
ghost use Rattle.hc_outside.specs.Causes.{HasCause};
ghost use Rattle.hc_bench.specs.declared.kinds.Step.TheVariants as step;
ghost use Rattle.hc_bench.specs.Listing.{row_text};
ghost use Rattle.hc_bench.specs.Playing.{row_of, IsListed, IsPartListed, Plays, PlaysPart};
ghost use Rattle.hc_bench.specs.Queued.{IsQueued};
ghost use Rattle.hc_bench.specs.Steps.{AreStepsFor, IsStepFor, cycles_of};
ghost use Rattle.hc_bench.specs.Trace.{RunsCycle};

use crate::buffer::WriteBuffer;
use crate::kinds::{Bench, Step};
use crate::lines::cycles_of;
use crate::listing::write_row;
use crate::sends::flush;
use crate::sim::Sim;
use hc_outside::{Failed, Sink};
use hc_signal::{Port, Ports};

/// Runs one cycle and writes its line, with this number.
fn tick<S: Sim, K: Sink>(
    sim: &mut S,
    outputs: &[Port],
    number: u32,
    to: &mut K,
    waiting: &mut WriteBuffer,
) -> Result<(), Failed>
    requires { (graph (S.runs sim.old).tree).ports.outputs ≡ outputs.now }
    ensures cycle { RunsCycle (S.runs sim.old) (S.runs sim.new) }
    ensures sent { IsQueued (K.taken to.old) (K.taken to.new) (K.faults to.old) (K.faults to.new) waiting.old waiting.new result (row_text outputs.now (row_of number (S.runs sim.new)) ++ 10 ∷ []) }
{
    sim.cycle();
    write_row(to, waiting, sim, outputs, number)
}

/// Runs cycles after `count` others, and writes their lines.
fn cycles<S: Sim, K: Sink>(
    sim: &mut S,
    outputs: &[Port],
    count: u32,
    times: u32,
    to: &mut K,
    waiting: &mut WriteBuffer,
) -> Result<(), Failed>
    requires ports { (graph (S.runs sim.old).tree).ports.outputs ≡ outputs.now }
    requires few { count + times ≤ 1000000 }
    ensures all { OnOk result (Plays outputs.now (S.runs sim.old) count (step.Cycle times ∷ []) (S.runs sim.new) (count + times) (K.taken to.old) (K.taken to.new) waiting.old waiting.new) }
    ensures front { OnErr result (PlaysPart outputs.now (S.runs sim.old) count (step.Cycle times ∷ []) (K.taken to.old) (K.taken to.new) waiting.old) }
    ensures cause { HasCause (K.faults to.old) (K.faults to.new) result }
{
    'ticks: for done in 0..times {
        tick(sim, outputs, count + done, to, waiting)?;
    }
    Ok(())
}

/// Takes a step after `count` cycles, and writes the lines of its cycles.
fn take_step<S: Sim, K: Sink>(
    sim: &mut S,
    outputs: &[Port],
    count: u32,
    step: Step,
    to: &mut K,
    waiting: &mut WriteBuffer,
) -> Result<(), Failed>
    requires ports { (graph (S.runs sim.old).tree).ports.outputs ≡ outputs.now }
    requires fits { IsStepFor (graph (S.runs sim.old).tree).ports.inputs step }
    requires few { count + cycles_of step ≤ 1000000 }
    ensures all { OnOk result (Plays outputs.now (S.runs sim.old) count (step ∷ []) (S.runs sim.new) (count + cycles_of step) (K.taken to.old) (K.taken to.new) waiting.old waiting.new) }
    ensures front { OnErr result (PlaysPart outputs.now (S.runs sim.old) count (step ∷ []) (K.taken to.old) (K.taken to.new) waiting.old) }
    ensures cause { HasCause (K.faults to.old) (K.faults to.new) result }
{
    match step {
        Step::Set { port, value } => {
            sim.lawful();
            sim.set(port, value);
            Ok(())
        }
        Step::Cycle { times } => cycles(sim, outputs, count, times, to, waiting),
        Step::Reset => {
            sim.reset();
            Ok(())
        }
    }
}

/// Plays a bench: it takes the steps in order and writes a line for each cycle, with the outputs before the clock edge
/// and after it. It fails only where the sink's count of faults rose. The sink then took a front of the listing of the
/// cycles that were run. It takes no memory.
pub fn play<S: Sim, K: Sink>(
    sim: &mut S,
    bench: &Bench,
    ports: &Ports,
    to: &mut K,
) -> Result<(), Failed>
    requires ports { (graph (S.runs sim.old).tree).ports ≡ ports.now }
    requires steps { AreStepsFor ports.now.inputs bench.now.steps }
    ensures all { OnOk result (IsListed ports.now.outputs (S.runs sim.old) bench.now.steps (K.taken to.old) (K.taken to.new)) }
    ensures front { OnErr result (IsPartListed ports.now.outputs (S.runs sim.old) 0 bench.now.steps (K.taken to.old) (K.taken to.new)) }
    ensures cause { HasCause (K.faults to.old) (K.faults to.new) result }
{
    let outputs = ports.outputs.as_slice();
    let mut waiting = WriteBuffer::new();
    let mut count = 0;
    'steps: for step in bench.steps.as_slice() {
        take_step(sim, outputs, count, *step, to, &mut waiting)?;
        count += cycles_of(step);
    }
    flush(to, &mut waiting)
}
