ghost use Rattle.std.specs.Prelude.{◌≡◌, [], slice_get, slice_index, slice_set, IfOk, Some};
ghost use Rattle.hc_bench.specs.Steps.{IsPortValue};
ghost use Rattle.hc_signal.specs.declared.signal.Port.{Port};
ghost use Rattle.hc_bench.specs.Trace.{IsAtStart};
ghost use Rattle.hc_signal.specs.Checked.{IsChecked};
ghost use Rattle.hc_signal.specs.Occurrences.{HasCombLoop};
ghost use Rattle.hc_signal.specs.Tree.{leaf};
ghost use Rattle.hc_flatsim.specs.Machine.{simulation_of};

use crate::machine::FlatMachine;
use crate::words::zero;
use hc_bench::Sim;
use hc_bits::Bits;
use hc_fault::NoMemory;
use hc_ops::OpTable;
use hc_signal::Circuit;
use std::alloc::Global;

/// A simulator of a circuit without instances. It keeps a value for each node.
#[derive(Drop)]
pub struct FlatSim<'a> {
    machine: FlatMachine<'a>,
    ops: &'a OpTable,
}

impl<'a> FlatSim<'a> {
    /// A simulator at the start: registers have their initial values, words and inputs are 0. Refused for want of memory only.
    pub fn new(
        alloc: Global,
        circuit: &'a Circuit,
        ops: &'a OpTable,
    ) -> Result<FlatSim<'a>, NoMemory>
        requires checked { IsChecked circuit.now }
        requires instances { circuit.now.instances ≡ [] }
        requires no_loop { ¬ HasCombLoop (leaf circuit.now) }
        ensures tree { IfOk result (λ sim. (simulation_of sim.machine).tree ≡ leaf circuit.now) }
        ensures start { IfOk result (λ sim. IsAtStart (simulation_of sim.machine)) }
    {
        match FlatMachine::new(alloc, circuit) {
            Ok(machine) => Ok(FlatSim { machine, ops }),
            Err(_) => Err(NoMemory),
        }
    }
}

impl<'a> Sim for FlatSim<'a> {
    ghost runs = { λ sim. simulation_of sim.machine };

    fn lawful(&self) {
        self.machine.lawful();
    }

    // these three ask nothing of their callers: a type that keeps stored closures is handed to generic code by such methods
    // alone
    fn set(&mut self, port: u32, value: Bits)
        ensures { IsPortValue self.old.machine.graph.ports.inputs port value → simulation_of self.new.machine ≡ record (simulation_of self.old.machine) { inputs = slice_set (simulation_of self.old.machine).inputs port value.value } }
    {
        if self.machine.may_be_set(port, value) {
            self.machine.set(port, value);
        }
    }

    fn cycle(&mut self) {
        self.machine.cycle(self.ops);
    }

    fn reset(&mut self) {
        self.machine.reset();
    }

    fn before(&self, port: u32) -> Bits
        ensures { (p : Port) → slice_get self.now.machine.graph.ports.outputs port ≡ Some p → result ≡ record { width = p.width; value = slice_index (simulation_of self.now.machine).before port } }
    {
        if self.machine.is_output(port) {
            self.machine.before(port)
        } else {
            zero(1)
        }
    }

    fn after(&self, port: u32) -> Bits
        ensures { (p : Port) → slice_get self.now.machine.graph.ports.outputs port ≡ Some p → result ≡ record { width = p.width; value = slice_index (simulation_of self.now.machine).after port } }
    {
        if self.machine.is_output(port) {
            self.machine.after(port)
        } else {
            zero(1)
        }
    }
}
