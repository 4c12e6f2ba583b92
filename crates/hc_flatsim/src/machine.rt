ghost use Rattle.std.specs.Prelude.{◌≡◌, ◌<◌, [], true, false, length, map, slice_get, slice_index, slice_set, IfOk, None, Some};
ghost use Rattle.hc_bench.specs.Simulation as simulation;
ghost use Rattle.hc_bench.specs.Steps.{IsPortValue};
ghost use Rattle.hc_bench.specs.Trace.{IsAtStart, IsSimulation, RunsCycle};
ghost use Rattle.hc_signal.specs.Checked.{IsChecked};
ghost use Rattle.hc_signal.specs.Occurrences.{HasCombLoop};
ghost use Rattle.hc_signal.specs.Tree.{graph, leaf};
ghost use Rattle.hc_signal.specs.declared.signal.Port.{Port};
ghost use Rattle.hc_flatsim.specs.declared.known.Known.TheVariants.{Nothing};
ghost use Rattle.hc_flatsim.specs.Edges.{initial_registers, next_memories, next_registers};
ghost use Rattle.hc_flatsim.specs.Machine.{numbers, simulation_of, state_of, valuation, AreSettled, IsKnown, IsMachine};
ghost use Rattle.hc_flatsim.specs.Settling.{given_of, operand, settled};

use crate::edges::{reset_registers, step_memories, step_registers};
use crate::inputs::{is_input, is_output, may_be_set, set_input};
use crate::known::Known;
use crate::make::{
    initial_registers, registers_among, used_memories, zeros_of_memories, zeros_of_nodes,
    zeros_of_ports,
};
use crate::plan::{Step, plan_of};
use crate::settle::{note, settle};
use crate::words::Words;
use hc_bits::Bits;
use hc_fault::NoMemory;
use hc_ops::OpTable;
use hc_paths::make::schedule;
use hc_signal::{Circuit, MemId, NodeId};
use std::alloc::Global;
use std::marker::Model;

/// What a simulator of a circuit without instances holds: a value for each node, and more.
#[derive(Drop)]
pub(crate) struct FlatMachine<'a> {
    circuit: &'a Circuit,
    // a step for each node that the outputs reach, after those of the nodes that it is computed from
    plan: Vec<Step>,
    // the registers among them
    clocked: Vec<NodeId>,
    // the memories that the outputs reach
    used: Vec<MemId>,
    values: Vec<Bits>,
    // of each node that is a register its value
    registers: Vec<Bits>,
    memories: Vec<Words>,
    inputs: Vec<Bits>,
    before: Vec<Bits>,
    after: Vec<Bits>,
    known: Known,
}

impl<'a> Model for FlatMachine<'a> {
    ghost use Rattle.hc_flatsim.specs.Machine.{Machine, IsMachine};
    ghost use Rattle.hc_flatsim.specs.Plan.{planned};

    ghost Value = { Machine };

    ghost view = { λ s. record { graph = s.circuit.now; order = planned s.plan.items; plan = s.plan.items; clocked = s.clocked.items; used = s.used.items; values = s.values.items; registers = s.registers.items; memories = s.memories.items; inputs = s.inputs.items; before = s.before.items; after = s.after.items; known = s.known } };

    ghost invariant = { λ s. IsMachine (record { graph = s.circuit.now; order = planned s.plan.items; plan = s.plan.items; clocked = s.clocked.items; used = s.used.items; values = s.values.items; registers = s.registers.items; memories = s.memories.items; inputs = s.inputs.items; before = s.before.items; after = s.after.items; known = s.known }) };
}

impl<'a> FlatMachine<'a> {
    /// One at the start: registers have their initial values, words and inputs are 0. Refused for want of memory only.
    pub fn new(alloc: Global, circuit: &'a Circuit) -> Result<FlatMachine<'a>, NoMemory>
        requires checked { IsChecked circuit.now }
        requires instances { circuit.now.instances ≡ [] }
        requires no_loop { ¬ HasCombLoop (leaf circuit.now) }
        ensures tree { IfOk result (λ sim. (simulation_of sim).tree ≡ leaf circuit.now) }
        ensures start { IfOk result (λ sim. IsAtStart (simulation_of sim)) }
    {
        circuit.lawful();
        let order = match schedule(alloc, circuit) {
            Ok(order) => order,
            Err(_) => return Err(NoMemory),
        };
        let plan = plan_of(alloc, circuit, order.as_slice())?;
        let clocked = registers_among(alloc, circuit, order.as_slice())?;
        let used = used_memories(alloc, circuit)?;
        let values = zeros_of_nodes(alloc, circuit)?;
        let registers = initial_registers(alloc, circuit, clocked.as_slice())?;
        let memories = zeros_of_memories(alloc, circuit)?;
        let ports = circuit.ports();
        let inputs = zeros_of_ports(alloc, ports.inputs.as_slice())?;
        let before = zeros_of_ports(alloc, ports.outputs.as_slice())?;
        let after = zeros_of_ports(alloc, ports.outputs.as_slice())?;
        Ok(FlatMachine {
            circuit,
            plan,
            clocked,
            used,
            values,
            registers,
            memories,
            inputs,
            before,
            after,
            known: Known::Nothing,
        })
    }

    /// What is known of the values.
    fn known(&self) -> Known
        ensures { result ≡ self.now.known }
    {
        self.known
    }

    /// Notes what is known of the values.
    fn know(&mut self, known: Known)
        requires { IsKnown known (leaf self.old.graph) (state_of self.old) (numbers self.old.inputs) (valuation self.old.values) }
        ensures { self.new ≡ record self.old { known = known } }
    {
        self.known = known;
    }

    /// Computes the values.
    fn compute(&mut self, ops: &OpTable)
        ensures { self.new ≡ record self.old { values = settled self.old.graph (given_of self.old) self.old.order self.old.values; known = Nothing } }
    {
        self.known = Known::Nothing;
        settle(
            self.circuit,
            ops,
            self.plan.as_slice(),
            self.registers.as_slice(),
            self.memories.as_slice(),
            self.inputs.as_slice(),
            self.values.as_mut_slice(),
        );
    }

    /// The values settle, where they are not known to be settled.
    fn settle(&mut self, ops: &OpTable)
        ensures same { simulation_of self.new ≡ simulation_of self.old }
        ensures settled { AreSettled self.new }
    {
        self.machine();
        match self.known() {
            Known::Nothing => {
                self.compute(ops);
                self.know(Known::Settled);
            }
            Known::Settled | Known::Rest => {}
        }
    }

    /// Notes the outputs as those before the edge.
    fn note_before(&mut self)
        ensures { self.new ≡ record self.old { before = map (operand self.old.graph self.old.values) self.old.graph.outputs } }
    {
        note(
            self.circuit,
            self.values.as_slice(),
            self.before.as_mut_slice(),
        );
    }

    /// Notes the outputs as those after the edge.
    fn note_after(&mut self)
        ensures { self.new ≡ record self.old { after = map (operand self.old.graph self.old.values) self.old.graph.outputs } }
    {
        note(
            self.circuit,
            self.values.as_slice(),
            self.after.as_mut_slice(),
        );
    }

    /// Registers and memories take what the values give. Tells whether a register or a word
    /// changed.
    fn step(&mut self) -> bool
        ensures value { self.new ≡ record self.old { registers = next_registers self.old.graph self.old.values self.old.clocked self.old.registers; memories = next_memories self.old.graph self.old.values self.old.used self.old.memories; known = Nothing } }
        ensures told_registers { result ≡ false → self.new.registers ≡ self.old.registers }
        ensures told_memories { result ≡ false → self.new.memories ≡ self.old.memories }
    {
        let registers = step_registers(
            self.circuit,
            self.clocked.as_slice(),
            self.values.as_slice(),
            self.registers.as_mut_slice(),
        );
        let words = step_memories(
            self.circuit,
            self.used.as_slice(),
            self.values.as_slice(),
            self.memories.as_mut_slice(),
        );
        self.known = Known::Nothing;
        registers || words
    }

    /// The clock edge.
    fn edge(&mut self)
        ensures { simulation_of self.new ≡ record (simulation_of self.old) { state = simulation.clock_edge (leaf self.old.graph) (valuation self.old.values) (state_of self.old) } }
    {
        self.machine();
        match self.known() {
            Known::Nothing => {
                self.step();
            }
            Known::Settled => {
                if !self.step() {
                    self.know(Known::Rest);
                }
            }
            Known::Rest => {}
        }
    }

    /// Each simulator keeps this.
    fn machine(&self)
        ensures { IsMachine self.now }
    {
        let _ = &self.plan;
    }

    /// Whether an input has this value.
    fn holds(&self, port: u32, value: Bits) -> bool
        requires { IsPortValue self.now.graph.ports.inputs port value }
        ensures { result ≡ true → slice_set self.now.inputs port value ≡ self.now.inputs }
    {
        is_input(self.circuit, self.inputs.as_slice(), port, value)
    }

    /// Sets an input.
    fn put(&mut self, port: u32, value: Bits)
        requires { IsPortValue self.old.graph.ports.inputs port value }
        ensures { self.new ≡ record self.old { inputs = slice_set self.old.inputs port value; known = Nothing } }
    {
        self.known = Known::Nothing;
        set_input(self.circuit, self.inputs.as_mut_slice(), port, value);
    }

    /// Puts each register to its initial value.
    fn restart(&mut self)
        ensures { self.new ≡ record self.old { registers = initial_registers self.old.graph self.old.clocked self.old.registers; known = Nothing } }
    {
        reset_registers(
            self.circuit,
            self.clocked.as_slice(),
            self.registers.as_mut_slice(),
        );
        self.known = Known::Nothing;
    }

    /// Whether there is such an input, and the value has its width.
    pub fn may_be_set(&self, port: u32, value: Bits) -> bool
        ensures taken { result ≡ true → IsPortValue self.now.graph.ports.inputs port value }
        ensures refused { result ≡ false → ¬ IsPortValue self.now.graph.ports.inputs port value }
    {
        may_be_set(self.circuit, port, value)
    }

    /// Whether there is such an output.
    pub fn is_output(&self, port: u32) -> bool
        ensures within { result ≡ true → port < length self.now.graph.ports.outputs }
        ensures past { result ≡ false → slice_get self.now.graph.ports.outputs port ≡ None }
    {
        is_output(self.circuit, port)
    }

    /// Sets an input to a value of its width.
    pub fn set(&mut self, port: u32, value: Bits)
        requires { IsPortValue self.old.graph.ports.inputs port value }
        ensures { simulation_of self.new ≡ record (simulation_of self.old) { inputs = slice_set (simulation_of self.old).inputs port value.value } }
    {
        if !self.holds(port, value) {
            self.put(port, value);
        }
    }

    /// Runs one cycle.
    pub fn cycle(&mut self, ops: &OpTable)
        ensures { RunsCycle (simulation_of self.old) (simulation_of self.new) }
    {
        self.settle(ops);
        self.note_before();
        self.edge();
        self.settle(ops);
        self.note_after();
    }

    /// Puts each register to its initial value. Memories stay.
    pub fn reset(&mut self)
        ensures { simulation_of self.new ≡ record (simulation_of self.old) { state = simulation.reset (simulation_of self.old).tree (simulation_of self.old).state } }
    {
        self.machine();
        self.restart();
    }

    /// An output before the clock edge of the last cycle.
    pub fn before(&self, port: u32) -> Bits
        requires { port < length self.now.graph.ports.outputs }
        ensures { (p : Port) → slice_get self.now.graph.ports.outputs port ≡ Some p → result ≡ record { width = p.width; value = slice_index (simulation_of self.now).before port } }
    {
        let outputs = self.before.as_slice();
        outputs[port as usize]
    }

    /// An output after the clock edge of the last cycle.
    pub fn after(&self, port: u32) -> Bits
        requires { port < length self.now.graph.ports.outputs }
        ensures { (p : Port) → slice_get self.now.graph.ports.outputs port ≡ Some p → result ≡ record { width = p.width; value = slice_index (simulation_of self.now).after port } }
    {
        let outputs = self.after.as_slice();
        outputs[port as usize]
    }

    /// It runs a whole tree without a combinational loop, in a state of that tree.
    pub fn lawful(&self)
        ensures { IsSimulation (simulation_of self.now) }
    {
        self.machine();
    }
}
