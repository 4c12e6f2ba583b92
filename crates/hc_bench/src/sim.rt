ghost use Rattle.std.specs.Prelude.{◌≡◌, ◌<◌, length, slice_get, slice_index, slice_set, Some};
ghost use Rattle.hc_signal.specs.Tree.{graph};
ghost use Rattle.hc_signal.specs.declared.signal.Port.{Port};
ghost use Rattle.hc_bench.specs.Simulation as simulation;
ghost use Rattle.hc_bench.specs.Steps.{IsPortValue};
ghost use Rattle.hc_bench.specs.Trace.{Simulation, IsSimulation, RunsCycle};

use hc_bits::Bits;

/// What runs a tree of circuits, cycle after cycle. No call takes memory.
pub trait Sim {
    /// The tree with its state and inputs, and the outputs before and after the last clock edge.
    ghost runs: { Self → Simulation };

    /// Each simulator runs a whole tree without a combinational loop, in a state of that tree.
    fn lawful(&self)
        ensures { IsSimulation (runs self.now) };

    /// Sets an input to a value of its width.
    fn set(&mut self, port: u32, value: Bits)
        requires { IsPortValue (graph (runs self.old).tree).ports.inputs port value }
        ensures { runs self.new ≡ record (runs self.old) { inputs = slice_set (runs self.old).inputs port value.value } };

    /// Runs one cycle: the values settle, the clock edge comes, and the values settle again.
    fn cycle(&mut self)
        ensures { RunsCycle (runs self.old) (runs self.new) };

    /// Puts each register to its initial value. Memories stay.
    fn reset(&mut self)
        ensures { runs self.new ≡ record (runs self.old) { state = simulation.reset (runs self.old).tree (runs self.old).state } };

    /// An output before the clock edge of the last cycle; 0 before the first one in a simulator that is at the start.
    fn before(&self, port: u32) -> Bits
        requires { port < length (graph (runs self.now).tree).ports.outputs }
        ensures { (p : Port) → slice_get (graph (runs self.now).tree).ports.outputs port ≡ Some p → result ≡ record { width = p.width; value = slice_index (runs self.now).before port } };

    /// An output after the clock edge of the last cycle; 0 before the first one in a simulator that is at the start.
    fn after(&self, port: u32) -> Bits
        requires { port < length (graph (runs self.now).tree).ports.outputs }
        ensures { (p : Port) → slice_get (graph (runs self.now).tree).ports.outputs port ≡ Some p → result ≡ record { width = p.width; value = slice_index (runs self.now).after port } };
}
