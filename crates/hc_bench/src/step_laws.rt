ghost use Rattle.std.specs.Prelude.{◌≡◌, List, Ok};
ghost use Rattle.hc_bench.specs.Steps.{AreStepsFor, steps_of};
ghost use Rattle.hc_bench.specs.declared.kinds.Step.{Step};
ghost use Rattle.hc_lang.specs.declared.tree.Design.{Design};
ghost use Rattle.hc_signal.specs.Lawful.{ArePorts};
ghost use Rattle.hc_signal.specs.declared.signal.Ports.{Ports};

/// The steps of a bench are for the inputs of its top.
pub fn steps_are_for_the_inputs()
    ensures { (d : Design) (ports : Ports) (steps : List Step) → ArePorts ports → steps_of d ports ≡ Ok steps → AreStepsFor ports.inputs steps }
{}
