//! Steps, and what each makes known.
ghost use Rattle.std.specs.Prelude.{◌≡◌, map};
ghost use Rattle.hc_steps.specs.Views.{fact_view, step_view};
ghost use Rattle.hc_steps.specs.Plan.{fact};

use hc_signal::{InstId, NodeId};
use std::mem::size_of;

/// A step of a part, by numbers alone.
#[derive(Clone, Copy, Debug, PartialEq, Eq)]
pub enum Step {
    /// The number of a node of the circuit itself, from those of its operands, its register or its memory.
    Make {
        node: NodeId,
    },
    /// The number of a node that is an output of an instance, from the instance.
    Take {
        node: NodeId,
        inst: InstId,
        port: u32,
    },
    /// The number of a connection, to the input of its instance.
    Pass {
        node: NodeId,
        inst: InstId,
        port: u32,
    },
    /// A part of an instance.
    Run {
        inst: InstId,
        part: u32,
    },
}

// small, since each settling reads all steps
const _: () = prove!(size_of::<Step>() <= 16);

/// What a step makes known.
#[derive(Clone, Copy, Debug, PartialEq, Eq)]
pub enum Fact {
    /// The number of a node.
    Made(NodeId),
    /// The input of an instance.
    Passed(InstId, u32),
    /// A part of an instance.
    Ran(InstId, u32),
}

/// What a step makes known.
pub fn fact_of(step: Step) -> Fact
    ensures { fact_view result ≡ fact (step_view step) }
{
    match step {
        Step::Make { node } => Fact::Made(node),
        Step::Take {
            node,
            inst: _,
            port: _,
        } => Fact::Made(node),
        Step::Pass {
            node: _,
            inst,
            port,
        } => Fact::Passed(inst, port),
        Step::Run { inst, part } => Fact::Ran(inst, part),
    }
}
