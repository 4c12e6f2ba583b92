ghost use Rattle.std.specs.Prelude.{◌≡◌, map};
ghost use Rattle.hc_steps.specs.Views.{step_view};

use crate::step::Step;
use std::marker::Model;

/// A part of a plan: steps that need these inputs of the circuit, bit k for input k, and what parts before it compute.
#[derive(Drop)]
pub struct Part {
    pub needs: u128,
    pub steps: Vec<Step>,
}

impl Model for Part {
    ghost use Rattle.std.specs.Prelude.{map};
    ghost use Rattle.hc_steps.specs.Views.{step_view};
    ghost use Rattle.hc_steps.specs.Plan.{Part as PartOf};

    ghost Value = { PartOf };

    ghost view = { λ part. record { needs = part.needs; steps = map step_view part.steps.items } };
}

impl Part {
    /// The inputs that the steps need, bit k for input k.
    pub fn needs(&self) -> u128
        ensures { result ≡ self.now.needs }
    {
        self.needs
    }

    /// The steps in their order.
    pub fn steps(&self) -> &[Step]
        ensures { map step_view result.now ≡ self.now.steps }
    {
        self.steps.as_slice()
    }
}
