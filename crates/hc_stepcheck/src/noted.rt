//! Whether the spots of a plan tell of each node the only part that computes it.
ghost use Rattle.std.specs.Prelude.{◌≡◌, true, ℕ, Some, slice_get};
ghost use Rattle.hc_steps.specs.Compiled.{AreNoted, IsNoted};
ghost use Rattle.hc_stepcheck.specs.Checked.{AreStepsNoted, IsStepNoted};
ghost use Rattle.hc_steps.specs.Plan.{Step as StepOf, steps_at};
ghost use Rattle.hc_steps.specs.Views.{part_of, step_view};

use hc_signal::NodeId;
use hc_steps::{Plan, Spot, Step, count_parts, count_steps, spot_of, step_at};

/// Whether the spot of a node is in a part.
fn is_node_noted(plan: &Plan, part: u32, id: NodeId) -> bool
    ensures { result ≡ true → part ≡ part_of plan.now.spots id.0 }
{
    if part == spot_of(plan.spots(), id).part {
        return true;
    }
    false
}

/// Whether the spot of the node that a step computes is in a part.
fn is_step_noted(plan: &Plan, part: u32, step: Step) -> bool
    ensures { result ≡ true → IsStepNoted plan.now part (step_view step) }
{
    match step {
        Step::Make { node } => is_node_noted(plan, part, node),
        Step::Take {
            node,
            inst: _,
            port: _,
        } => is_node_noted(plan, part, node),
        Step::Pass { .. } | Step::Run { .. } => true,
    }
}

/// The same of the step at a spot.
fn is_noted_at(plan: &Plan, at: Spot) -> bool
    ensures { result ≡ true → (step : StepOf) → slice_get (steps_at plan.now.parts at.part) at.step ≡ Some step → IsStepNoted plan.now at.part step }
{
    let Some(step) = step_at(plan.parts(), at) else {
        return false;
    };
    is_step_noted(plan, at.part, step)
}

/// The same of all steps of a part.
fn are_steps_noted(plan: &Plan, part: u32) -> bool
    ensures { result ≡ true → AreStepsNoted plan.now part }
{
    let Some(count) = count_steps(plan.parts(), part) else {
        return false;
    };
    'steps: for s in 0..count {
        if is_noted_at(plan, Spot { part, step: s }) {} else {
            return false;
        }
    }
    true
}

/// The same of all steps.
pub(crate) fn is_noted(plan: &Plan) -> bool
    ensures { result ≡ true → IsNoted plan.now }
{
    let Some(count) = count_parts(plan.parts()) else {
        return false;
    };
    'each: for j in 0..count {
        if are_steps_noted(plan, j) {} else {
            return false;
        }
    }
    true
}

/// Whether the spots of each plan tell of each node the only part that computes it.
pub fn are_noted(plans: &[Plan]) -> bool
    ensures { result ≡ true → AreNoted plans.now }
{
    'each: for plan in plans {
        if is_noted(plan) {} else {
            return false;
        }
    }
    true
}
