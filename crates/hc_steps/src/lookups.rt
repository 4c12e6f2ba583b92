//! Parts and steps by their places.
ghost use Rattle.std.specs.Prelude.{◌≡◌, true, Some, slice_get, length, IfSome};
ghost use Rattle.hc_steps.specs.Plan.{facts, steps_at};
ghost use Rattle.hc_steps.specs.Views.{fact_view, step_view};

use crate::part::Part;
use crate::spot::Spot;
use crate::step::{Fact, Step, fact_of};
use hc_signal::{Circuit, NodeId, NodeRow};

/// A part by its place.
pub fn part_at(parts: &[Part], part: u32) -> Option<&Part>
    ensures { IfSome result (λ it. slice_get parts.now part ≡ Some it.now) }
{
    parts.get(part as usize)
}

/// How many steps a part has.
pub fn count_steps(parts: &[Part], part: u32) -> Option<u32>
    ensures { IfSome result (λ n. n ≡ length (steps_at parts.now part)) }
{
    let it = part_at(parts, part)?;
    let len = it.steps().len();
    if len < u32::MAX as usize {
        Some(len as u32)
    } else {
        None
    }
}

/// How many parts there are.
pub fn count_parts(parts: &[Part]) -> Option<u32>
    ensures { IfSome result (λ n. n ≡ length parts.now) }
{
    let len = parts.len();
    if len < u32::MAX as usize {
        Some(len as u32)
    } else {
        None
    }
}

/// A row by its node.
pub fn row_at(circuit: &Circuit, id: NodeId) -> Option<&NodeRow>
    ensures { IfSome result (λ row. slice_get circuit.now.nodes id.0 ≡ Some row.now) }
{
    circuit.nodes().get(id.0 as usize)
}

/// The step at a spot.
pub fn step_at(parts: &[Part], spot: Spot) -> Option<Step>
    ensures { IfSome result (λ s. slice_get (steps_at parts.now spot.part) spot.step ≡ Some (step_view s)) }
{
    match parts.get(spot.part as usize) {
        None => None,
        Some(part) => part.steps().get(spot.step as usize).copied(),
    }
}

/// Whether the step at a spot makes this known.
pub fn gives(parts: &[Part], spot: Spot, fact: Fact) -> bool
    ensures { result ≡ true → slice_get (facts (steps_at parts.now spot.part)) spot.step ≡ Some (fact_view fact) }
{
    match step_at(parts, spot) {
        None => false,
        Some(step) => fact_of(step) == fact,
    }
}
