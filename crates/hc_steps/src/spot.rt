//! Where steps stand.
ghost use Rattle.std.specs.Prelude.{◌≡◌};
ghost use Rattle.hc_steps.specs.Views.{part_of};

use hc_signal::NodeId;

/// The place of a step: its part, and its place there.
#[derive(Clone, Copy, Debug, PartialEq, Eq)]
pub struct Spot {
    pub part: u32,
    pub step: u32,
}

/// The spot of what has no step.
pub const NOWHERE: Spot = Spot {
    part: u32::MAX,
    step: u32::MAX,
};

/// The spot of the step that computes a node, as the list has it.
pub fn spot_of(spots: &[Spot], id: NodeId) -> Spot
    ensures { result.part ≡ part_of spots.now id.0 }
{
    match spots.get(id.0 as usize) {
        None => NOWHERE,
        Some(spot) => *spot,
    }
}
