//! What is known before a step. A spot is a hint: it is looked at, and not believed.
ghost use Rattle.std.specs.Prelude.{◌≡◌, ◌<◌, true, ℕ, IsBitSet};
ghost use Rattle.hc_steps.specs.Plan.{IsBefore, NeedsInput, made};
ghost use Rattle.hc_steps.specs.Views.{IsKnownAt, fact_view};
ghost use Rattle.hc_signal.specs.Graph.{Graph};

use hc_signal::{Circuit, Node, NodeId};
use hc_steps::{Fact, Part, Spot, gives, is_bit, part_at, row_at, spot_of};

/// Whether each bit of a mask is one of the other's.
fn is_within(mask: u128, other: u128) -> bool
    ensures { result ≡ true → (k : ℕ) → IsBitSet mask k → IsBitSet other k }
{
    if mask & other == mask {
        return true;
    }
    false
}

/// Whether a bit of a mask is 0.
pub(crate) fn is_clear(mask: u128, k: u32) -> bool
    requires { k < 128 }
    ensures { result ≡ true → ¬ IsBitSet mask k }
{
    if mask & (1 << k) == 0 {
        return true;
    }
    false
}

/// Whether a mask has a bit that another has not.
fn is_beyond(mask: u128, other: u128) -> bool
    ensures { result ≡ true → ¬ ((k : ℕ) → IsBitSet mask k → IsBitSet other k) }
{
    let k = (mask & !other).trailing_zeros();
    if k < 128 {
        if is_bit(mask, k) {
            if is_clear(other, k) {
                return true;
            }
        }
    }
    false
}

/// Whether one part does not come before another.
pub(crate) fn is_apart(parts: &[Part], part: u32, other: u32) -> bool
    ensures { result ≡ true → ¬ IsBefore parts.now part other }
{
    let Some(own) = part_at(parts, part) else {
        return false;
    };
    let Some(it) = part_at(parts, other) else {
        return false;
    };
    is_beyond(it.needs(), own.needs())
}

/// Whether one part comes before another wherever that is run.
pub(crate) fn is_before(parts: &[Part], part: u32, other: u32) -> bool
    ensures { result ≡ true → IsBefore parts.now part other }
{
    let Some(own) = part_at(parts, part) else {
        return false;
    };
    let Some(it) = part_at(parts, other) else {
        return false;
    };
    if other >= part {
        return false;
    }
    is_within(it.needs(), own.needs())
}

/// Whether this is known before a step.
pub(crate) fn is_known(parts: &[Part], at: Spot, spot: Spot, fact: Fact) -> bool
    ensures { result ≡ true → (g : Graph) → IsKnownAt g parts.now at.part at.step (fact_view fact) }
{
    if gives(parts, spot, fact) {
        if spot.part == at.part {
            if spot.step < at.step {
                return true;
            }
        } else if is_before(parts, at.part, spot.part) {
            return true;
        }
    }
    false
}

/// Whether a part needs an input.
pub(crate) fn is_needed(parts: &[Part], part: u32, port: u32) -> bool
    ensures { result ≡ true → NeedsInput parts.now part port }
{
    let Some(it) = part_at(parts, part) else {
        return false;
    };
    is_bit(it.needs(), port)
}

/// Whether the number of a node is known before a step.
pub(crate) fn is_node_known(
    circuit: &Circuit,
    parts: &[Part],
    spots: &[Spot],
    at: Spot,
    id: NodeId,
) -> bool
    ensures { result ≡ true → IsKnownAt circuit.now parts.now at.part at.step (made id.0) }
{
    let Some(row) = row_at(circuit, id) else {
        return false;
    };
    match &row.node {
        Node::Const { .. } => true,
        Node::Input { port } => is_needed(parts, at.part, *port),
        _ => is_known(parts, at, spot_of(spots, id), Fact::Made(id)),
    }
}
