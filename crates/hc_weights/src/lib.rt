//! The weight of circuits, and of the entries that an entry uses.
#![tactic(auto)]

mod circuits;
mod entries;

pub use circuits::circuit_weight;
pub use entries::used_weight;
