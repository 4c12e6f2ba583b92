//! Elaboration of a design by many workers.
#![tactic(auto)]

mod elab;
mod finish;
mod gate;
mod halves;
mod levels;

pub use elab::elab_many;
pub use gate::{Gate, NoGate};
