//! Sequential elaboration of a design.
#![tactic(auto)]

mod elab;

pub use elab::elab_one;
