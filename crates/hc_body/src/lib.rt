//! The body of a call: its text unrolled and drawn into a circuit, or its exact first fault.
#![tactic(auto)]

mod blocks;
mod finish;
pub mod kinds;
pub mod lawful_laws;
pub mod laws;
pub mod make;
mod open;
