//! The rules that each circuit of a design meets: it has outputs, few enough ports, and a driver for each wire that the
//! outputs reach.
#![tactic(auto)]

mod laws;
mod rules;
mod undriven;

pub use laws::one_verdict;
pub use rules::{CheckStop, check};
