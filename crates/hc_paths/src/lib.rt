//! Combinational paths: which inputs each output of a circuit depends on in the same cycle, whether a path is closed, and
//! an order in which nodes can be computed.
#![tactic(auto)]

pub mod fanin;
pub mod kinds;
mod laws;
mod local;
pub mod make;
pub mod masks;
mod pile;
mod reached;
mod search;

pub use laws::{loops_and_masks_compose, loops_of_flat_nodes};
