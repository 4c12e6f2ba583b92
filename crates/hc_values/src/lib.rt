//! One circuit's numbers and next state, over slices: the value of a node, the clock edge and the reset, wherever in a
//! hierarchy the circuit stands.
#![tactic(auto)]

mod compute;
mod memories;
mod operands;
mod registers;
mod step;
mod value;
mod words;
mod zeros;

pub use memories::step_memories;
pub use registers::{reset_registers, step_registers};
pub use step::{Make, Step, step_of};
pub use value::value_of;
pub use words::{Words, zero};
pub use zeros::{zeros_of_memories, zeros_of_nodes};
