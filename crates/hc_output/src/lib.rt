//! What each command writes for an elaborated design: prepared with its memory, then written.
#![tactic(auto)]

mod digests;
mod flat;
mod flat_laws;
mod kinds;
mod laws;
mod make;
mod modules;
mod send;
mod vec_sink;
mod verilog_laws;

pub use flat_laws::flat_texts_exist;
pub use kinds::Output;
pub use laws::outputs_are_single;
pub use make::prepare_output;
pub use send::{SendStop, write_output};
pub use verilog_laws::verilog_texts_exist;
