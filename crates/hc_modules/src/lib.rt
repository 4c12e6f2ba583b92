//! The Verilog of a hierarchy: one module for each entry that its top uses.
#![tactic(auto)]

mod exist_laws;
mod hierarchy;
mod laws;

pub use exist_laws::hierarchies_have_texts;
pub use hierarchy::verilog;
pub use laws::{alike_calls_have_one_text, texts_are_of_trees, texts_are_single};
