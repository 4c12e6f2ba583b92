//! The Verilog of a flattened circuit: one module.
#![tactic(auto)]

mod carried;
mod laws;
mod writing;

pub use carried::same_trees_flatten_alike;
pub use laws::{flat_graphs_are_isomorphic, flat_texts_are_single};
pub use writing::flat_text;
