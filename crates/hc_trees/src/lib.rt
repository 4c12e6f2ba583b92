//! Laws of trees that are the same, and of canonical circuits.
#![tactic(auto)]

mod canonical;
mod laws;

pub use canonical::canonical_rows_are_reached;
pub use laws::{same_trees_are_alike, same_trees_have_partners};
