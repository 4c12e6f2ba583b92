//! Rows of items in one flat list.
#![tactic(auto)]

mod rows;

pub use rows::Rows;
