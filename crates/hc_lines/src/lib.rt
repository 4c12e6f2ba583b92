//! The line grammar of the design text: each form of line with its tree.
#![tactic(auto)]

mod laws;
mod line;
mod tree;

pub use laws::lines_have_one_form;
pub use line::{Line, read_line};
pub use tree::{BenchValue, BenchWhat, Stmt, What};
