//! The signal grammar of the design text: names, calls and their parts, with their trees.
#![tactic(auto)]

mod laws;
mod reading;
mod tree;

pub use laws::signals_are_read;
pub use reading::{ident, signal};
pub use tree::{CallWord, IdentText, Sig};
