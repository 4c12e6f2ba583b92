//! Clock edges and resets of all instances of a hierarchy, in rows: an instance that has moved is stepped, and where its
//! registers or words change, what reads them is woken.
#![tactic(auto)]

mod clocked;
mod contents;
mod edges;
mod instance;
mod laws;
mod resets;
mod rows;
mod waking;

pub use clocked::Clocked;
pub use contents::Contents;
pub use edges::edge;
pub use laws::{edges_keep_marks, settling_keeps_rest};
pub use resets::reset;
