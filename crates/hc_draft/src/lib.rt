//! The draft of a plan. Nothing rests on it: plans are checked.
#![tactic(auto)]

mod draft;
mod laws;
mod masks;
mod needs;
mod readers;
mod through;
mod writer;

pub use draft::{draft_plan, no_plan};
pub use laws::{masks_within_come_first, needs_are_ordered, sweeps_order_needs};
pub use needs::{Moves, flag_at};
