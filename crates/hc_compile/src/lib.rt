//! The compiled plan of each entry that an entry uses: drafted, and then checked.
#![tactic(auto)]

mod all;
mod masks;

pub use all::compile_all;
pub use hc_steps::{Part, Plan, Spot, Step, crossings_have_plans, pushes_keep_ready};
