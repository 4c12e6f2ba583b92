//! Whether a draft is a plan: each step may come where it stands, all that is reached has a step, and the tables name all
//! who read.
#![tactic(auto)]

mod check;
mod cover;
mod hints;
mod known;
mod listed;
mod noted;
mod operands;
mod ready;
mod site;

pub use check::is_compiled;
pub use noted::are_noted;
pub use site::Site;
