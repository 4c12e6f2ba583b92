//! The instances of an entry's unfolding, by numbers.
#![tactic(auto)]

mod laws;
mod layout;
mod up;

pub use laws::{instances_have_places, kids_stand_behind, places_are_apart, runs_lead_up};
pub use layout::Layout;
pub use up::runners;
