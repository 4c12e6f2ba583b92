//! What a simulator makes for an entry: its sites fit, and stand for the entry's unfolding.
#![tactic(auto)]

mod laws;

pub use laws::{made_sites_fit, made_sites_settle, made_sites_show};
