//! The database of forms: each entry once, and a turn for each insertion.
#![tactic(auto)]

mod database;
mod elaborations;
mod hier;
mod insert;
mod laws;
mod turn_laws;
mod turns;
mod used;

pub use database::DbState;
pub use elaborations::{
    elaborations_stay, elaborations_unfold_whole, made_calls_are_lawful, used_entries_are_called,
};
pub use hier::{Hier, walks_are_whole};
pub use laws::{
    entries_are_named, entries_grow_with_the_log, entries_keep_their_forms, entries_unfold_once,
    logs_name_entries, logs_replay, made_forms_tell_trees_apart, unfoldings_are_of_kids,
};
pub use turn_laws::{logs_have_the_turns, trees_have_one_entry};
pub use turns::{Entered, Turn};
pub use used::{is_marked, used_entries};
