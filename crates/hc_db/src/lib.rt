//! The database of forms that threads share: each insertion takes one turn of its lock.
#![tactic(auto)]

mod db;
mod kept;
mod laws;

pub use db::{Db, Pass};
pub use kept::Kept;
pub use laws::{known_entries_are_there, known_entries_stay_known, known_turns_stay_known};
