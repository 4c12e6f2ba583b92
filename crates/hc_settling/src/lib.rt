//! How the numbers of a hierarchy settle: what is known of each instance, which parts are marked to be run again, and walks along
//! the parts that are.
#![tactic(auto)]

mod compiled;
mod knowing;
mod marking;
mod walking;

pub use compiled::{compiled_entries_plan_their_unfolding, unfoldings_are_of_entries};
pub use knowing::{known_tops_settle, steps_make_known, unmarked_parts_are_right};
pub use marking::{changes_keep_marks, puts_keep_marks, tables_name_all_readers};
pub use walking::{settlings_settle, walks_are_sound};
