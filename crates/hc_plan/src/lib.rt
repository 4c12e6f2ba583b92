//! The distinct calls of a design, each with its body, or the first fault that the tree of calls shows.
#![tactic(auto)]

mod answer_laws;
mod call_laws;
mod called_laws;
mod deep;
mod depth_first;
mod ending;
mod height_laws;
mod hierarchy;
pub mod kinds;
mod laws;
mod lookup;
mod reached_laws;
mod rows;
mod step;
mod sums;
mod whole_laws;

pub use answer_laws::designs_have_answers;
pub use call_laws::elaborated_calls_are_lawful;
pub use called_laws::{calls_stand_for_calls, entries_are_called};
pub use depth_first::plan;
pub use ending::conclude;
pub use height_laws::kids_are_lower;
pub use hierarchy::hier_of;
pub use laws::{
    calls_are_not_below_themselves, calls_met_again, deep_calls_stop, designs_elaborate_once,
    distinct_calls_decide, elaborated_trees, equal_calls_are_alike, loops_come_first, plans_decide,
    plans_elaborate, rows_add_up, tree_faults_are_single, walks_are_finishes,
};
pub use reached_laws::reached_trees_are_called;
pub use step::{Step, form_of};
pub use sums::Sums;
pub use whole_laws::{
    elaborated_calls_are_closed, elaborated_circuits_are_checked, elaborated_trees_are_light,
    elaborated_trees_are_whole,
};
