//! The names of what stands in a module: each apart from those given before.
#![tactic(auto)]

mod laws;
mod names;
mod naming;
mod nodes;
mod take_laws;

pub use laws::names_taken_are_single;
pub use names::{ModuleNames, is_marked};
pub use naming::take_names;
pub use nodes::{first_place, numbered_rows, output_marks};
pub use take_laws::names_can_be_taken;
