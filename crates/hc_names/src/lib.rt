//! Names of modules and of what stands in a module: each apart from those given before.
#![tactic(auto)]

mod name_laws;
mod names;
mod naming;
mod used;

pub use name_laws::{calls_can_be_named, names_can_be_mangled};
pub use names::Names;
pub use naming::assign;
pub use used::{Used, names_are_single};
