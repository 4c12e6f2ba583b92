//! The circuit without instances that does what a hierarchy does.
#![tactic(auto)]

mod flat_laws;
mod flattening;
mod layout;
mod place;
mod size;

pub use flat_laws::flat_graphs_exist;
pub use flattening::flatten;
