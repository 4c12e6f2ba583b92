//! The bench of a design: its steps, or the exact first fault of its lines; and the listing of a simulation that a bench
//! runs.
#![tactic(auto)]

mod buffer;
pub mod kinds;
mod lines;
mod listing;
pub mod make;
mod run;
mod sends;
mod sim;
mod step_laws;

pub use run::play;
pub use sim::Sim;
pub use step_laws::steps_are_for_the_inputs;
