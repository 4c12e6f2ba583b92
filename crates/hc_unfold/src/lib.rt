//! Signals of the design text as nodes of a circuit: names, the primitives, and the calls that unfold to several nodes.
#![tactic(auto)]

mod calls;
mod derived;
pub mod form_laws;
mod names;
mod outputs;
mod places;
mod primitives;
mod shifts;
mod signals;
mod widths;

pub use names::{Key, Names, Target};
pub use outputs::port_place;
pub use places::{key, numbers};
pub use primitives::has_room;
pub use signals::draw;
pub use widths::as_width;
