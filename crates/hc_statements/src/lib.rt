//! The heads and the plain statements of a circuit: what each adds to a body under way, or the first rule that it breaks.
#![tactic(auto)]

mod circuits;
mod faults;
pub mod form_laws;
mod heads;
mod instances;
pub mod kinds;
mod lines;
mod plain;
mod port_places;
mod state;
mod storage;
mod taken;

pub use circuits::circuit_place;
pub use faults::{refused_at, refused_inside};
pub use heads::{HeadStop, parameters, port_widths, ports};
pub use instances::InstStop;
pub use plain::statement;
pub use state::{Elaborating, nothing};
