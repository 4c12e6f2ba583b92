//! The registers and memories of all instances of an entry's unfolding, in rows.
#![tactic(auto)]

mod circuit_laws;
mod laws;
mod path_laws;
mod registers;
mod start_laws;
mod words;

pub use circuit_laws::{edges_of_circuits, resets_of_circuits, unfoldings_have_circuits};
pub use laws::{edges_of_rows, resets_of_rows, rows_are_states};
pub use path_laws::paths_are_places;
pub use registers::{initial_registers, registers_of};
pub use start_laws::{initial_rows_are_initial, registers_are_listed};
pub use words::{memories_of, zero_words};
