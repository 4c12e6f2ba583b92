//! The depth-first walk from the outputs of a circuit.
#![tactic(auto)]

mod depth_first;
mod laws;
mod marks;
mod vertex;
mod waiting;

pub use depth_first::walk;
pub use laws::one_walk;
pub use vertex::VertexId;
