//! Circuits as graphs of signals.
#![tactic(auto)]

mod builder;
mod circuit;
mod rules;
mod signal;
mod stop;

pub use builder::Builder;
pub use circuit::Circuit;
pub use signal::{
    Ids, InstId, Instance, MemId, Memory, Node, NodeId, NodeRow, Op2, Port, Ports, WritePort,
};
pub use stop::BuildStop;
