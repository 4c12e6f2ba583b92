//! Simulation of a circuit without instances: the values of all nodes, cycle after cycle.
#![tactic(auto)]

mod compute;
mod edges;
mod flat;
mod inputs;
mod known;
mod machine;
mod make;
mod operands;
mod plan;
mod settle;
mod words;

pub use flat::FlatSim;
