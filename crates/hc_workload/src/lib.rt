//! The workload of a seed: a design text drawn by pseudo-random numbers, and the digest by which outputs are compared.
#![tactic(auto)]

mod digest;
mod draft;
mod leaves;
mod levels;
mod text;

pub use digest::digest_of;
pub use text::generate;
