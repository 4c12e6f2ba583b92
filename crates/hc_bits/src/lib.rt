//! Bit vectors of 1 to 128 bits, their operators, and the catalogue of combinational operations.
#![tactic(auto)]

mod bits;
mod kind;

pub use bits::Bits;
pub use kind::{OpKind, bits_of};
