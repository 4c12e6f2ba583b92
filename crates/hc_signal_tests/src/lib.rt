//! Tests of bit vectors, of rows and of the circuit builder, through their public calls.
#![tactic(auto)]

#[cfg(test)]
mod bits;
#[cfg(test)]
mod rows;
#[cfg(test)]
mod signal;
