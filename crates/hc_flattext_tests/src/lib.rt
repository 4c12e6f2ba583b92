//! A test of the one module of a flattened circuit, through its public call.
#![tactic(auto)]

#[cfg(test)]
mod flattext;
