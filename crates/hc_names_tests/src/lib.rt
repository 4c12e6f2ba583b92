//! Tests of names and of the text of a module, through their public calls.
#![tactic(auto)]

#[cfg(test)]
mod names;
#[cfg(test)]
mod verilog;
