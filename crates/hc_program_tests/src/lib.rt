//! Tests of the outside, the words, benches, elaboration and the top call, through their public calls.
#![tactic(auto)]

#[cfg(test)]
mod bench;
#[cfg(test)]
mod cli;
#[cfg(test)]
mod elab;
#[cfg(test)]
mod faults;
#[cfg(test)]
mod hostile;
#[cfg(test)]
mod many;
#[cfg(test)]
mod operations;
#[cfg(test)]
mod outside;
#[cfg(test)]
mod words;
