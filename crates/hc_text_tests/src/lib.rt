//! Tests of the crates that read a text: tokens, lines, the whole text, numbers and bodies, through their public calls.
#![tactic(auto)]

#[cfg(test)]
mod body;
#[cfg(test)]
mod lang;
#[cfg(test)]
mod lines;
#[cfg(test)]
mod num;
#[cfg(test)]
mod shared;
#[cfg(test)]
mod tokens;
#[cfg(test)]
mod workload;
