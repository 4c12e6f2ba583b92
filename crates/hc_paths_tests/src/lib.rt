//! Tests of the walk, of the check of a circuit and of its paths, through their public calls.
#![tactic(auto)]

#[cfg(test)]
mod check;
#[cfg(test)]
mod paths;
#[cfg(test)]
mod shared;
#[cfg(test)]
mod walk;
