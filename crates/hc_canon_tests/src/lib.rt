//! Tests of forms and of the state of a database, through their public calls.
#![tactic(auto)]

#[cfg(test)]
mod canon;
#[cfg(test)]
mod circuits;
#[cfg(test)]
mod dbstate;
#[cfg(test)]
mod shared;
