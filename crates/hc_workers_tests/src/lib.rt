//! Tests of elaboration by many workers, over public calls alone.
#![tactic(auto)]

#[cfg(test)]
mod many;
