//! Tests of compiled plans, through the public calls.
#![tactic(auto)]

#[cfg(test)]
mod designs;
