//! Tests of the turn lock and of the shared database, with several threads.
#![tactic(auto)]

#[cfg(test)]
mod db;
#[cfg(test)]
mod turn;
