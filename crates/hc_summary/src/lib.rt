//! The summary of an elaborated design: how many instances, entries, modules, rows and statements, words of memory and cycles
//! it has.
#![tactic(auto)]

mod counts;
mod exist_laws;
mod laws;
mod lines;

pub use counts::summary;
pub use exist_laws::summaries_exist;
pub use laws::summaries_are_single;
