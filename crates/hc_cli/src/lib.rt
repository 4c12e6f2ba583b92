//! The top call: words and an input in, a status, the bytes that are due and their history out.
#![tactic(auto)]

mod due_laws;
mod elaborated;
mod ending;
mod fault_line;
mod histories;
mod many;
mod one;
mod prepared;
mod read;

pub use due_laws::{one_due, something_is_due};
pub use ending::Outcome;
pub use fault_line::write_fault;
pub use hc_words::{Job, Verb, WordStop, read_words};
pub use hc_workload::generate;
pub use many::run;
pub use one::run_one;
