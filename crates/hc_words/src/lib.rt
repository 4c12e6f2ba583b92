//! The words of the command line: the job that they ask for, read with clap.
#![tactic(auto)]

mod form;
mod job;
mod word_laws;

pub use job::{Job, Verb, WordStop, clap_command, one_job, read_words};
pub use word_laws::words_are_decided;
