//! Sources and sinks of bytes that count their faults, and reading and writing all.
#![tactic(auto)]

mod all;
mod count;
mod memory;
mod standard;
mod traits;

pub use all::{ReadStop, read_all, write_all};
pub use memory::{MemSink, MemSource};
pub use standard::{StdSink, StdSource};
pub use traits::{Failed, Sink, Source};
