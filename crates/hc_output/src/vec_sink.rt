//! A sink in memory that grows.
ghost use Rattle.std.specs.Prelude.{◌≡◌, ◌<◌, [], length, Some};
ghost use Rattle.hc_outside.specs.Causes.{HasCause};
ghost use Rattle.hc_outside.specs.Moves.{Writes};

use hc_outside::{Failed, Sink};
use std::alloc::Global;

/// A sink that keeps all that it takes. It fails for want of memory alone.
#[derive(Drop)]
pub(crate) struct VecSink {
    pub(crate) bytes: Vec<u8>,
    faults: u64,
}

impl VecSink {
    /// A sink that has taken nothing.
    pub(crate) fn new(alloc: Global) -> VecSink
        ensures { result.bytes.items ≡ [] }
    {
        VecSink {
            bytes: Vec::new(alloc),
            faults: 0,
        }
    }
}

impl Sink for VecSink {
    ghost taken = { λ sink. Some sink.bytes.items };

    ghost faults = { λ sink. sink.faults };

    /// Takes the whole piece.
    fn write(&mut self, piece: &[u8]) -> Result<usize, Failed>
        requires { 0 < length piece.now }
        ensures bytes { Writes (Some self.old.bytes.items) (Some self.new.bytes.items) result piece.now }
        ensures cause { HasCause self.old.faults self.new.faults result }
    {
        match self.bytes.extend_from_slice(piece) {
            Ok(()) => Ok(piece.len()),
            Err(_) => {
                self.faults = self.faults.saturating_add(1);
                Err(Failed)
            }
        }
    }
}
