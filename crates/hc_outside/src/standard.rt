ghost use Rattle.std.specs.Prelude.{◌≡◌, ◌<◌, length};
ghost use Rattle.hc_outside.specs.Causes.{HasCause, CountsFailure};
ghost use Rattle.hc_outside.specs.Moves.{Reads, Writes};

use crate::count::raised;
use crate::traits::{Failed, Sink, Source};
use std::io::{Read, Write};
use std::marker::Model;

/// A reader of std as a source. It tells the bytes that are left where the reader does; standard input tells none.
#[derive(Drop)]
pub struct StdSource<I> {
    inner: I,
    faults: u64,
}

impl<I> Model for StdSource<I> {
    ghost use Rattle.hc_outside.specs.Standard.{Counted, counted_code};

    ghost Value = { Counted I };

    ghost coded = { counted_code I.code };

    ghost view = { λ source. record { inner = source.inner; faults = source.faults } };
}

impl<I: Read> StdSource<I> {
    /// A source over this reader, with no faults so far.
    pub fn new(from: I) -> StdSource<I>
        ensures { result ≡ record { inner = from; faults = 0 } }
    {
        StdSource {
            inner: from,
            faults: 0,
        }
    }
}

impl<I: Read> Source for StdSource<I> {
    ghost left = { λ source. I.remaining source.inner };

    ghost faults = { λ source. source.faults };

    /// Reads once. It fails where the reader does, and counts that.
    fn read(&mut self, buf: &mut [u8]) -> Result<usize, Failed>
        requires { 0 < length buf.old }
        ensures bytes { Reads (I.remaining self.old.inner) (I.remaining self.new.inner) result buf.new }
        ensures cause { HasCause self.old.faults self.new.faults result }
        ensures count { CountsFailure self.old.faults self.new.faults result }
    {
        match self.inner.read(buf) {
            Ok(count) => Ok(count),
            Err(_) => {
                self.faults = raised(self.faults);
                Err(Failed)
            }
        }
    }
}

/// A writer of std as a sink. It tells the bytes that were taken where the writer does; standard output tells none.
#[derive(Drop)]
pub struct StdSink<O> {
    inner: O,
    faults: u64,
}

impl<O> Model for StdSink<O> {
    ghost use Rattle.hc_outside.specs.Standard.{Counted, counted_code};

    ghost Value = { Counted O };

    ghost coded = { counted_code O.code };

    ghost view = { λ sink. record { inner = sink.inner; faults = sink.faults } };
}

impl<O: Write> StdSink<O> {
    /// A sink over this writer, with no faults so far.
    pub fn new(to: O) -> StdSink<O>
        ensures { result ≡ record { inner = to; faults = 0 } }
    {
        StdSink {
            inner: to,
            faults: 0,
        }
    }
}

impl<O: Write> Sink for StdSink<O> {
    ghost taken = { λ sink. O.contents sink.inner };

    ghost faults = { λ sink. sink.faults };

    /// Writes once. It fails where the writer does or takes nothing, and counts that.
    fn write(&mut self, piece: &[u8]) -> Result<usize, Failed>
        requires { 0 < length piece.now }
        ensures bytes { Writes (O.contents self.old.inner) (O.contents self.new.inner) result piece.now }
        ensures cause { HasCause self.old.faults self.new.faults result }
        ensures count { CountsFailure self.old.faults self.new.faults result }
    {
        match self.inner.write(piece) {
            Ok(count) if count > 0 => Ok(count),
            _ => {
                self.faults = raised(self.faults);
                Err(Failed)
            }
        }
    }
}
