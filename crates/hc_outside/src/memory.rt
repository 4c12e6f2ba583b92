ghost use Rattle.std.specs.Prelude.{◌≡◌, ◌-◌, ◌<◌, ◌≤◌, ◌⊎◌, ◌↔◌, ◌++◌, [], length, min, take, drop, Some, IfOk, IsErr, OnErr, Contains};
ghost use Rattle.hc_outside.specs.Causes.{HasCause, raised};
ghost use Rattle.hc_outside.specs.Moves.{Reads, Writes};
ghost use Rattle.hc_outside.specs.Memory.{IsFull, free};

use crate::count::raised;
use crate::traits::{Failed, Sink, Source};
use hc_fault::NoMemory;
use std::alloc::Global;
use std::marker::Model;

/// A source in memory: it gives its bytes in order, at most `cut` of them a call, and fails at the calls it was told.
#[derive(Drop)]
pub struct MemSource {
    bytes: Vec<u8>,
    at: usize,
    failing: Vec<u64>,
    cut: usize,
    calls: u64,
    faults: u64,
}

impl Model for MemSource {
    ghost use Rattle.std.specs.Prelude.{◌≤◌, length, drop};
    ghost use Rattle.hc_outside.specs.Memory.{SourceView};

    ghost Value = { SourceView };

    ghost view = { λ source. record {
      left = drop source.at source.bytes.items;
      calls = source.calls;
      faults = source.faults;
      failing = source.failing.items;
      cut = source.cut;
    } };

    ghost invariant = { λ source. (source.at ≤ length source.bytes.items) × (1 ≤ source.cut) };
}

impl MemSource {
    /// A source of these bytes. The calls whose number, from 0, is in `failing` fail, and no call gives more than
    /// `cut` bytes, which is at least 1.
    pub fn new(bytes: Vec<u8>, failing: Vec<u64>, cut: usize) -> MemSource
        requires { 1 ≤ cut }
        ensures { result ≡ record {
          left = bytes.items;
          calls = 0;
          faults = 0;
          failing = failing.items;
          cut = cut;
        } }
    {
        MemSource {
            bytes,
            at: 0,
            failing,
            cut,
            calls: 0,
            faults: 0,
        }
    }
}

/// Copies the front of `from`, as much as fits and at most `most` bytes, and says how many.
fn copy_front(from: &[u8], to: &mut [u8], most: usize) -> usize
    requires room { 0 < length to.old }
    requires moves { 0 < most }
    ensures count { result ≡ min (min (length from.now) (length to.old)) most }
    ensures copied { to.new ≡ take result from.now ++ drop result to.old }

    // What a read of these bytes needs, which follows.
    ensures fits { result ≤ length to.new }
    ensures front { take result to.new ≡ take result from.now }
    ensures end { result ≡ 0 → drop result from.now ≡ [] }
{
    let count = from.len().min(to.len()).min(most);
    to[..count].copy_from_slice(&from[..count]);
    count
}

impl Source for MemSource {
    ghost left = { λ source. Some source.left };

    ghost faults = { λ source. source.faults };

    /// Gives the next bytes: all that are left, or as many as fit into `buf`, or `cut`, whichever is least. A call
    /// fails exactly where its number is in the list; it then takes no byte and leaves `buf` as it was.
    fn read(&mut self, buf: &mut [u8]) -> Result<usize, Failed>
        requires { 0 < length buf.old }
        ensures fails { IsErr result ↔ Contains self.old.failing self.old.calls }
        ensures count { IfOk result (λ n. n ≡ min (min (length self.old.left) (length buf.old)) self.old.cut) }
        ensures copied { IfOk result (λ n. buf.new ≡ take n self.old.left ++ drop n buf.old) }
        ensures ok { IfOk result (λ n. self.new ≡
            record self.old { left = drop n self.old.left; calls = raised self.old.calls }) }
        ensures err { OnErr result (self.new ≡
            record self.old { calls = raised self.old.calls; faults = raised self.old.faults }) }
        ensures untouched { OnErr result (buf.new ≡ buf.old) }

        // What each source ensures.
        ensures bytes { Reads (Some self.old.left) (Some self.new.left) result buf.new }
        ensures cause { HasCause self.old.faults self.new.faults result }
    {
        let fails = self.failing.contains(&self.calls);
        self.calls = raised(self.calls);
        if fails {
            self.faults = raised(self.faults);
            return Err(Failed);
        }
        let count = copy_front(&self.bytes[self.at..], buf, self.cut);
        self.at += count;
        Ok(count)
    }
}

/// A sink in memory: it takes bytes until its room is full, at most `cut` of them a call, and fails at the calls it
/// was told.
#[derive(Drop)]
pub struct MemSink {
    bytes: Vec<u8>,
    room: usize,
    failing: Vec<u64>,
    cut: usize,
    calls: u64,
    faults: u64,
}

impl Model for MemSink {
    ghost use Rattle.std.specs.Prelude.{◌≤◌, length, vec_capacity};
    ghost use Rattle.hc_outside.specs.Memory.{SinkView};

    ghost Value = { SinkView };

    ghost view = { λ sink. record {
      taken = sink.bytes.items;
      room = sink.room;
      calls = sink.calls;
      faults = sink.faults;
      failing = sink.failing.items;
      cut = sink.cut;
    } };

    ghost invariant = { λ sink. (length sink.bytes.items ≤ sink.room) × (sink.room ≤ vec_capacity sink.bytes) × (1 ≤ sink.cut) };
}

impl MemSink {
    /// A sink with room for `room` bytes, which are reserved here. The calls whose number, from 0, is in `failing`
    /// fail, and no call takes more than `cut` bytes, which is at least 1. It is refused only for want of memory.
    pub fn new(
        alloc: Global,
        room: usize,
        failing: Vec<u64>,
        cut: usize,
    ) -> Result<MemSink, NoMemory>
        requires { 1 ≤ cut }
        ensures { IfOk result (λ sink. sink ≡ record {
          taken = [];
          room = room;
          calls = 0;
          faults = 0;
          failing = failing.items;
          cut = cut;
        }) }
    {
        let bytes = Vec::with_capacity(alloc, room)?;
        Ok(MemSink {
            bytes,
            room,
            failing,
            cut,
            calls: 0,
            faults: 0,
        })
    }

    /// The bytes taken so far.
    pub fn bytes(&self) -> &[u8]
        ensures { result.now ≡ self.now.taken }
    {
        self.bytes.as_slice()
    }
}

impl Sink for MemSink {
    ghost taken = { λ sink. Some sink.taken };

    ghost faults = { λ sink. sink.faults };

    /// Takes the front of the piece: all of it, or as much as the room still holds, or `cut` bytes, whichever is
    /// least. A call fails exactly where its number is in the list or the room is full; it then takes nothing.
    fn write(&mut self, piece: &[u8]) -> Result<usize, Failed>
        requires { 0 < length piece.now }
        ensures fails { IsErr result ↔ (Contains self.old.failing self.old.calls ⊎ IsFull self.old) }
        ensures count { IfOk result (λ n. n ≡ min (min (length piece.now) (free self.old)) self.old.cut) }
        ensures ok { IfOk result (λ n. self.new ≡
            record self.old { taken = self.old.taken ++ take n piece.now; calls = raised self.old.calls }) }
        ensures err { OnErr result (self.new ≡
            record self.old { calls = raised self.old.calls; faults = raised self.old.faults }) }

        // What each sink ensures.
        ensures bytes { Writes (Some self.old.taken) (Some self.new.taken) result piece.now }
        ensures cause { HasCause self.old.faults self.new.faults result }
    {
        let fails = self.failing.contains(&self.calls);
        self.calls = raised(self.calls);
        let space = self.room - self.bytes.len();
        if fails || space == 0 {
            self.faults = raised(self.faults);
            return Err(Failed);
        }
        let count = piece.len().min(space).min(self.cut);
        self.bytes.extend_from_slice(&piece[..count]).unwrap();
        Ok(count)
    }
}
