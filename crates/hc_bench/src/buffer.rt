//! Bytes that wait to be written.
ghost use Rattle.std.specs.Prelude.{◌≡◌, ◌≤◌, ◌+◌, ◌++◌, [], length};

use std::marker::Model;

/// How many bytes wait at most.
pub(crate) const CAPACITY: usize = 4096;

/// Bytes that wait to be written, in their order.
#[derive(Drop)]
pub(crate) struct WriteBuffer {
    bytes: [u8; CAPACITY],
    len: usize,
}

impl Model for WriteBuffer {
    ghost use Rattle.std.specs.Prelude.{◌≤◌, ℕ, List, take};

    ghost Value = { List ℕ };

    ghost view = { λ buffer. take buffer.len buffer.bytes };

    ghost invariant = { λ buffer. buffer.len ≤ 4096 };
}

impl WriteBuffer {
    /// No byte waits.
    pub(crate) fn new() -> WriteBuffer
        ensures { result ≡ [] }
    {
        WriteBuffer {
            bytes: [0; CAPACITY],
            len: 0,
        }
    }

    /// How many bytes more fit.
    pub(crate) fn room(&self) -> usize
        ensures { result + length self.now ≡ 4096 }
    {
        CAPACITY - self.len
    }

    /// The bytes that wait.
    pub(crate) fn as_slice(&self) -> &[u8]
        ensures { result.now ≡ self.now }
    {
        self.bytes.split_at(self.len).0
    }

    /// Adds bytes at the end.
    pub(crate) fn push(&mut self, bytes: &[u8])
        requires { length self.old + length bytes.now ≤ 4096 }
        ensures { self.new ≡ self.old ++ bytes.now }
    {
        let end = self.len + bytes.len();
        self.bytes[self.len..end].copy_from_slice(bytes);
        self.len = end;
    }

    /// Forgets all bytes.
    pub(crate) fn clear(&mut self)
        ensures { self.new ≡ [] }
    {
        self.len = 0;
    }
}
