//! Bytes for a sink. They wait in a buffer, so that the sink is called seldom.
ghost use Rattle.std.specs.Prelude.{◌≡◌, [], flat_map, OnOk};
ghost use Rattle.hc_bench.specs.Queued.{IsQueued};
ghost use Rattle.hc_bench.specs.Sent.{IsSent};

use crate::buffer::{CAPACITY, WriteBuffer};
use hc_outside::{Failed, Sink, write_all};

/// Writes all bytes that wait.
pub(crate) fn flush<K: Sink>(to: &mut K, waiting: &mut WriteBuffer) -> Result<(), Failed>
    ensures sent { IsSent (K.taken to.old) (K.taken to.new) (K.faults to.old) (K.faults to.new) result waiting.old }
    ensures empty { OnOk result (waiting.new ≡ []) }
{
    write_all(to, waiting.as_slice())?;
    waiting.clear();
    Ok(())
}

/// Adds bytes to those that wait. Where they do not fit, those that wait are written first, and so are the bytes where
/// they are more than the buffer holds.
pub(crate) fn write<K: Sink>(
    to: &mut K,
    waiting: &mut WriteBuffer,
    bytes: &[u8],
) -> Result<(), Failed>
    ensures { IsQueued (K.taken to.old) (K.taken to.new) (K.faults to.old) (K.faults to.new) waiting.old waiting.new result bytes.now }
{
    if bytes.len() <= waiting.room() {
        waiting.push(bytes);
        return Ok(());
    }
    flush(to, waiting)?;
    if bytes.len() <= CAPACITY {
        waiting.push(bytes);
        return Ok(());
    }
    write_all(to, bytes)
}

/// Writes pieces one after another.
pub(crate) fn write_pieces<K: Sink>(
    to: &mut K,
    waiting: &mut WriteBuffer,
    pieces: &[&[u8]],
) -> Result<(), Failed>
    ensures { IsQueued (K.taken to.old) (K.taken to.new) (K.faults to.old) (K.faults to.new) waiting.old waiting.new result (flat_map (λ p. p.now) pieces.now) }
{
    'pieces: for piece in pieces {
        write(to, waiting, piece)?;
    }
    Ok(())
}
