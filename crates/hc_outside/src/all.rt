ghost use Rattle.std.specs.Prelude.{◌≤◌, vec_len, IfOk, IfErr, OnOk, OnErr, IsErrOf};
ghost use Rattle.std.specs.Io.KnownBytes.{Appends, IsAtEnd};
ghost use Rattle.hc_outside.specs.Causes.{HasCause, Rose};
ghost use Rattle.hc_outside.specs.Moves.{Holds, LongerThan, Gives, AppendsFront};
ghost use Rattle.hc_outside.specs.Stops.{StopsAfter};

use crate::traits::{Failed, Sink, Source};
use std::alloc::Global;

/// Why an input was not read to its end.
#[derive(Clone, Copy, Debug, PartialEq, Eq, Drop)]
pub enum ReadStop {
    /// A read failed.
    Fault,
    /// More bytes came than the limit allows.
    TooLong,
    /// Memory ran out.
    NoMemory,
}

/// All bytes that are left, read to the end, at most `limit` of them. It stops where a read fails, where more than
/// `limit` bytes were given, or where memory runs out; the bytes given so far are then gone.
pub fn read_all<S: Source>(alloc: Global, from: &mut S, limit: usize) -> Result<Vec<u8>, ReadStop>
    ensures all { IfOk result (λ bytes. Holds (S.left from.old) bytes.items) }
    ensures short { IfOk result (λ bytes. vec_len bytes ≤ limit) }
    ensures end { OnOk result (IsAtEnd (S.left from.new)) }

    ensures fault { IsErrOf result ReadStop.Fault → Rose (S.faults from.old) (S.faults from.new) }
    ensures long { IsErrOf result ReadStop.TooLong → LongerThan (S.left from.old) limit }
    ensures given { IfErr result (λ stop. Gives (S.left from.old) (S.left from.new) (StopsAfter stop limit)) }

    ensures never_falls { S.faults from.old ≤ S.faults from.new }
{
    let mut bytes = Vec::new(alloc);
    let mut chunk = [0u8; 4096];
    loop {
        let Ok(count) = from.read(&mut chunk) else {
            return Err(ReadStop::Fault);
        };
        if count == 0 {
            return Ok(bytes);
        }
        if bytes.extend_from_slice(&chunk[..count]).is_err() {
            return Err(ReadStop::NoMemory);
        }
        if bytes.len() > limit {
            return Err(ReadStop::TooLong);
        }
    }
}

/// Hands all bytes to the sink, in their order. It fails where a write fails, and a front of the bytes was taken then.
/// It takes no memory.
#[tactic(auto, using(crate::proofs::Sent::sent_none, crate::proofs::Sent::sent_more, crate::proofs::Sent::sent_kept, crate::proofs::Sent::sent_all))]
pub fn write_all<K: Sink>(to: &mut K, bytes: &[u8]) -> Result<(), Failed>
    ensures all { OnOk result (Appends (K.taken to.old) (K.taken to.new) bytes.now) }
    ensures front { OnErr result (AppendsFront (K.taken to.old) (K.taken to.new) bytes.now) }
    ensures cause { HasCause (K.faults to.old) (K.faults to.new) result }
{
    let mut rest = bytes;
    while !rest.is_empty() {
        let count = to.write(rest)?;
        rest = rest.split_at(count).1;
    }
    Ok(())
}
