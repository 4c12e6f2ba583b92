//! What is written at the end, and what is handed out beside.
ghost use Rattle.std.specs.Prelude.{◌≡◌, List, ℕ, IsErr, IsErrOf, IsOk, OnErr, OnOk};
ghost use Rattle.std.specs.Io.KnownBytes.{Appends, Keeps};
ghost use Rattle.hc_outside.specs.Causes.{Rose};
ghost use Rattle.hc_outside.specs.Moves.{AppendsFront};
ghost use Rattle.hc_output.specs.declared.send.SendStop.TheVariants as stop;
ghost use Rattle.hc_cli.specs.Prepared.{CanSend, IsOutOf, history_in};

use crate::fault_line::write_fault;
use hc_canon::Form;
use hc_dbstate::{DbState, Turn};
use hc_fault::Fault;
use hc_ops::OpTable;
use hc_output::{Output, SendStop, write_output};
use hc_outside::{Failed, Sink, write_all};
use std::alloc::Global;

/// The history of an elaboration.
#[derive(Drop)]
pub(crate) struct Kept {
    pub(crate) turns: Vec<Turn>,
    pub(crate) entries: Vec<Form>,
}

/// How a run will end, with all memory taken but a simulator's.
#[derive(Drop)]
pub(crate) enum Prepared {
    /// The words are refused.
    Refusal,
    /// The text or its elaboration has a fault.
    Told(Fault),
    /// The bench of an elaborated design has a fault.
    BenchTold(Fault, Kept),
    /// The command has something to write.
    Whole(Output, Kept),
}

const USAGE: &str = "usage: hardcaml COMMAND [--workers N] [--flat] [--seed N]\n";

/// The history of a database.
pub(crate) fn kept_of(db: DbState) -> Kept
    ensures { history_in result ≡ db }
{
    let (entries, turns) = db.into_parts();
    Kept { turns, entries }
}

/// Tells a failure of the sink.
fn stopped(sent: Result<(), Failed>) -> Result<(), SendStop>
    ensures ok { OnOk result (IsOk sent) }
    ensures failed { OnErr result (IsErr sent) }
    ensures kind { IsErrOf result stop.NoMemory → ⊥ }
{
    match sent {
        Ok(()) => Ok(()),
        Err(_) => Err(SendStop::Failed),
    }
}

/// Writes what was prepared.
pub(crate) fn send<K: Sink>(
    alloc: Global,
    ops: &OpTable,
    prepared: &Prepared,
    to: &mut K,
) -> Result<(), SendStop>
    requires { CanSend prepared.now }
    ensures all { (out : List ℕ) → IsOutOf prepared.now out → OnOk result (Appends (K.taken to.old) (K.taken to.new) out) }
    ensures front { (out : List ℕ) → IsOutOf prepared.now out → IsErrOf result stop.Failed → AppendsFront (K.taken to.old) (K.taken to.new) out }
    ensures cause { IsErrOf result stop.Failed → Rose (K.faults to.old) (K.faults to.new) }
    ensures memory { IsErrOf result stop.NoMemory → Keeps (K.taken to.old) (K.taken to.new) }
{
    match prepared {
        Prepared::Refusal => stopped(write_all(to, USAGE.as_bytes())),
        Prepared::Told(fault) | Prepared::BenchTold(fault, _) => stopped(write_fault(fault, to)),
        Prepared::Whole(output, _) => write_output(alloc, ops, output, to),
    }
}
