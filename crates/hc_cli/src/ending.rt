//! How a run ends.
ghost use Rattle.std.specs.Prelude.{◌≡◌, IsErrOf, OnOk};
ghost use Rattle.hc_cli.specs.Clauses.{history_of};
ghost use Rattle.hc_cli.specs.Histories.{no_history};
ghost use Rattle.hc_cli.specs.Prepared.{history_in, kept, status_of};
ghost use Rattle.hc_output.specs.declared.send.SendStop.TheVariants as sent_stop;

use crate::prepared::{Kept, Prepared};
use hc_canon::Form;
use hc_dbstate::Turn;
use hc_output::SendStop;
use std::alloc::Global;

/// How a run ended. The statuses: 0 what the command asks for was written; 1 the text has a fault, and its line was written;
/// 2 the words were refused, and the usage line was written; 3 the source failed; 4 the sink failed; 5 want of memory. The
/// turns and the entries are those of an elaboration without a fault: a turn for each distinct call, with its entry. Both are
/// empty where there is none, and at 3 and 5.
#[derive(Drop)]
pub struct Outcome {
    pub status: u8,
    pub turns: Vec<Turn>,
    pub entries: Vec<Form>,
}

/// An end that hands out no history.
pub(crate) fn empty(alloc: Global, status: u8) -> Outcome
    ensures status { result.status ≡ status }
    ensures history { history_of result ≡ no_history }
{
    Outcome {
        status,
        turns: Vec::new(alloc),
        entries: Vec::new(alloc),
    }
}

/// An end that hands out this history.
fn with_history(status: u8, kept: Kept) -> Outcome
    ensures status { result.status ≡ status }
    ensures history { history_of result ≡ history_in kept }
{
    Outcome {
        status,
        turns: kept.turns,
        entries: kept.entries,
    }
}

/// The end that was prepared.
pub(crate) fn ended(alloc: Global, prepared: Prepared) -> Outcome
    ensures status { result.status ≡ status_of prepared }
    ensures history { history_of result ≡ kept prepared }
{
    match prepared {
        Prepared::Refusal => empty(alloc, 2),
        Prepared::Told(_) => empty(alloc, 1),
        Prepared::BenchTold(_, kept) => with_history(1, kept),
        Prepared::Whole(_, kept) => with_history(0, kept),
    }
}

/// The end after the write: status 4 where the sink failed, and 5 at want of memory.
pub(crate) fn finished(alloc: Global, sent: Result<(), SendStop>, outcome: Outcome) -> Outcome
    ensures sent { OnOk sent (result.status ≡ outcome.status) }
    ensures failed { IsErrOf sent sent_stop.Failed → result.status ≡ 4 }
    ensures memory { IsErrOf sent sent_stop.NoMemory → (result.status ≡ 5) × (history_of result ≡ no_history) }
    ensures history { (IsErrOf sent sent_stop.NoMemory → ⊥) → history_of result ≡ history_of outcome }
{
    match sent {
        Ok(()) => outcome,
        Err(SendStop::Failed) => Outcome {
            status: 4,
            ..outcome
        },
        Err(SendStop::NoMemory) => empty(alloc, 5),
    }
}
