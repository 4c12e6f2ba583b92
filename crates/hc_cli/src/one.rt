//! The top call by one worker.
ghost use Rattle.std.specs.Prelude.{◌≡◌, ◌≤◌, ◌⊎◌, IfOk, IsErrOf, OnOk, map, string_bytes, false, true};
ghost use Rattle.std.specs.Io.KnownBytes.{Keeps};
ghost use Rattle.hc_cli.specs.Clauses.{AskForInput, EndsInput, EndsRead, ForDue, IsCut, IsDone, IsDueOrNoMemory, IsLeftAlone, IsWritten, history_of};
ghost use Rattle.hc_cli.specs.Due.{reads_input};
ghost use Rattle.hc_cli.specs.Histories.{IsHistoryInOrder, no_history};
ghost use Rattle.hc_cli.specs.Prepared.{ServesDesign, ServesInput, ServesLeft};
ghost use Rattle.hc_cli.specs.declared.read.Stop.TheVariants as stop;
ghost use Rattle.hc_dbstate.specs.History.{IsLegal};
ghost use Rattle.hc_outside.specs.Causes.{Rose};

use crate::elaborated::{prepare_elaborated, told};
use crate::ending::{Outcome, empty, ended, finished};
use crate::histories::elaborations_have_histories;
use crate::prepared::{Prepared, send};
use crate::read::{Read, Stop, read_for};
use hc_dbstate::DbState;
use hc_elab::elab_one;
use hc_fault::NoMemory;
use hc_lang::Design;
use hc_ops::OpTable;
use hc_outside::{Sink, Source};
use hc_words::{Job, WordStop, one_job, read_words};
use std::alloc::Global;

/// What is prepared for a design.
fn prepare_design(alloc: Global, job: &Job, design: &Design) -> Result<Prepared, NoMemory>
    ensures { IfOk result (ServesDesign IsHistoryInOrder job.now design.now) }
{
    let mut db = DbState::new(alloc);
    match elab_one(alloc, design, &mut db) {
        Ok(hier) => {
            elaborations_have_histories();
            db.legal();
            prepare_elaborated(alloc, job, design, db, &hier)
        }
        Err(refused) => told(refused),
    }
}

/// Reads the text of the job, and prepares what is due for it.
fn prepare_text<S: Source>(alloc: Global, job: &Job, input: &mut S) -> Result<Prepared, Stop>
    ensures due { IfOk result (ServesInput IsHistoryInOrder job.now (S.left input.old)) }
    ensures fault { IsErrOf result stop.Fault → (reads_input job.now.verb ≡ true) × Rose (S.faults input.old) (S.faults input.new) }
    ensures end { reads_input job.now.verb ≡ true → OnOk result (EndsInput (S.left input.old) (S.left input.new)) }
    ensures alone { reads_input job.now.verb ≡ false → IsLeftAlone (S.left input.old) (S.left input.new) (S.faults input.old) (S.faults input.new) }
{
    match read_for(alloc, job, input) {
        Ok(Read::Parsed(design)) => match prepare_design(alloc, job, &design) {
            Ok(prepared) => Ok(prepared),
            Err(NoMemory) => Err(Stop::NoMemory),
        },
        Ok(Read::Faulty(fault)) => Ok(Prepared::Told(fault)),
        Err(stop) => Err(stop),
    }
}

/// Reads the words and then the text of their job, and prepares what is due.
fn prepare<S: Source>(alloc: Global, words: &[String], input: &mut S) -> Result<Prepared, Stop>
    ensures due { IfOk result (ServesLeft IsHistoryInOrder (map string_bytes words.now) (S.left input.old)) }
    ensures fault { IsErrOf result stop.Fault → AskForInput (map string_bytes words.now) × Rose (S.faults input.old) (S.faults input.new) }
    ensures alone { ¬ AskForInput (map string_bytes words.now) → IsLeftAlone (S.left input.old) (S.left input.new) (S.faults input.old) (S.faults input.new) }
    ensures end { OnOk result (EndsRead (map string_bytes words.now) (S.left input.old) (S.left input.new)) }
{
    one_job();
    match read_words(alloc, words) {
        Ok(job) => prepare_text(alloc, &job, input),
        Err(WordStop::Words) => Ok(Prepared::Refusal),
        Err(WordStop::NoMemory) => Err(Stop::NoMemory),
    }
}

/// Reads the words and then the text of their job: all of the input, or for `gen` the workload of the seed. It writes what is
/// due for them. Refused words and `gen` leave the source alone. `ops` has the operations that the simulation calls. All memory
/// is taken before the first byte is written. It returns for every input.
pub fn run_one<S: Source, K: Sink>(
    alloc: Global,
    words: &[String],
    ops: &OpTable,
    input: &mut S,
    output: &mut K,
) -> Outcome
    // Status 0, 1 or 2 is the one that is due, the sink took exactly what is due, and the history is that of the calls
    // that are due, with the turns in the order of their first places.
    ensures written { IsWritten result.status → ForDue (map string_bytes words.now) (S.left input.old) (IsDone IsHistoryInOrder result (K.taken output.old) (K.taken output.new)) }
    // Status 3 comes only for a command that reads its input, where the source's count rose, and nothing was written.
    ensures read_fault { result.status ≡ 3 → AskForInput (map string_bytes words.now) × Rose (S.faults input.old) (S.faults input.new) × Keeps (K.taken output.old) (K.taken output.new) }
    // Status 4 comes only where the sink's count rose,
    ensures write_fault { result.status ≡ 4 → Rose (K.faults output.old) (K.faults output.new) }
    // and a front of what is due was written; the history is that of the calls that are due, in order.
    ensures front { result.status ≡ 4 → ForDue (map string_bytes words.now) (S.left input.old) (IsCut IsHistoryInOrder result (K.taken output.old) (K.taken output.new)) }
    // At want of memory nothing was written.
    ensures memory { result.status ≡ 5 → Keeps (K.taken output.old) (K.taken output.new) }
    ensures range { result.status ≤ 5 }
    // Where neither count rose, the status is the one that is due or that of want of memory.
    ensures settled { ¬ Rose (S.faults input.old) (S.faults input.new) → ¬ Rose (K.faults output.old) (K.faults output.new) → IsDueOrNoMemory (map string_bytes words.now) (S.left input.old) result.status }
    // Refused words and `gen` leave the source and its count alone.
    ensures alone { ¬ AskForInput (map string_bytes words.now) → IsLeftAlone (S.left input.old) (S.left input.new) (S.faults input.old) (S.faults input.new) }
    // Any other words have the input read to its end, unless it is too long.
    ensures end { IsWritten result.status ⊎ (result.status ≡ 4) → EndsRead (map string_bytes words.now) (S.left input.old) (S.left input.new) }
    // The history is legal, and empty where the source failed or memory ran out.
    ensures legal { IsLegal (history_of result) }
    ensures none { (result.status ≡ 3) ⊎ (result.status ≡ 5) → history_of result ≡ no_history }
{
    let prepared = match prepare(alloc, words, input) {
        Ok(prepared) => prepared,
        Err(Stop::Fault) => return empty(alloc, 3),
        Err(Stop::NoMemory) => return empty(alloc, 5),
    };
    let sent = send(alloc, ops, &prepared, output);
    finished(alloc, sent, ended(alloc, prepared))
}
