//! The top call by many workers.
ghost use Rattle.std.specs.Prelude.{◌≡◌, ◌<◌, ◌≤◌, ◌⊎◌, IfOk, IsErrOf, OnOk, map, string_bytes, true, false};
ghost use Rattle.std.specs.Io.KnownBytes.{Keeps};
ghost use Rattle.hc_cli.specs.Clauses.{AskForInput, EndsInput, EndsRead, ForDue, IsCut, IsDone, IsDueOrNoMemory, IsLeftAlone, IsWritten, history_of};
ghost use Rattle.hc_cli.specs.Due.{reads_input};
ghost use Rattle.hc_cli.specs.Histories.{IsHistoryOf, no_history};
ghost use Rattle.hc_cli.specs.Prepared.{ServesDesign, ServesInput, ServesLeft};
ghost use Rattle.hc_cli.specs.declared.read.Stop.TheVariants as stop;
ghost use Rattle.hc_dbstate.specs.History.{IsLegal};
ghost use Rattle.hc_outside.specs.Causes.{Rose};
ghost use Rattle.hc_words.specs.Jobs.{IsJob};

use crate::elaborated::{prepare_elaborated, told};
use crate::ending::{Outcome, empty, ended, finished};
use crate::histories::owned_turns_are_histories;
use crate::one::run_one;
use crate::prepared::{Prepared, send};
use crate::read::{Read, Stop, read_for};
use hc_db::Db;
use hc_fault::NoMemory;
use hc_lang::Design;
use hc_ops::OpTable;
use hc_outside::{Sink, Source};
use hc_words::{Job, WordStop, one_job, read_words, words_are_decided};
use hc_workers::{Gate, elab_many};
use std::alloc::Global;
use std::sync::Wait;
use std::thread::Threads;

/// What is prepared for a design.
fn prepare_design<R: Threads + Wait + Sync, G: Gate + Sync>(
    rt: &R,
    alloc: Global,
    job: &Job,
    design: &Design,
    gate: &G,
) -> Result<Prepared, NoMemory>
    requires workers { (1 ≤ job.now.workers) × (job.now.workers ≤ 64) }
    ensures { IfOk result (ServesDesign IsHistoryOf job.now design.now) }
{
    let (db, pass) = Db::new(rt, alloc)?;
    let (pass, answer) = elab_many(rt, alloc, design, &db, pass, job.workers, gate);
    match answer {
        Ok(hier) => {
            owned_turns_are_histories();
            let state = db.finish(rt, pass);
            state.legal();
            prepare_elaborated(alloc, job, design, state, &hier)
        }
        Err(refused) => told(refused),
    }
}

/// Reads the text of the job, and prepares what is due for it.
fn prepare_text<R: Threads + Wait + Sync, S: Source, G: Gate + Sync>(
    rt: &R,
    alloc: Global,
    job: &Job,
    input: &mut S,
    gate: &G,
) -> Result<Prepared, Stop>
    requires workers { (1 ≤ job.now.workers) × (job.now.workers ≤ 64) }
    ensures due { IfOk result (ServesInput IsHistoryOf job.now (S.left input.old)) }
    ensures fault { IsErrOf result stop.Fault → (reads_input job.now.verb ≡ true) × Rose (S.faults input.old) (S.faults input.new) }
    ensures end { reads_input job.now.verb ≡ true → OnOk result (EndsInput (S.left input.old) (S.left input.new)) }
    ensures alone { reads_input job.now.verb ≡ false → IsLeftAlone (S.left input.old) (S.left input.new) (S.faults input.old) (S.faults input.new) }
{
    match read_for(alloc, job, input) {
        Ok(Read::Parsed(design)) => match prepare_design(rt, alloc, job, &design, gate) {
            Ok(prepared) => Ok(prepared),
            Err(NoMemory) => Err(Stop::NoMemory),
        },
        Ok(Read::Faulty(fault)) => Ok(Prepared::Told(fault)),
        Err(stop) => Err(stop),
    }
}

/// Reads the words and then the text of their job, and prepares what is due.
fn prepare<R: Threads + Wait + Sync, S: Source, G: Gate + Sync>(
    rt: &R,
    alloc: Global,
    words: &[String],
    input: &mut S,
    gate: &G,
) -> Result<Prepared, Stop>
    ensures due { IfOk result (ServesLeft IsHistoryOf (map string_bytes words.now) (S.left input.old)) }
    ensures fault { IsErrOf result stop.Fault → AskForInput (map string_bytes words.now) × Rose (S.faults input.old) (S.faults input.new) }
    ensures alone { ¬ AskForInput (map string_bytes words.now) → IsLeftAlone (S.left input.old) (S.left input.new) (S.faults input.old) (S.faults input.new) }
    ensures end { OnOk result (EndsRead (map string_bytes words.now) (S.left input.old) (S.left input.new)) }
{
    words_are_decided();
    one_job();
    match read_words(alloc, words) {
        Ok(job) => prepare_text(rt, alloc, &job, input, gate),
        Err(WordStop::Words) => Ok(Prepared::Refusal),
        Err(WordStop::NoMemory) => Err(Stop::NoMemory),
    }
}

/// Whether the words ask for more than one worker.
fn asks_for_many(alloc: Global, words: &[String]) -> bool
    ensures { result ≡ true → (job : Job) × IsJob (map string_bytes words.now) job × (1 < job.workers) }
{
    match read_words(alloc, words) {
        Ok(job) => 1 < job.workers,
        Err(_) => false,
    }
}

/// Reads the words and then the text of their job: all of the input, or for `gen` the workload of the seed. It writes what is
/// due for them, by as many workers as the words ask for. Refused words and `gen` leave the source alone. `ops` has the
/// operations that the simulation calls. `gate` hears of the halves of the work that run beside each other: `arrive` is called
/// before a half's first insertion, `done` after its last. All memory is taken before the first byte is written. With one worker
/// it is `run_one`, and `gate` is not called. Else it may wait, as insertions of many threads may, and its promise holds if it
/// returns.
pub fn run<R: Threads + Wait + Sync, S: Source, K: Sink, G: Gate + Sync>(
    rt: &R,
    alloc: Global,
    words: &[String],
    ops: &OpTable,
    input: &mut S,
    output: &mut K,
    gate: &G,
) -> Outcome
    // Status 0, 1 or 2 is the one that is due, the sink took exactly what is due, and the history is that of the calls
    // that are due.
    ensures written { IsWritten result.status → ForDue (map string_bytes words.now) (S.left input.old) (IsDone IsHistoryOf result (K.taken output.old) (K.taken output.new)) }
    // Status 3 comes only for a command that reads its input, where the source's count rose, and nothing was written.
    ensures read_fault { result.status ≡ 3 → AskForInput (map string_bytes words.now) × Rose (S.faults input.old) (S.faults input.new) × Keeps (K.taken output.old) (K.taken output.new) }
    // Status 4 comes only where the sink's count rose,
    ensures write_fault { result.status ≡ 4 → Rose (K.faults output.old) (K.faults output.new) }
    // and a front of what is due was written; the history is that of the calls that are due.
    ensures front { result.status ≡ 4 → ForDue (map string_bytes words.now) (S.left input.old) (IsCut IsHistoryOf result (K.taken output.old) (K.taken output.new)) }
    // At want of memory nothing was written.
    ensures memory { result.status ≡ 5 → Keeps (K.taken output.old) (K.taken output.new) }
    ensures range { result.status ≤ 5 }
    // Where neither count rose, the status is the one that is due or that of want of memory.
    ensures settled { ¬ Rose (S.faults input.old) (S.faults input.new) → ¬ Rose (K.faults output.old) (K.faults output.new) → IsDueOrNoMemory (map string_bytes words.now) (S.left input.old) result.status }
    // Refused words and `gen` leave the source and its count alone.
    ensures alone { ¬ AskForInput (map string_bytes words.now) → IsLeftAlone (S.left input.old) (S.left input.new) (S.faults input.old) (S.faults input.new) }
    // Any other words have the input read to its end, unless it is too long.
    ensures end { IsWritten result.status ⊎ (result.status ≡ 4) → EndsRead (map string_bytes words.now) (S.left input.old) (S.left input.new) }
    // The history is legal, and empty where the source failed or memory ran out.
    ensures legal { IsLegal (history_of result) }
    ensures none { (result.status ≡ 3) ⊎ (result.status ≡ 5) → history_of result ≡ no_history }
{
    if !asks_for_many(alloc, words) {
        return run_one(alloc, words, ops, input, output);
    }
    let prepared = match prepare(rt, alloc, words, input, gate) {
        Ok(prepared) => prepared,
        Err(Stop::Fault) => return empty(alloc, 3),
        Err(Stop::NoMemory) => return empty(alloc, 5),
    };
    let sent = send(alloc, ops, &prepared, output);
    finished(alloc, sent, ended(alloc, prepared))
}
