//! The reading of the text of a job.
ghost use Rattle.std.specs.Prelude.{◌≡◌, ◌≤◌, false, true, IfOk, IsErrOf, OnOk, length};
ghost use Rattle.hc_cli.specs.Clauses.{EndsInput, IsLeftAlone};
ghost use Rattle.hc_cli.specs.Due.{reads_input as reads_input_of, text_fault};
ghost use Rattle.hc_cli.specs.Read.{IsReadFor, IsReadFrom, IsReadOf};
ghost use Rattle.hc_cli.specs.declared.read.Stop.TheVariants as stop;
ghost use Rattle.hc_fault.specs.declared.fault.FaultKind.TheVariants as kinds;
ghost use Rattle.hc_outside.specs.Causes.{Rose};
ghost use Rattle.hc_workload.specs.Workload.{workload};

use hc_fault::{Fault, FaultKind, NoMemory, Refused};
use hc_lang::{Design, parse};
use hc_outside::{ReadStop, Source, read_all};
use hc_words::{Job, Verb};
use hc_workload::generate;
use std::alloc::Global;

/// What was read of a text.
#[derive(Drop)]
pub(crate) enum Read {
    /// The text has a fault.
    Faulty(Fault),
    Parsed(Design),
}

/// Why nothing could be read or prepared.
#[derive(Clone, Copy, Debug, PartialEq, Eq, Drop)]
pub(crate) enum Stop {
    Fault,
    NoMemory,
}

/// The longest text that is parsed, in bytes.
const LIMIT: usize = 4_194_304;

/// The fault of a longer one.
fn too_long() -> Fault
    ensures { result ≡ text_fault kinds.TooLong 0 }
{
    Fault {
        kind: FaultKind::TooLong,
        line: 0,
        path: None,
    }
}

/// Parses a text, unless it is too long.
fn read_text(alloc: Global, text: &[u8]) -> Result<Read, Stop>
    ensures read { IfOk result (IsReadOf text.now) }
    ensures fault { IsErrOf result stop.Fault → ⊥ }
{
    if text.len() > LIMIT {
        return Ok(Read::Faulty(too_long()));
    }
    match parse(alloc, text) {
        Ok(design) => Ok(Read::Parsed(design)),
        Err(Refused::Fault(fault)) => Ok(Read::Faulty(fault)),
        Err(Refused::NoMemory) => Err(Stop::NoMemory),
    }
}

/// Reads the input to its end, unless it is too long, and parses it.
fn read_input<S: Source>(alloc: Global, input: &mut S) -> Result<Read, Stop>
    ensures read { IfOk result (IsReadFrom (S.left input.old)) }
    ensures fault { IsErrOf result stop.Fault → Rose (S.faults input.old) (S.faults input.new) }
    ensures end { OnOk result (EndsInput (S.left input.old) (S.left input.new)) }
{
    match read_all(alloc, input, LIMIT) {
        Ok(text) => read_text(alloc, &text),
        Err(ReadStop::TooLong) => Ok(Read::Faulty(too_long())),
        Err(ReadStop::Fault) => Err(Stop::Fault),
        Err(ReadStop::NoMemory) => Err(Stop::NoMemory),
    }
}

/// Generates the workload of a seed, and parses it.
fn read_workload(alloc: Global, seed: u64) -> Result<Read, Stop>
    ensures read { IfOk result (IsReadOf (workload seed)) }
    ensures fault { IsErrOf result stop.Fault → ⊥ }
{
    match generate(alloc, seed) {
        Ok(text) => read_text(alloc, &text),
        Err(NoMemory) => Err(Stop::NoMemory),
    }
}

/// Whether a command reads its input.
fn reads_input(verb: Verb) -> bool
    ensures { result ≡ reads_input_of verb }
{
    match verb {
        Verb::Verilog | Verb::Sim | Verb::Both | Verb::Stat => true,
        Verb::Gen => false,
    }
}

/// Reads the text of a job and parses it: the input to its end, unless it is too long, or the workload of the job's seed, which
/// leaves the input alone.
pub(crate) fn read_for<S: Source>(alloc: Global, job: &Job, input: &mut S) -> Result<Read, Stop>
    ensures read { IfOk result (IsReadFor job.now (S.left input.old)) }
    ensures fault { IsErrOf result stop.Fault → (reads_input_of job.now.verb ≡ true) × Rose (S.faults input.old) (S.faults input.new) }
    ensures end { reads_input_of job.now.verb ≡ true → OnOk result (EndsInput (S.left input.old) (S.left input.new)) }
    ensures alone { reads_input_of job.now.verb ≡ false → IsLeftAlone (S.left input.old) (S.left input.new) (S.faults input.old) (S.faults input.new) }
{
    if reads_input(job.verb) {
        read_input(alloc, input)
    } else {
        read_workload(alloc, job.seed)
    }
}
