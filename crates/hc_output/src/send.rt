//! Writing of what was prepared.
ghost use Rattle.std.specs.Prelude.{◌≡◌, ◌≤◌, ◌++◌, ◌∷◌, [], List, ℕ, codes, IfOk, OnOk, OnErr, IsErrOf, IsOk, IsErr};
ghost use Rattle.std.specs.Io.KnownBytes.{Appends, Keeps};
ghost use Rattle.hc_outside.specs.Causes.{HasCause, Rose};
ghost use Rattle.hc_outside.specs.Moves.{AppendsFront};
ghost use Rattle.hc_bench.specs.Listing.{listing};
ghost use Rattle.hc_bench.specs.Trace.{IsAtStart};
ghost use Rattle.hc_signal.specs.Tree.{leaf};
ghost use Rattle.hc_output.specs.Prepared.{IsListing, IsPlayable, IsReady, IsTextOf, written_listing};
ghost use Rattle.hc_output.specs.Digests.{ended_line};
ghost use Rattle.hc_output.specs.declared.send.SendStop.TheVariants as stop;

use crate::digests::push_digest_line;
use crate::kinds::{ListingForm, Output, Played};
use crate::vec_sink::VecSink;
use hc_bench::{Sim, play};
use hc_fault::NoMemory;
use hc_flatsim::FlatSim;
use hc_ops::OpTable;
use hc_outside::{Failed, Sink, write_all};
use hc_traces::{listings_are_of_runs, parts_of_listings_are_fronts, same_trees_run_alike};
use std::alloc::Global;

/// Why an output was not written to its end.
#[derive(Clone, Copy, Debug, PartialEq, Eq, Drop)]
pub enum SendStop {
    /// The sink failed.
    Failed,
    /// Memory ran out, and nothing was written.
    NoMemory,
}

/// Writes the listing of a run from the start.
fn play_from_start<S: Sim, K: Sink>(sim: &mut S, played: &Played, to: &mut K) -> Result<(), Failed>
    requires tree { (S.runs sim.old).tree ≡ leaf played.now.circuit }
    requires start { IsAtStart (S.runs sim.old) }
    requires playable { IsPlayable played.now.circuit played.now.bench.steps }
    ensures all { (out : List ℕ) → IsListing played.now out → OnOk result (Appends (K.taken to.old) (K.taken to.new) out) }
    ensures front { (out : List ℕ) → IsListing played.now out → OnErr result (AppendsFront (K.taken to.old) (K.taken to.new) out) }
    ensures cause { HasCause (K.faults to.old) (K.faults to.new) result }
{
    listings_are_of_runs();
    parts_of_listings_are_fronts();
    same_trees_run_alike();
    sim.lawful();
    play(sim, &played.bench, played.circuit.ports(), to)
}

/// Writes a text and then the listing of a run from the start.
fn send_both<S: Sim, K: Sink>(
    sim: &mut S,
    text: &[u8],
    played: &Played,
    to: &mut K,
) -> Result<(), Failed>
    requires tree { (S.runs sim.old).tree ≡ leaf played.now.circuit }
    requires start { IsAtStart (S.runs sim.old) }
    requires playable { IsPlayable played.now.circuit played.now.bench.steps }
    ensures all { (out : List ℕ) → IsListing played.now out → OnOk result (Appends (K.taken to.old) (K.taken to.new) (text.now ++ out)) }
    ensures front { (out : List ℕ) → IsListing played.now out → OnErr result (AppendsFront (K.taken to.old) (K.taken to.new) (text.now ++ out)) }
    ensures cause { HasCause (K.faults to.old) (K.faults to.new) result }
{
    write_all(to, text)?;
    play_from_start(sim, played, to)
}

/// Tells a failure of the sink.
fn stopped(sent: Result<(), Failed>) -> Result<(), SendStop>
    ensures ok { OnOk result (IsOk sent) }
    ensures failed { OnErr result (IsErr sent) }
    ensures kind { IsErrOf result stop.NoMemory → ⊥ }
{
    match sent {
        Ok(()) => Ok(()),
        Err(_) => Err(SendStop::Failed),
    }
}

/// The digest line of the listing of a run from the start.
fn listing_digest<S: Sim>(alloc: Global, sim: &mut S, played: &Played) -> Result<Vec<u8>, NoMemory>
    requires tree { (S.runs sim.old).tree ≡ leaf played.now.circuit }
    requires start { IsAtStart (S.runs sim.old) }
    requires playable { IsPlayable played.now.circuit played.now.bench.steps }
    ensures { (rows : List ℕ) → IsListing played.now rows → IfOk result (λ line. line.items ≡ ended_line (codes "rows ") rows) }
{
    let mut listing = VecSink::new(alloc);
    match play_from_start(sim, played, &mut listing) {
        Ok(()) => {}
        Err(_) => return Err(NoMemory),
    }
    let mut line = Vec::new(alloc);
    push_digest_line(&mut line, b"rows ", &listing.bytes)?;
    Ok(line)
}

/// Writes two texts, one after the other.
fn send_pair<K: Sink>(first: &[u8], second: &[u8], to: &mut K) -> Result<(), Failed>
    ensures all { OnOk result (Appends (K.taken to.old) (K.taken to.new) (first.now ++ second.now)) }
    ensures front { OnErr result (AppendsFront (K.taken to.old) (K.taken to.new) (first.now ++ second.now)) }
    ensures cause { HasCause (K.faults to.old) (K.faults to.new) result }
{
    write_all(to, first)?;
    write_all(to, second)
}

/// Writes a text and then the digest line of the listing of a run from the start. The run ends before the first byte is
/// written.
fn send_digested<S: Sim, K: Sink>(
    alloc: Global,
    sim: &mut S,
    text: &[u8],
    played: &Played,
    to: &mut K,
) -> Result<(), SendStop>
    requires tree { (S.runs sim.old).tree ≡ leaf played.now.circuit }
    requires start { IsAtStart (S.runs sim.old) }
    requires playable { IsPlayable played.now.circuit played.now.bench.steps }
    ensures all { (rows : List ℕ) → IsListing played.now rows → OnOk result (Appends (K.taken to.old) (K.taken to.new) (text.now ++ ended_line (codes "rows ") rows)) }
    ensures front { (rows : List ℕ) → IsListing played.now rows → IsErrOf result stop.Failed → AppendsFront (K.taken to.old) (K.taken to.new) (text.now ++ ended_line (codes "rows ") rows) }
    ensures cause { IsErrOf result stop.Failed → Rose (K.faults to.old) (K.faults to.new) }
    ensures memory { IsErrOf result stop.NoMemory → Keeps (K.taken to.old) (K.taken to.new) }
{
    match listing_digest(alloc, sim, played) {
        Ok(line) => stopped(send_pair(text, &line, to)),
        Err(NoMemory) => Err(SendStop::NoMemory),
    }
}

/// Writes a text and then what is to be written of the listing of a run from the start.
fn send_played<S: Sim, K: Sink>(
    alloc: Global,
    sim: &mut S,
    text: &[u8],
    played: &Played,
    to: &mut K,
) -> Result<(), SendStop>
    requires tree { (S.runs sim.old).tree ≡ leaf played.now.circuit }
    requires start { IsAtStart (S.runs sim.old) }
    requires playable { IsPlayable played.now.circuit played.now.bench.steps }
    ensures all { (rows : List ℕ) → IsListing played.now rows → OnOk result (Appends (K.taken to.old) (K.taken to.new) (text.now ++ written_listing played.now.form rows)) }
    ensures front { (rows : List ℕ) → IsListing played.now rows → IsErrOf result stop.Failed → AppendsFront (K.taken to.old) (K.taken to.new) (text.now ++ written_listing played.now.form rows) }
    ensures cause { IsErrOf result stop.Failed → Rose (K.faults to.old) (K.faults to.new) }
    ensures memory { IsErrOf result stop.NoMemory → Keeps (K.taken to.old) (K.taken to.new) }
{
    match played.form {
        ListingForm::Whole => stopped(send_both(sim, text, played, to)),
        ListingForm::Digest => send_digested(alloc, sim, text, played, to),
    }
}

/// Writes what was prepared: its text, and then what is to be written of the listing of its run. It fails where the sink's
/// count of faults rose, and a front was written then; or for want of memory, before anything was written.
pub fn write_output<K: Sink>(
    alloc: Global,
    ops: &OpTable,
    output: &Output,
    to: &mut K,
) -> Result<(), SendStop>
    requires { IsReady output.now }
    ensures all { (out : List ℕ) → IsTextOf output.now out → OnOk result (Appends (K.taken to.old) (K.taken to.new) out) }
    ensures front { (out : List ℕ) → IsTextOf output.now out → IsErrOf result stop.Failed → AppendsFront (K.taken to.old) (K.taken to.new) out }
    ensures cause { IsErrOf result stop.Failed → Rose (K.faults to.old) (K.faults to.new) }
    ensures memory { IsErrOf result stop.NoMemory → Keeps (K.taken to.old) (K.taken to.new) }
{
    match &output.played {
        None => stopped(write_all(to, &output.text)),
        Some(played) => match FlatSim::new(alloc, &played.circuit, ops) {
            Ok(mut sim) => send_played(alloc, &mut sim, &output.text, played, to),
            Err(_) => Err(SendStop::NoMemory),
        },
    }
}
