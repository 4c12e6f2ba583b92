//! What a summary counts.
ghost use Rattle.std.specs.Prelude.{◌≡◌, IfOk, List, count_by, sum_by};
ghost use Rattle.hc_bench.specs.Listing.{CycleRow};
ghost use Rattle.hc_bench.specs.Steps as spec;
ghost use Rattle.hc_bench.specs.Trace.{IsRun};
ghost use Rattle.hc_dbstate.specs.Elaboration.{IsElaboration};
ghost use Rattle.hc_plan.specs.Elaborates.{Elaborated};
ghost use Rattle.hc_plan.specs.Hierarchies.{AreCalled, IsHierarchyFor};
ghost use Rattle.hc_summary.specs.Summary.{IsSummary};

use crate::lines::text_of;
use hc_bench::kinds::{Bench, Step};
use hc_dbstate::{DbState, Hier, used_entries, used_entries_are_called};
use hc_fault::NoMemory;
use hc_plan::calls_stand_for_calls;
use std::alloc::Global;

/// How many marks are on.
fn marked(marks: &[bool]) -> usize
    ensures { result ≡ count_by (λ b. b) marks.now }
{
    let mut count = 0;
    'marks: for mark in marks {
        if *mark {
            count += 1;
        }
    }
    count
}

/// How many cycles a step has.
fn cycles_of(step: &Step) -> u32
    ensures { result ≡ spec.cycles_of step.now }
{
    match step {
        Step::Cycle { times } => *times,
        Step::Set { .. } | Step::Reset => 0,
    }
}

/// How many cycles steps have in all.
fn cycles(steps: &[Step]) -> u128
    ensures { result ≡ sum_by spec.cycles_of steps.now }
{
    let mut total = 0;
    'steps: for step in steps {
        total += cycles_of(step) as u128;
    }
    total
}

/// The summary of a hierarchy and of the rows of a bench: six lines with the instances of the design, the entries of the
/// database, the modules that the Verilog has, the weight, the words of memory, and the cycles of the bench. Where each entry
/// of the database is that of a call of the hierarchy, and the rows are those of the bench from the start, it is the summary
/// of the design.
pub fn summary(alloc: Global, db: &DbState, hier: &Hier, bench: &Bench) -> Result<Vec<u8>, NoMemory>
    requires elaboration { IsElaboration db.now.entries hier.now }
    ensures { IfOk result (λ text. (e : Elaborated) (rows : List CycleRow) → IsHierarchyFor db.now.entries hier.now e
        → AreCalled db.now.entries hier.now → IsRun e.tree bench.now.steps rows → IsSummary e rows text.items) }
{
    calls_stand_for_calls();
    used_entries_are_called();
    db.legal();
    let used = used_entries(alloc, db, hier.entry)?;
    let steps = bench.steps.as_slice();
    let text = text_of(alloc, hier, db.len(), marked(&used), cycles(steps))?;
    Ok(text)
}
