//! What is prepared for an elaborated design.
ghost use Rattle.std.specs.Prelude.{◌≡◌, IfOk, Ok};
ghost use Rattle.hc_bench.specs.Answers.{Answers};
ghost use Rattle.hc_bench.specs.Steps.{AreStepsFor, steps_of};
ghost use Rattle.hc_cli.specs.Histories.{IsThis};
ghost use Rattle.hc_cli.specs.Prepared.{IsBenchToldOf, IsToldOf, ServesDesign};
ghost use Rattle.hc_dbstate.specs.Elaboration.{IsElaboration, hier_view};
ghost use Rattle.hc_dbstate.specs.Unfolding.{unfolding_of};
ghost use Rattle.hc_plan.specs.Elaborates.{DesignElaborates, Elaborated};
ghost use Rattle.hc_plan.specs.Hierarchies.{AreCalled, IsHierarchyFor};
ghost use Rattle.hc_signal.specs.Tree.{graph};

use crate::prepared::{Kept, Prepared, kept_of};
use hc_bench::kinds::Bench;
use hc_bench::make::bench;
use hc_dbstate::{DbState, Hier, walks_are_whole};
use hc_fault::{NoMemory, Refused};
use hc_lang::Design;
use hc_output::prepare_output;
use hc_plan::elaborated_trees;
use hc_words::Job;
use std::alloc::Global;

/// A fault is told, and want of memory is handed on.
pub(crate) fn told(refused: Refused) -> Result<Prepared, NoMemory>
    ensures { IfOk result (IsToldOf refused) }
{
    match refused {
        Refused::Fault(fault) => Ok(Prepared::Told(fault)),
        Refused::NoMemory => Err(NoMemory),
    }
}

/// A fault of a bench is told, and want of memory is handed on.
fn bench_told(refused: Refused, kept: Kept) -> Result<Prepared, NoMemory>
    ensures { IfOk result (IsBenchToldOf refused kept) }
{
    match refused {
        Refused::Fault(fault) => Ok(Prepared::BenchTold(fault, kept)),
        Refused::NoMemory => Err(NoMemory),
    }
}

/// The bench of a design, for the ports of the top of its hierarchy.
fn bench_of(alloc: Global, design: &Design, db: &DbState, hier: &Hier) -> Result<Bench, Refused>
    requires { IsElaboration db.now.entries hier.now }
    ensures answer { Answers (λ bench. bench.steps) result (steps_of design.now (graph (unfolding_of db.now.entries (hier_view hier.now).own.entry)).ports) }
    ensures steps { IfOk result (λ bench. AreStepsFor (graph (unfolding_of db.now.entries (hier_view hier.now).own.entry)).ports.inputs bench.steps) }
{
    walks_are_whole();
    db.legal();
    let form = db.get(hier.entry);
    form.canonical();
    bench(alloc, design, form.circuit().ports())
}

/// What is prepared for a design with this hierarchy: what is due for it, with the history of the database.
pub(crate) fn prepare_elaborated(
    alloc: Global,
    job: &Job,
    design: &Design,
    db: DbState,
    hier: &Hier,
) -> Result<Prepared, NoMemory>
    requires { IsElaboration db.entries hier.now }
    ensures { IfOk result (λ p. (e : Elaborated) → DesignElaborates design.now (Ok e) → IsHierarchyFor db.entries hier.now e → AreCalled db.entries hier.now → ServesDesign (IsThis db e.calls) job.now design.now p) }
{
    elaborated_trees();
    match bench_of(alloc, design, &db, hier) {
        Ok(bench) => {
            let output = prepare_output(
                alloc,
                job.verb,
                job.flat,
                &design.top.name,
                &db,
                hier,
                bench,
            )?;
            Ok(Prepared::Whole(output, kept_of(db)))
        }
        Err(refused) => bench_told(refused, kept_of(db)),
    }
}
