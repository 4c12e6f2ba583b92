ghost use Rattle.std.specs.Prelude.{◌≡◌, ◌++◌, ◌∷◌, [], List, ℕ, true, false, IfOk};
ghost use Rattle.hc_bench.specs.Listing.{CycleRow};
ghost use Rattle.hc_bench.specs.Steps.{AreStepsFor};
ghost use Rattle.hc_bench.specs.Trace.{IsRun};
ghost use Rattle.hc_dbstate.specs.Elaboration.{IsElaboration, hier_view};
ghost use Rattle.hc_dbstate.specs.Unfolding.{unfolding_of};
ghost use Rattle.hc_plan.specs.Elaborates.{Elaborated};
ghost use Rattle.hc_plan.specs.Hierarchies.{AreCalled, IsHierarchyFor};
ghost use Rattle.hc_signal.specs.Occurrences.{HasCombLoop};
ghost use Rattle.hc_signal.specs.Tree.{graph};
ghost use Rattle.hc_words.specs.declared.job.Verb.TheVariants as verbs;
ghost use Rattle.hc_output.specs.Output.{HasSummary, IsVerilogFor};
ghost use Rattle.hc_output.specs.Prepared.{HasOutput, IsDigestedVerilog, IsFlatOf, IsReady};

use crate::digests::push_digest_line;
use crate::flat::{flat_circuit, title_text};
use crate::kinds::{ListingForm, Output, Played};
use crate::modules::modules_text;
use hc_bench::kinds::Bench;
use hc_dbstate::{DbState, Hier};
use hc_fault::{Name, NoMemory};
use hc_plan::elaborated_trees;
use hc_signal::Circuit;
use hc_summary::summary;
use hc_traces::{benches_have_runs, flat_graphs_run_alike, same_trees_run_alike};
use hc_words::Verb;
use std::alloc::Global;

/// The Verilog: the modules of the hierarchy, or the one module of the flattened circuit.
fn verilog_text(
    alloc: Global,
    flat: bool,
    title: &Name,
    db: &DbState,
    hier: &Hier,
) -> Result<Vec<u8>, NoMemory>
    requires { IsElaboration db.now.entries hier.now }
    ensures { IfOk result (λ text. (e : Elaborated) → IsHierarchyFor db.now.entries hier.now e → IsVerilogFor flat title.now e text.items) }
{
    if flat {
        let circuit = flat_circuit(alloc, db, hier)?;
        title_text(alloc, db, hier, &circuit, title)
    } else {
        modules_text(alloc, db, hier)
    }
}

/// The Verilog, where the flattened circuit is at hand.
fn verilog_with(
    alloc: Global,
    flat: bool,
    title: &Name,
    db: &DbState,
    hier: &Hier,
    circuit: &Circuit,
) -> Result<Vec<u8>, NoMemory>
    requires elaboration { IsElaboration db.now.entries hier.now }
    requires circuit { IsFlatOf db.now.entries hier.now circuit.now }
    ensures { IfOk result (λ text. (e : Elaborated) → IsHierarchyFor db.now.entries hier.now e → IsVerilogFor flat title.now e text.items) }
{
    if flat {
        title_text(alloc, db, hier, circuit, title)
    } else {
        modules_text(alloc, db, hier)
    }
}

/// What `verilog` writes.
fn verilog_output(
    alloc: Global,
    flat: bool,
    title: &Name,
    db: &DbState,
    hier: &Hier,
    bench: &Bench,
) -> Result<Output, NoMemory>
    requires elaboration { IsElaboration db.now.entries hier.now }
    requires steps { AreStepsFor (graph (unfolding_of db.now.entries (hier_view hier.now).own.entry)).ports.inputs bench.now.steps }
    ensures ready { IfOk result IsReady }
    ensures out { IfOk result (λ o. (e : Elaborated) → IsHierarchyFor db.now.entries hier.now e → ¬ HasCombLoop e.tree → HasOutput verbs.Verilog flat title.now e bench.now.steps o) }
{
    benches_have_runs();
    let text = verilog_text(alloc, flat, title, db, hier)?;
    Ok(Output { text, played: None })
}

/// What `stat` writes, where each entry of the database is that of a call.
fn stat_output(
    alloc: Global,
    flat: bool,
    title: &Name,
    db: &DbState,
    hier: &Hier,
    bench: &Bench,
) -> Result<Output, NoMemory>
    requires elaboration { IsElaboration db.now.entries hier.now }
    requires steps { AreStepsFor (graph (unfolding_of db.now.entries (hier_view hier.now).own.entry)).ports.inputs bench.now.steps }
    ensures ready { IfOk result IsReady }
    ensures out { IfOk result (λ o. (e : Elaborated) → IsHierarchyFor db.now.entries hier.now e → AreCalled db.now.entries hier.now → ¬ HasCombLoop e.tree → HasOutput verbs.Stat flat title.now e bench.now.steps o) }
{
    benches_have_runs();
    let text = summary(alloc, db, hier, bench)?;
    Ok(Output { text, played: None })
}

/// What `sim` writes.
fn sim_output(
    alloc: Global,
    flat: bool,
    title: &Name,
    db: &DbState,
    hier: &Hier,
    bench: Bench,
) -> Result<Output, NoMemory>
    requires elaboration { IsElaboration db.now.entries hier.now }
    requires steps { AreStepsFor (graph (unfolding_of db.now.entries (hier_view hier.now).own.entry)).ports.inputs bench.steps }
    ensures ready { IfOk result IsReady }
    ensures out { IfOk result (λ o. (e : Elaborated) → IsHierarchyFor db.now.entries hier.now e → HasOutput verbs.Sim flat title.now e bench.steps o) }
{
    benches_have_runs();
    flat_graphs_run_alike();
    same_trees_run_alike();
    let circuit = flat_circuit(alloc, db, hier)?;
    circuit.lawful();
    Ok(Output {
        text: Vec::new(alloc),
        played: Some(Played {
            circuit,
            bench,
            form: ListingForm::Whole,
        }),
    })
}

/// What `both` writes.
fn both_output(
    alloc: Global,
    flat: bool,
    title: &Name,
    db: &DbState,
    hier: &Hier,
    bench: Bench,
) -> Result<Output, NoMemory>
    requires elaboration { IsElaboration db.now.entries hier.now }
    requires steps { AreStepsFor (graph (unfolding_of db.now.entries (hier_view hier.now).own.entry)).ports.inputs bench.steps }
    ensures ready { IfOk result IsReady }
    ensures out { IfOk result (λ o. (e : Elaborated) → IsHierarchyFor db.now.entries hier.now e → HasOutput verbs.Both flat title.now e bench.steps o) }
{
    benches_have_runs();
    flat_graphs_run_alike();
    same_trees_run_alike();
    let circuit = flat_circuit(alloc, db, hier)?;
    circuit.lawful();
    let mut text = verilog_with(alloc, flat, title, db, hier, &circuit)?;
    text.push(b'\n')?;
    Ok(Output {
        text,
        played: Some(Played {
            circuit,
            bench,
            form: ListingForm::Whole,
        }),
    })
}

/// The summary, and the digest line of the Verilog, where each entry of the database is that of a call.
fn digested_verilog(
    alloc: Global,
    flat: bool,
    title: &Name,
    db: &DbState,
    hier: &Hier,
    circuit: &Circuit,
    bench: &Bench,
) -> Result<Vec<u8>, NoMemory>
    requires elaboration { IsElaboration db.now.entries hier.now }
    requires circuit { IsFlatOf db.now.entries hier.now circuit.now }
    ensures { IfOk result (λ text. (e : Elaborated) (rows : List CycleRow) → IsHierarchyFor db.now.entries hier.now e
        → AreCalled db.now.entries hier.now → IsRun e.tree bench.now.steps rows
        → IsDigestedVerilog flat title.now e rows text.items) }
{
    let mut text = summary(alloc, db, hier, bench)?;
    let verilog = verilog_with(alloc, flat, title, db, hier, circuit)?;
    push_digest_line(&mut text, b"verilog ", &verilog)?;
    Ok(text)
}

/// What `gen` writes, where each entry of the database is that of a call.
fn gen_output(
    alloc: Global,
    flat: bool,
    title: &Name,
    db: &DbState,
    hier: &Hier,
    bench: Bench,
) -> Result<Output, NoMemory>
    requires elaboration { IsElaboration db.now.entries hier.now }
    requires steps { AreStepsFor (graph (unfolding_of db.now.entries (hier_view hier.now).own.entry)).ports.inputs bench.steps }
    ensures ready { IfOk result IsReady }
    ensures out { IfOk result (λ o. (e : Elaborated) → IsHierarchyFor db.now.entries hier.now e → AreCalled db.now.entries hier.now → HasOutput verbs.Gen flat title.now e bench.steps o) }
{
    benches_have_runs();
    flat_graphs_run_alike();
    same_trees_run_alike();
    let circuit = flat_circuit(alloc, db, hier)?;
    circuit.lawful();
    let text = digested_verilog(alloc, flat, title, db, hier, &circuit, &bench)?;
    Ok(Output {
        text,
        played: Some(Played {
            circuit,
            bench,
            form: ListingForm::Digest,
        }),
    })
}

/// What a command writes for the hierarchy of a design, with all memory for it but the simulator's. The title is the name
/// of the flattened circuit's module. For `stat` and `gen` each entry of the database is to be that of a call.
pub fn prepare_output(
    alloc: Global,
    verb: Verb,
    flat: bool,
    title: &Name,
    db: &DbState,
    hier: &Hier,
    bench: Bench,
) -> Result<Output, NoMemory>
    requires elaboration { IsElaboration db.now.entries hier.now }
    requires steps { AreStepsFor (graph (unfolding_of db.now.entries (hier_view hier.now).own.entry)).ports.inputs bench.steps }
    ensures ready { IfOk result IsReady }
    ensures out { IfOk result (λ o. (e : Elaborated) → IsHierarchyFor db.now.entries hier.now e → (HasSummary verb → AreCalled db.now.entries hier.now) → ¬ HasCombLoop e.tree → HasOutput verb flat title.now e bench.steps o) }
{
    match verb {
        Verb::Verilog => verilog_output(alloc, flat, title, db, hier, &bench),
        Verb::Sim => sim_output(alloc, flat, title, db, hier, bench),
        Verb::Both => both_output(alloc, flat, title, db, hier, bench),
        Verb::Stat => stat_output(alloc, flat, title, db, hier, &bench),
        Verb::Gen => gen_output(alloc, flat, title, db, hier, bench),
    }
}
