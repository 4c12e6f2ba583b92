//! The flattened circuit of a hierarchy: its module, and its run.
ghost use Rattle.std.specs.Prelude.{◌≡◌, [], List, ℕ, IfOk};
ghost use Rattle.hc_dbstate.specs.Elaboration.{IsElaboration, hier_view};
ghost use Rattle.hc_dbstate.specs.Unfolding.{unfolding_of};
ghost use Rattle.hc_bench.specs.Listing.{CycleRow};
ghost use Rattle.hc_bench.specs.Steps.{AreStepsFor};
ghost use Rattle.hc_bench.specs.Trace.{IsRun};
ghost use Rattle.hc_bench.specs.declared.kinds.Step.{Step};
ghost use Rattle.hc_plan.specs.Elaborates.{Elaborated};
ghost use Rattle.hc_plan.specs.Hierarchies.{IsHierarchyFor};
ghost use Rattle.hc_flattext.specs.FlatText.{IsFlatText};
ghost use Rattle.hc_signal.specs.Checked.{IsChecked};
ghost use Rattle.hc_signal.specs.FlatGraph.{IsFlat};
ghost use Rattle.hc_signal.specs.Occurrences.{HasCombLoop};
ghost use Rattle.hc_signal.specs.Tree.{graph, leaf};
ghost use Rattle.hc_output.specs.Prepared.{IsFlatOf};

use hc_dbstate::{DbState, Hier, walks_are_whole};
use hc_fault::{Name, NoMemory};
use hc_flatten::flatten;
use hc_flattext::{flat_text, same_trees_flatten_alike};
use hc_signal::Circuit;
use std::alloc::Global;

/// The flattened circuit of an elaborated design.
pub(crate) fn flat_circuit(alloc: Global, db: &DbState, hier: &Hier) -> Result<Circuit, NoMemory>
    requires { IsElaboration db.now.entries hier.now }
    ensures { IfOk result (λ c. IsFlatOf db.now.entries hier.now c) }
{
    walks_are_whole();
    db.legal();
    flatten(alloc, db, hier)
}

/// The module of the flattened circuit of an elaborated design, under this title.
pub(crate) fn title_text(
    alloc: Global,
    db: &DbState,
    hier: &Hier,
    circuit: &Circuit,
    title: &Name,
) -> Result<Vec<u8>, NoMemory>
    requires { IsFlatOf db.now.entries hier.now circuit.now }
    ensures { IfOk result (λ text. (e : Elaborated) → IsHierarchyFor db.now.entries hier.now e → IsFlatText e.tree title.now text.items) }
{
    same_trees_flatten_alike();
    flat_text(alloc, circuit, title)
}
