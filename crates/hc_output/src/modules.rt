//! The Verilog of a hierarchy.
ghost use Rattle.std.specs.Prelude.{◌≡◌, IfOk};
ghost use Rattle.hc_dbstate.specs.Elaboration.{IsElaboration, hier_view};
ghost use Rattle.hc_dbstate.specs.Unfolding.{unfolding_of};
ghost use Rattle.hc_plan.specs.Elaborates.{Elaborated};
ghost use Rattle.hc_plan.specs.Hierarchies.{IsHierarchyFor};
ghost use Rattle.hc_modules.specs.VerilogText.{IsVerilog};
ghost use Rattle.hc_names.specs.Naming.{named_trees};
ghost use Rattle.hc_output.specs.Output.{named_calls};

use hc_dbstate::{DbState, Hier};
use hc_fault::NoMemory;
use hc_modules::{alike_calls_have_one_text, texts_are_of_trees, verilog};
use hc_names::assign;
use std::alloc::Global;

/// The modules of the unfoldings of a hierarchy's entries.
fn unfolded_text(alloc: Global, db: &DbState, hier: &Hier) -> Result<Vec<u8>, NoMemory>
    requires { IsElaboration db.now.entries hier.now }
    ensures { IfOk result (λ text. IsVerilog (unfolding_of db.now.entries (hier_view hier.now).own.entry) (named_trees db.now.entries hier.now) text.items) }
{
    texts_are_of_trees();
    db.legal();
    let names = assign(alloc, db, hier)?;
    verilog(alloc, db, hier, &names)
}

/// The modules of an elaborated design.
pub(crate) fn modules_text(alloc: Global, db: &DbState, hier: &Hier) -> Result<Vec<u8>, NoMemory>
    requires { IsElaboration db.now.entries hier.now }
    ensures { IfOk result (λ text. (e : Elaborated) → IsHierarchyFor db.now.entries hier.now e → IsVerilog e.tree (named_calls e.calls) text.items) }
{
    alike_calls_have_one_text();
    unfolded_text(alloc, db, hier)
}
