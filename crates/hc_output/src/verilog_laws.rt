ghost use Rattle.std.specs.Prelude.{ℕ, List, Ok};
ghost use Rattle.hc_lang.specs.declared.tree.Design.{Design};
ghost use Rattle.hc_modules.specs.VerilogText.{IsVerilog};
ghost use Rattle.hc_output.specs.Output.{named_calls};
ghost use Rattle.hc_plan.specs.Elaborates.{DesignElaborates, Elaborated};

use hc_modules::hierarchies_have_texts;
use hc_plan::{elaborated_calls_are_closed, elaborated_calls_are_lawful};

/// No elaborated design is without the Verilog of its hierarchy.
pub fn verilog_texts_exist()
    ensures { (d : Design) (e : Elaborated) → DesignElaborates d (Ok e) → (((text : List ℕ) × IsVerilog e.tree (named_calls e.calls) text) → ⊥) → ⊥ }
{
    elaborated_calls_are_closed();
    elaborated_calls_are_lawful();
    hierarchies_have_texts();
}
