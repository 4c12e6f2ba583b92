ghost use Rattle.std.specs.Prelude.{ℕ, List, Ok};
ghost use Rattle.hc_flattext.specs.FlatText.{IsFlatText};
ghost use Rattle.hc_lang.specs.declared.tree.Design.{Design};
ghost use Rattle.hc_plan.specs.Elaborates.{DesignElaborates, Elaborated};

use hc_flatten::flat_graphs_exist;
use hc_plan::{
    elaborated_circuits_are_checked, elaborated_trees_are_light, elaborated_trees_are_whole,
};
use hc_verilog::modules_have_texts;

/// The tree of an elaborated design has a flat text under each title.
pub fn flat_texts_exist()
    ensures { (d : Design) (e : Elaborated) (title : List ℕ) → DesignElaborates d (Ok e) → (text : List ℕ) × IsFlatText e.tree title text }
{
    elaborated_trees_are_whole();
    elaborated_circuits_are_checked();
    elaborated_trees_are_light();
    flat_graphs_exist();
    modules_have_texts();
}
