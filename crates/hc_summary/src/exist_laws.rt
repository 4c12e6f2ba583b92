//! Summaries exist.
ghost use Rattle.std.specs.Prelude.{ℕ, List, Ok};
ghost use Rattle.hc_bench.specs.Listing.{CycleRow};
ghost use Rattle.hc_lang.specs.declared.tree.Design.{Design};
ghost use Rattle.hc_plan.specs.Elaborates.{DesignElaborates, Elaborated};
ghost use Rattle.hc_summary.specs.Summary.{IsSummary};

use hc_canon::same_is_an_equivalence;
use hc_plan::reached_trees_are_called;

/// No elaborated design with its rows is without a summary.
pub fn summaries_exist()
    ensures { (d : Design) (e : Elaborated) (rows : List CycleRow) → DesignElaborates d (Ok e)
        → (((text : List ℕ) × IsSummary e rows text) → ⊥) → ⊥ }
{
    same_is_an_equivalence();
    reached_trees_are_called();
}
