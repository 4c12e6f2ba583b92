ghost use Rattle.std.specs.Prelude.{◌≡◌, ℕ, List, Ok};
ghost use Rattle.hc_lang.specs.declared.tree.Design.{Design};
ghost use Rattle.hc_plan.specs.Elaborates.{DesignElaborates, Elaborated, ElaboratedCall};
ghost use Rattle.hc_signal.specs.Member.{Has};
ghost use Rattle.hc_signal.specs.Occurrences.{IsReachedPath, tree_at};

use crate::laws::elaborated_trees;
use crate::whole_laws::{elaborated_calls_are_closed, elaborated_trees_are_whole};

/// Each tree that the top of an elaborated design reaches is that of one of its calls.
pub fn reached_trees_are_called()
    ensures { (d : Design) (e : Elaborated) → DesignElaborates d (Ok e) → (path : List ℕ) → IsReachedPath e.tree path
        → (y : ElaboratedCall) × Has e.calls y × (y.tree ≡ tree_at e.tree path) }
{
    elaborated_trees();
    elaborated_trees_are_whole();
    elaborated_calls_are_closed();
}
