//! Laws of the text of a hierarchy.
ghost use Rattle.std.specs.Prelude.{◌≡◌, ℕ, List};
ghost use Rattle.hc_canon.specs.Same.{Same};
ghost use Rattle.hc_dbstate.specs.declared.hier.Hier.{Hier};
ghost use Rattle.hc_dbstate.specs.Elaboration.{IsElaboration, hier_view};
ghost use Rattle.hc_dbstate.specs.History.{History, IsLegal};
ghost use Rattle.hc_dbstate.specs.Unfolding.{unfolding_of};
ghost use Rattle.hc_modules.specs.HierarchyText.{IsHierarchyText};
ghost use Rattle.hc_modules.specs.VerilogText.{AreAlike, IsVerilog};
ghost use Rattle.hc_names.specs.Naming.{AreNameRows, NamedTree, NameRow, named_trees};
ghost use Rattle.hc_signal.specs.Tree.{Tree};

use hc_dbstate::used_entries_are_called;

/// The text of a hierarchy over the entries of a legal history is the Verilog of their unfoldings.
pub fn texts_are_of_trees()
    ensures { (h : History) (hier : Hier) (rows : List NameRow) (text : List ℕ) → IsLegal h → IsElaboration h.entries hier → AreNameRows h.entries hier rows
        → IsHierarchyText h.entries (hier_view hier).own.entry rows text → IsVerilog (unfolding_of h.entries (hier_view hier).own.entry) (named_trees h.entries hier) text }
{
    used_entries_are_called();
}

/// Calls that request the same names for trees that are the same, below tops that are the same, have one text.
pub fn alike_calls_have_one_text()
    ensures { (top other : Tree) (calls others : List NamedTree) (text : List ℕ) → Same top other → AreAlike calls others → IsVerilog top calls text → IsVerilog other others text }
{}

/// Calls below a top have at most one text.
pub fn texts_are_single()
    ensures { (top : Tree) (calls : List NamedTree) (a b : List ℕ) → IsVerilog top calls a → IsVerilog top calls b → a ≡ b }
{}
