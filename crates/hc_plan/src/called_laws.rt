//! The calls of a hierarchy are those of the elaborated design that it stands for, and so are the entries of its database.
ghost use Rattle.std.specs.Prelude.{List, IsPermutation, map};
ghost use Rattle.hc_canon.specs.FormView.{FormView};
ghost use Rattle.hc_dbstate.specs.declared.hier.Hier.{Hier};
ghost use Rattle.hc_dbstate.specs.declared.turns.Turn.{Turn};
ghost use Rattle.hc_dbstate.specs.Elaboration.{CallView, walk};
ghost use Rattle.hc_dbstate.specs.History.{History, IsLegal};
ghost use Rattle.hc_plan.specs.Distinct.{AreDistinct};
ghost use Rattle.hc_plan.specs.Elaborates.{Elaborated, ElaboratedCall};
ghost use Rattle.hc_plan.specs.Hierarchies.{AreCalled, AreEntriesOf, IsCallFor, IsHierarchyFor};
ghost use Rattle.hc_signal.specs.Member.{Has};

use hc_dbstate::{entries_are_named, trees_have_one_entry};

/// Each call of a hierarchy stands for a call of its elaborated design, and each of those has one that stands for it.
pub fn calls_stand_for_calls()
    ensures elaborated { (entries : List FormView) (hier : Hier) (e : Elaborated) (view : CallView) → IsHierarchyFor entries hier e → Has (walk hier) view → (c : ElaboratedCall) × Has e.calls c × IsCallFor entries view c }
    ensures walked { (entries : List FormView) (hier : Hier) (e : Elaborated) (c : ElaboratedCall) → IsHierarchyFor entries hier e → Has e.calls c → (view : CallView) × Has (walk hier) view × IsCallFor entries view c }
{}

/// Where the turns of a legal history are those of the distinct calls of an elaborated design, in any order, each entry is
/// that of a call of its hierarchy.
pub fn entries_are_called()
    ensures { (h : History) (hier : Hier) (e : Elaborated) (firsts order : List ElaboratedCall) → IsLegal h → IsHierarchyFor h.entries hier e → AreDistinct e.calls firsts → IsPermutation order firsts
        → AreEntriesOf h.entries (map (λ (t : Turn). t.entry) h.turns) order → AreCalled h.entries hier }
{
    entries_are_named();
    trees_have_one_entry();
}
