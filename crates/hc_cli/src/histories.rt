//! The history of an elaboration.
ghost use Rattle.std.specs.Prelude.{[], IsPermutation};
ghost use Rattle.hc_cli.specs.Histories.{IsHistoryInOrder, IsHistoryOf, no_history};
ghost use Rattle.hc_db.specs.Inserting.{Finds};
ghost use Rattle.hc_dbstate.specs.declared.hier.Hier.{Hier};
ghost use Rattle.hc_dbstate.specs.declared.turns.Entered.{Entered};
ghost use Rattle.hc_dbstate.specs.History.{History, IsLegal, log};
ghost use Rattle.hc_lang.specs.declared.tree.Design.{Design};
ghost use Rattle.hc_plan.specs.Elaborates.{Elaborated};
ghost use Rattle.hc_plan.specs.Hierarchies.{AreCalled, IsHierarchyFor, LogsDistinct};
ghost use Rattle.hc_turn.specs.declared.view.View.{View};
ghost use Rattle.hc_turn.specs.Views.{places_of, whole};
ghost use Rattle.hc_workers.specs.Owning.{OwnsDistinct};

use hc_dbstate::{logs_have_the_turns, trees_have_one_entry};
use hc_plan::{calls_stand_for_calls, entries_are_called};

/// The history of an elaboration into an empty database is that of its calls, in order, and it has no entry but theirs.
pub(crate) fn elaborations_have_histories()
    ensures called { (h : History) (hier : Hier) (e : Elaborated) → IsLegal h → IsHierarchyFor h.entries hier e → LogsDistinct no_history h e → AreCalled h.entries hier }
    ensures history { (h : History) (hier : Hier) (e : Elaborated) → IsLegal h → IsHierarchyFor h.entries hier e → LogsDistinct no_history h e → IsHistoryInOrder h e.calls }
{
    calls_stand_for_calls();
    entries_are_called();
    logs_have_the_turns();
    trees_have_one_entry();
}

/// The history that a pass finds is that of the calls of an elaboration, and it has no entry but theirs, where the places of its
/// turns are those of the elaboration alone.
pub(crate) fn owned_turns_are_histories()
    ensures hierarchy { (d : Design) (w : View Entered) (hier : Hier) (h : History) → (owns : OwnsDistinct d (whole []) w hier) → Finds w h → IsHierarchyFor h.entries hier owns.e }
    ensures called { (d : Design) (w : View Entered) (hier : Hier) (h : History) → IsLegal h → (owns : OwnsDistinct d (whole []) w hier) → Finds w h → IsPermutation (places_of (log h)) w.mine → AreCalled h.entries hier }
    ensures history { (d : Design) (w : View Entered) (hier : Hier) (h : History) → IsLegal h → (owns : OwnsDistinct d (whole []) w hier) → Finds w h → IsPermutation (places_of (log h)) w.mine → IsHistoryOf h owns.e.calls }
{
    calls_stand_for_calls();
    entries_are_called();
    logs_have_the_turns();
    trees_have_one_entry();
}
