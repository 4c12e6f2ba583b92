ghost use Rattle.std.specs.Prelude.{◌≡◌, ◌<◌, ◌⊎◌, ℕ, Some, length, slice_get};
ghost use Rattle.hc_canon.specs.declared.form.EntryId.{EntryId};
ghost use Rattle.hc_canon.specs.FormView.{FormView};
ghost use Rattle.hc_dbstate.specs.declared.turns.Entered.{Entered};
ghost use Rattle.hc_dbstate.specs.History.{History, log};
ghost use Rattle.hc_turn.specs.declared.view.View.{View};
ghost use Rattle.hc_turn.specs.Views.{first_half, second_half, joined};
ghost use Rattle.hc_db.specs.Inserting.{KnowsEntry, Finds, Inserts, InsertsNothing};
ghost use Rattle.hc_db.specs.OwnTurns.{KnowsTurn, OwnsTurn};

use hc_dbstate::logs_name_entries;

/// An entry that a pass knows is there in each history that the pass finds.
pub fn known_entries_are_there()
    ensures { (v : View Entered) (h : History) (id : EntryId) → Finds v h → KnowsEntry v id → id.0 < length h.entries }
{
    logs_name_entries();
}

/// A pass knows the entry of each form that it inserted. It goes on knowing an entry through its turns, and so do both halves
/// of a pass that is split, and the pass that two are joined into.
pub fn known_entries_stay_known()
    ensures own { (v w : View Entered) (form : FormView) (id : EntryId) → Inserts v form id w → KnowsEntry w id }
    ensures inserted { (v w : View Entered) (form : FormView) (id k : EntryId) → Inserts v form id w → KnowsEntry v k → KnowsEntry w k }
    ensures refused { (v w : View Entered) (k : EntryId) → InsertsNothing v w → KnowsEntry v k → KnowsEntry w k }
    ensures halves { (v : View Entered) (k : EntryId) → KnowsEntry v k → KnowsEntry (first_half v) k × KnowsEntry (second_half v) k }
    ensures joined { (v w : View Entered) (k : EntryId) → KnowsEntry v k ⊎ KnowsEntry w k → KnowsEntry (joined v w) k }
{}

/// A pass knows the place of each of its turns, and goes on knowing it. Each history that it finds has the turn at that place, and
/// the turn's form at the turn's entry.
pub fn known_turns_stay_known()
    ensures there { (v : View Entered) (h : History) (p : ℕ) (t : Entered) → Finds v h → KnowsTurn v p t → slice_get (log h) p ≡ Some t }
    ensures form { (v : View Entered) (h : History) (p : ℕ) (t : Entered) → Finds v h → KnowsTurn v p t → slice_get h.entries t.entry.0 ≡ Some t.form }
    ensures own { (v w : View Entered) (form : FormView) (id : EntryId) → Inserts v form id w → OwnsTurn v w id form }
    ensures inserted { (v w : View Entered) (form : FormView) (id : EntryId) (p : ℕ) (t : Entered) → Inserts v form id w → KnowsTurn v p t → KnowsTurn w p t }
    ensures refused { (v w : View Entered) (p : ℕ) (t : Entered) → InsertsNothing v w → KnowsTurn v p t → KnowsTurn w p t }
    ensures halves { (v : View Entered) (p : ℕ) (t : Entered) → KnowsTurn v p t → KnowsTurn (first_half v) p t × KnowsTurn (second_half v) p t }
    ensures joined { (v w : View Entered) (p : ℕ) (t : Entered) → KnowsTurn v p t ⊎ KnowsTurn w p t → KnowsTurn (joined v w) p t }
{
    logs_name_entries();
}
