//! Laws of the turns of legal histories, and of the entries that they name.
ghost use Rattle.std.specs.Prelude.{◌≡◌, ◌<◌, length, map};
ghost use Rattle.hc_canon.specs.declared.form.EntryId.{EntryId};
ghost use Rattle.hc_dbstate.specs.declared.turns.Entered.{Entered};
ghost use Rattle.hc_dbstate.specs.declared.turns.Turn.{Turn};
ghost use Rattle.hc_dbstate.specs.History.{History, IsLegal, log};
ghost use Rattle.hc_dbstate.specs.Unfolding.{Denotes};
ghost use Rattle.hc_signal.specs.Tree.{Tree};

use hc_canon::same_is_an_equivalence;

/// The log of a legal history names the entries that its turns name, in order.
pub fn logs_have_the_turns()
    ensures { (h : History) → IsLegal h → map (λ (x : Entered). x.entry) (log h) ≡ map (λ (t : Turn). t.entry) h.turns }
{}

/// At most one entry of a legal history denotes a tree.
pub fn trees_have_one_entry()
    ensures { (h : History) (i j : EntryId) (t : Tree) → IsLegal h → i.0 < length h.entries → j.0 < length h.entries → Denotes h.entries i t → Denotes h.entries j t → i ≡ j }
{
    same_is_an_equivalence();
}
