//! Laws of elaborations over the entries of a legal history.
ghost use Rattle.std.specs.Prelude.{◌≡◌, ◌<◌, ◌++◌, ℕ, List, length};
ghost use Rattle.hc_canon.specs.declared.form.EntryId.{EntryId};
ghost use Rattle.hc_canon.specs.FormView.{FormView};
ghost use Rattle.hc_dbstate.specs.declared.hier.Hier.{Hier};
ghost use Rattle.hc_dbstate.specs.declared.turns.Entered.{Entered};
ghost use Rattle.hc_dbstate.specs.Elaboration.{CallView, IsCallOver, IsElaboration, IsMade, hier_view, walk};
ghost use Rattle.hc_dbstate.specs.History.{History, IsLegal, log};
ghost use Rattle.hc_dbstate.specs.Unfolding.{AreChecked, Denotes, unfolding_of};
ghost use Rattle.hc_dbstate.specs.Uses.{Uses};
ghost use Rattle.hc_signal.specs.Graph.{Graph};
ghost use Rattle.hc_signal.specs.Lawful.{IsLawful};
ghost use Rattle.hc_signal.specs.Member.{Has};
ghost use Rattle.hc_signal.specs.Occurrences.{AreMasks, HasCombLoop};
ghost use Rattle.hc_signal.specs.Tree.{IsWhole, Tree, tree};

/// Elaborations in a legal history unfold to whole trees of checked circuits, and so does each of their calls.
pub fn elaborations_unfold_whole()
    ensures top { (h : History) (hier : Hier) → IsLegal h → IsElaboration h.entries hier → IsWhole (unfolding_of h.entries (hier_view hier).own.entry) × AreChecked (unfolding_of h.entries (hier_view hier).own.entry) }
    ensures calls { (h : History) (hier : Hier) (call : CallView) → IsLegal h → IsElaboration h.entries hier → Has (walk hier) call → IsWhole (unfolding_of h.entries call.own.entry) × AreChecked (unfolding_of h.entries call.own.entry) }
{}

/// The entries that the top of an elaboration uses are entries of its calls.
pub fn used_entries_are_called()
    ensures top { (entries : List FormView) (hier : Hier) → IsElaboration entries hier → (hier_view hier).own.entry.0 < length entries }
    ensures called { (entries : List FormView) (hier : Hier) (id : EntryId) → IsElaboration entries hier → Uses entries (hier_view hier).own.entry id → (call : CallView) × Has (walk hier) call × (call.own.entry ≡ id) }
{}

/// As the log grows, lawful calls stay lawful, and hierarchies stay elaborations.
pub fn elaborations_stay()
    ensures calls { (h g : History) (rest : List Entered) (call : CallView) → IsLegal h → IsLegal g → log g ≡ log h ++ rest → IsCallOver h.entries call → IsCallOver g.entries call }
    ensures hierarchies { (h g : History) (rest : List Entered) (hier : Hier) → IsLegal h → IsLegal g → log g ≡ log h ++ rest → IsElaboration h.entries hier → IsElaboration g.entries hier }
{}

/// A call made of a circuit and the calls of its instances denotes the tree of both. It is lawful where its unfolding has no
/// loop and the masks that it says; trees that are the same have both alike.
pub fn made_calls_are_lawful()
    ensures denotes { (h : History) (circuit : Graph) (trees : ℕ → Tree) (call : CallView) → IsLegal h → IsMade h.entries circuit trees call → Denotes h.entries call.own.entry (tree circuit trees) }
    ensures lawful { (h : History) (circuit : Graph) (trees : ℕ → Tree) (call : CallView) → IsLegal h → IsLawful circuit → IsMade h.entries circuit trees call
        → ¬ HasCombLoop (unfolding_of h.entries call.own.entry) → AreMasks (unfolding_of h.entries call.own.entry) call.own.masks → IsCallOver h.entries call }
{}
