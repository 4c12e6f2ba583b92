ghost use Rattle.std.specs.Prelude.{◌≡◌, ◌↔◌, ◌<◌, ◌++◌, ℕ, List, [], Some, length, slice_get, true};
ghost use Rattle.hc_canon.specs.declared.form.EntryId.{EntryId};
ghost use Rattle.hc_canon.specs.FormView.{FormView, IsCanonOf};
ghost use Rattle.hc_canon.specs.Same.{Same};
ghost use Rattle.hc_dbstate.specs.declared.turns.Entered.{Entered};
ghost use Rattle.hc_dbstate.specs.declared.turns.Turn.{Turn};
ghost use Rattle.hc_dbstate.specs.History.{History, IsLegal, entered, log};
ghost use Rattle.hc_dbstate.specs.Insertion.{IsInserted, Replays};
ghost use Rattle.hc_dbstate.specs.Unfolding.{AreDenoted, tree_of, unfolding_of};
ghost use Rattle.hc_signal.specs.Graph.{Graph};
ghost use Rattle.hc_signal.specs.Member.{Has};
ghost use Rattle.hc_signal.specs.Tree.{Tree, tree};

/// The log of a legal history has each turn in its place, with the form of the entry that the turn names.
pub fn logs_name_entries()
    ensures many { (h : History) → IsLegal h → length (log h) ≡ length h.turns }
    ensures turns { (h : History) → IsLegal h → (k : ℕ) (t : Turn) → slice_get h.turns k ≡ Some t → (form : FormView) × (slice_get h.entries t.entry.0 ≡ Some form) × (slice_get (log h) k ≡ Some (entered t.entry t.fresh form)) }
    ensures forms { (h : History) (e : Entered) → IsLegal h → Has (log h) e → slice_get h.entries e.entry.0 ≡ Some e.form }
{}

/// Each entry of a legal history is named by the turn that it was new in.
pub fn entries_are_named()
    ensures { (h : History) (id : EntryId) → IsLegal h → id.0 < length h.entries → (t : Turn) × Has h.turns t × (t.fresh ≡ true) × (t.entry ≡ id) }
{}

/// The forms of the log of a legal history, inserted one after another into nothing, get the answers of the log and leave
/// its entries.
pub fn logs_replay()
    ensures { (h : History) → IsLegal h → Replays [] (log h) h.entries }
{}

/// The log fixes the history. Where one log begins another, the entries of the first begin those of the second.
pub fn entries_grow_with_the_log()
    ensures single { (h g : History) → IsLegal h → IsLegal g → log h ≡ log g → h ≡ g }
    ensures grown { (h g : History) (rest : List Entered) → IsLegal h → IsLegal g → log g ≡ log h ++ rest → (more : List FormView) × (g.entries ≡ h.entries ++ more) }
{}

/// An entry keeps its form: through an insertion, and as the log grows.
pub fn entries_keep_their_forms()
    ensures inserted { (old new : History) (form : FormView) (id : EntryId) → IsInserted old new form id → (entry : EntryId) (kept : FormView) → slice_get old.entries entry.0 ≡ Some kept → slice_get new.entries entry.0 ≡ Some kept }
    ensures grown { (h g : History) (rest : List Entered) → IsLegal h → IsLegal g → log g ≡ log h ++ rest → (entry : EntryId) (kept : FormView) → slice_get h.entries entry.0 ≡ Some kept → slice_get g.entries entry.0 ≡ Some kept }
{}

/// In a legal history an entry's unfolding is its circuit with the unfoldings of its kids, and stays so as entries are added.
pub fn unfoldings_are_of_kids()
    ensures kids { (h : History) (id : EntryId) (form : FormView) → IsLegal h → slice_get h.entries id.0 ≡ Some form → unfolding_of h.entries id ≡ tree_of h.entries form }
    ensures stays { (h : History) (id : EntryId) (more : List FormView) → IsLegal h → id.0 < length h.entries → unfolding_of (h.entries ++ more) id ≡ unfolding_of h.entries id }
{}

/// In a legal history two unfoldings are the same exactly where their entries are equal.
pub fn entries_unfold_once()
    ensures { (h : History) (i j : EntryId) → IsLegal h → i.0 < length h.entries → j.0 < length h.entries → Same (unfolding_of h.entries i) (unfolding_of h.entries j) ↔ (i ≡ j) }
{}

/// For entries that denote trees in a legal history, forms of circuits with these entries are equal exactly where the circuits
/// with those trees are the same.
pub fn made_forms_tell_trees_apart()
    ensures { (h : History) (f g : Graph) (ids others : List EntryId) (s t : ℕ → Tree) (a b : FormView) → IsLegal h → AreDenoted h.entries ids s → AreDenoted h.entries others t
        → IsCanonOf f ids a → IsCanonOf g others b → (a ≡ b) ↔ Same (tree f s) (tree g t) }
{}
