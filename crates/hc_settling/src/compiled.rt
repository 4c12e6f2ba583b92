ghost use Rattle.std.specs.Prelude.{◌≡◌, ◌<◌, ℕ, List, length};
ghost use Rattle.hc_canon.specs.declared.form.EntryId.{EntryId};
ghost use Rattle.hc_canon.specs.FormView.{FormView};
ghost use Rattle.hc_steps.specs.Compiled.{AreCompiled, PlanView, circuit_in, entry_in};
ghost use Rattle.hc_dbstate.specs.History.{History, IsLegal};
ghost use Rattle.hc_dbstate.specs.Unfolding.{unfolding_of};
ghost use Rattle.hc_settling.specs.Compiled.{IsEntryAt, entry_at, parts_at, tables_at};
ghost use Rattle.hc_settling.specs.Known.{ArePlans};
ghost use Rattle.hc_settling.specs.Tables.{AreTablesOf};
ghost use Rattle.hc_signal.specs.Occurrences.{IsReachedPath, graph_at};

/// In a legal history the instance at a reached path of an unfolding is of an entry that the top uses, and its circuit is that
/// of its entry.
pub fn unfoldings_are_of_entries()
    ensures circuits { (h : History) (top : EntryId) (path : List ℕ) → IsLegal h → graph_at (unfolding_of h.entries top) path ≡ circuit_in (entry_in h.entries (entry_at h.entries top path)) }
    ensures entries { (h : History) (top : EntryId) (path : List ℕ) → IsLegal h → top.0 < length h.entries → IsReachedPath (unfolding_of h.entries top) path
        → (id : EntryId) × (form : FormView) × IsEntryAt h.entries top path id form }
{}

/// The compiled plans of the entries that the top uses are plans of all instances of its unfolding, with their tables.
pub fn compiled_entries_plan_their_unfolding()
    ensures plans { (h : History) (top : EntryId) (plans : List PlanView) → IsLegal h → top.0 < length h.entries → AreCompiled h.entries top plans
        → ArePlans (unfolding_of h.entries top) (parts_at h.entries plans top) }
    ensures tables { (h : History) (top : EntryId) (plans : List PlanView) → IsLegal h → top.0 < length h.entries → AreCompiled h.entries top plans
        → AreTablesOf (unfolding_of h.entries top) (parts_at h.entries plans top) (tables_at h.entries plans top) }
{}
