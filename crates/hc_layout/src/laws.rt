//! Laws of the numbers of instances.
ghost use Rattle.std.specs.Prelude.{◌≡◌, ◌+◌, ◌<◌, ℕ, List, ◌∷◌, Some, length, slice_get};
ghost use Rattle.hc_canon.specs.declared.form.EntryId.{EntryId};
ghost use Rattle.hc_canon.specs.FormView.{FormView};
ghost use Rattle.hc_steps.specs.Compiled.{PlanView, tables_of};
ghost use Rattle.hc_dbstate.specs.History.{History, IsLegal};
ghost use Rattle.hc_dbstate.specs.Unfolding.{unfolding_of};
ghost use Rattle.hc_layout.specs.Layout.{IsLayout, Layout, kids_of, place};
ghost use Rattle.hc_layout.specs.Up.{IsUp};
ghost use Rattle.hc_rows.specs.Rows.{number_of, row_at};
ghost use Rattle.hc_signal.specs.Occurrences.{IsReachedPath, graph_at, tree_at};

use hc_trees::canonical_rows_are_reached;

/// The instances that are reached are those that have a number. The tree of an instance is the unfolding of its entry, and its
/// circuit that of the entry. Each number is that of an instance.
pub fn instances_have_places()
    ensures reached { (h : History) (top : EntryId) (l : Layout) (path : List ℕ) → IsLegal h → IsLayout h.entries top l → IsReachedPath (unfolding_of h.entries top) path → (p : ℕ) × (place h.entries l path ≡ Some p) }
    ensures only { (h : History) (top : EntryId) (l : Layout) (path : List ℕ) (p : ℕ) → IsLegal h → IsLayout h.entries top l → place h.entries l path ≡ Some p → IsReachedPath (unfolding_of h.entries top) path }
    ensures trees { (h : History) (top : EntryId) (l : Layout) (path : List ℕ) (p : ℕ) → IsLegal h → IsLayout h.entries top l → place h.entries l path ≡ Some p
        → (id : EntryId) × (slice_get l.entries p ≡ Some id) × (tree_at (unfolding_of h.entries top) path ≡ unfolding_of h.entries id) }
    ensures graphs { (h : History) (top : EntryId) (l : Layout) (path : List ℕ) (p : ℕ) → IsLegal h → IsLayout h.entries top l → place h.entries l path ≡ Some p
        → (id : EntryId) × (form : FormView) × (slice_get l.entries p ≡ Some id) × (slice_get h.entries id.0 ≡ Some form) × (graph_at (unfolding_of h.entries top) path ≡ form.circuit) }
    ensures numbers { (forms : List FormView) (top : EntryId) (l : Layout) (p : ℕ) → IsLayout forms top l → p < length l.entries → (path : List ℕ) × (place forms l path ≡ Some p) }
{
    canonical_rows_are_reached();
}

/// Instances at two paths have two numbers.
pub fn places_are_apart()
    ensures { (forms : List FormView) (top : EntryId) (l : Layout) (path other : List ℕ) (p : ℕ) → IsLayout forms top l → place forms l path ≡ Some p → place forms l other ≡ Some p → path ≡ other }
{}

/// The own instances of an instance stand side by side and after it.
pub fn kids_stand_behind()
    ensures within { (forms : List FormView) (top : EntryId) (l : Layout) (path : List ℕ) (p : ℕ) → IsLayout forms top l → place forms l path ≡ Some p → p < length l.entries }
    ensures behind { (forms : List FormView) (top : EntryId) (l : Layout) (path : List ℕ) (p i q : ℕ) → IsLayout forms top l → place forms l path ≡ Some p → place forms l (i ∷ path) ≡ Some q → p < q }
    ensures beside { (forms : List FormView) (top : EntryId) (l : Layout) (path : List ℕ) (p i begin : ℕ) (id kid : EntryId) → IsLayout forms top l → place forms l path ≡ Some p → slice_get l.entries p ≡ Some id
        → slice_get l.first p ≡ Some begin → slice_get (kids_of forms id) i ≡ Some kid → (place forms l (i ∷ path) ≡ Some (begin + i)) × (slice_get l.entries (begin + i) ≡ Some kid) }
{}

/// Where a plan has a part of an instance run by one of its parts, that part of its own instance has the number which stands for
/// the part of the instance.
pub fn runs_lead_up()
    ensures { (forms : List FormView) (plans : List PlanView) (l : Layout) (up : List (List ℕ)) (path : List ℕ) (p i q a b : ℕ) (id : EntryId) (plan : PlanView) → IsUp forms plans l up
        → place forms l path ≡ Some p → place forms l (i ∷ path) ≡ Some q → slice_get l.entries p ≡ Some id → slice_get plans id.0 ≡ Some plan
        → b < length (row_at up q) → a < length plan.parts → a ≡ (tables_of plan).ran_in i b → slice_get (row_at up q) b ≡ Some (number_of up p a) }
{}
