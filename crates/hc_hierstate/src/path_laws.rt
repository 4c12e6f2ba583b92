ghost use Rattle.std.specs.Prelude.{◌≡◌, ◌↔◌, ℕ, List, Some, length, slice_get};
ghost use Rattle.hc_canon.specs.declared.form.EntryId.{EntryId};
ghost use Rattle.hc_canon.specs.FormView.{FormView};
ghost use Rattle.hc_layout.specs.Layout.{IsLayout, Layout, place};
ghost use Rattle.hc_hierstate.specs.Paths.{paths};

/// There is one path for each instance, and each instance is the one at its path.
pub fn paths_are_places()
    ensures many { (forms : List FormView) (top : EntryId) (l : Layout) → IsLayout forms top l → length (paths forms l) ≡ length l.entries }
    ensures places { (forms : List FormView) (top : EntryId) (l : Layout) (path : List ℕ) (p : ℕ) → IsLayout forms top l → (slice_get (paths forms l) p ≡ Some path) ↔ (place forms l path ≡ Some p) }
{}
