ghost use Rattle.std.specs.Prelude.{◌+◌, ◌<◌, ◌^◌, ℕ, List, length};
ghost use Rattle.hc_names.specs.Mangling.{IsMangled};
ghost use Rattle.hc_names.specs.Naming.{AreNames, NamedTree};

/// Each name has a mangled form.
pub fn names_can_be_mangled()
    ensures { (name : List ℕ) (used : List (List ℕ)) → length used < 2 ^ 64 → (result : List ℕ) × IsMangled name used result }
{}

/// No calls are without names.
pub fn calls_can_be_named()
    ensures { (calls : List NamedTree) → length calls < 2 ^ 64 → ((names : List (List ℕ)) → AreNames calls names → ⊥) → ⊥ }
{}
