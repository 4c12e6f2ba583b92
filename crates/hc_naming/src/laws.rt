ghost use Rattle.std.specs.Prelude.{◌≡◌, ℕ, List};
ghost use Rattle.hc_naming.specs.ModuleNames.{Named, Takes, Wants};

/// Wanted names are given in one way.
pub fn names_taken_are_single()
    ensures { (used : List (List ℕ)) (wants : Wants) (a b : List (Named × List ℕ)) → Takes used wants a → Takes used wants b → a ≡ b }
{}
