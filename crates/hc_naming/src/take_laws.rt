ghost use Rattle.std.specs.Prelude.{[], ◌+◌, ◌<◌, ◌≤◌, ◌^◌, ℕ, List, length};
ghost use Rattle.hc_naming.specs.ModuleNames.{Named, Takes, Wants, wanted};
ghost use Rattle.hc_signal.specs.Graph.{Graph};

use hc_names::names_can_be_mangled;

/// Wanted names can be taken, in their order; so can those of a circuit whose rows and ports have numbers of 32 bits.
pub fn names_can_be_taken()
    ensures wants { (used : List (List ℕ)) (wants : Wants) → length used + length wants < 2 ^ 64 → (given : List (Named × List ℕ)) × Takes used wants given }
    ensures graph { (g : Graph) → length g.ports.inputs ≤ 4294967296 → length g.ports.outputs ≤ 4294967296 → length g.nodes ≤ 4294967296 → length g.memories ≤ 4294967296 → length g.instances ≤ 4294967296
        → (given : List (Named × List ℕ)) × Takes [] (wanted g) given }
{
    names_can_be_mangled();
}
