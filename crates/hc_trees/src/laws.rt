ghost use Rattle.std.specs.Prelude.{◌≡◌, ◌↔◌, ℕ, List};
ghost use Rattle.hc_canon.specs.Same.{Same};
ghost use Rattle.hc_signal.specs.Occurrences.{AreMasks, DependsOn, HasCombLoop};
ghost use Rattle.hc_signal.specs.Tree.{Tree, graph};
ghost use Rattle.hc_trees.specs.Twins.{HavePartners};

/// Trees that are the same have the same ports, loops, dependences and masks.
pub fn same_trees_are_alike()
    ensures ports { (s t : Tree) → Same s t → (graph s).ports ≡ (graph t).ports }
    ensures loops { (s t : Tree) → Same s t → HasCombLoop s ↔ HasCombLoop t }
    ensures depends { (s t : Tree) → Same s t → (output input : ℕ) → DependsOn s output input ↔ DependsOn t output input }
    ensures masks { (s t : Tree) (masks : List ℕ) → Same s t → AreMasks s masks → AreMasks t masks }
{}

/// Trees that are the same have partners for all that is reached, which are computed from partners.
pub fn same_trees_have_partners()
    ensures { HavePartners }
{}
