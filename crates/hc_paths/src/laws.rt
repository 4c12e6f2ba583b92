ghost use Rattle.std.specs.Prelude.{◌↔◌, ℕ, List};
ghost use Rattle.hc_paths.specs.Local.{AreMasksOfKids, DependsLocally, HasLocalLoop};
ghost use Rattle.hc_signal.specs.Lawful.{IsLawful};
ghost use Rattle.hc_signal.specs.Occurrences.{DependsOn, HasCombLoop, HasFlatLoop};
ghost use Rattle.hc_signal.specs.Tree.{IsWhole, Tree, graph};

/// The loops of a tree and what its outputs depend on are those of its circuit with the masks of its instances.
pub fn loops_and_masks_compose()
    ensures loops { (t : Tree) (masks : List (List ℕ)) → IsLawful (graph t) → AreMasksOfKids t masks → HasCombLoop t ↔ HasLocalLoop (graph t) masks }
    ensures masks { (t : Tree) (masks : List (List ℕ)) → IsLawful (graph t) → AreMasksOfKids t masks → (output input : ℕ) → DependsOn t output input ↔ DependsLocally (graph t) masks output input }
{}

/// A loop over all nodes of a tree is one over the nodes that are left when its instances are gone, and the other way
/// round.
pub fn loops_of_flat_nodes()
    ensures { (t : Tree) → IsWhole t → HasFlatLoop t ↔ HasCombLoop t }
{}
