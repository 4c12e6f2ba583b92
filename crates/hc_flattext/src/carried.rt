ghost use Rattle.hc_canon.specs.Same.{Same};
ghost use Rattle.hc_signal.specs.FlatGraph.{IsFlat};
ghost use Rattle.hc_signal.specs.Graph.{Graph};
ghost use Rattle.hc_signal.specs.Tree.{IsWhole, Tree};

/// Trees that are the same have the same flat graphs.
pub fn same_trees_flatten_alike()
    ensures { (s t : Tree) (g : Graph) → Same s t → IsWhole s → IsWhole t → IsFlat s g → IsFlat t g }
{}
