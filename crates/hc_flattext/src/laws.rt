ghost use Rattle.std.specs.Prelude.{◌≡◌, ℕ, List};
ghost use Rattle.hc_canon.specs.Same.{Same};
ghost use Rattle.hc_flattext.specs.FlatText.{IsFlatText};
ghost use Rattle.hc_signal.specs.FlatGraph.{IsFlat};
ghost use Rattle.hc_signal.specs.Graph.{Graph};
ghost use Rattle.hc_signal.specs.Tree.{IsWhole, Tree, leaf};

/// Two flat graphs of one tree are isomorphic.
pub fn flat_graphs_are_isomorphic()
    ensures { (t : Tree) (g h : Graph) → IsWhole t → IsFlat t g → IsFlat t h → Same (leaf g) (leaf h) }
{}

/// A tree has one flat text under a title.
pub fn flat_texts_are_single()
    ensures { (t : Tree) (title a b : List ℕ) → IsWhole t → IsFlatText t title a → IsFlatText t title b → a ≡ b }
{}
