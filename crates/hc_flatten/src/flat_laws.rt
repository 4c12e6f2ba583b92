ghost use Rattle.std.specs.Prelude.{◌≤◌, ℕ, List};
ghost use Rattle.hc_flatten.specs.Flattened.{flat_graph};
ghost use Rattle.hc_flatten.specs.Sizes.{memories_in, nodes_in, total};
ghost use Rattle.hc_signal.specs.Checked.{IsChecked};
ghost use Rattle.hc_signal.specs.FlatGraph.{IsFlat};
ghost use Rattle.hc_signal.specs.Lawful.{IsLawful};
ghost use Rattle.hc_signal.specs.Occurrences.{graph_at, tree_at};
ghost use Rattle.hc_signal.specs.Tree.{IsWhole, Tree};

/// A whole tree of checked circuits has a flat graph, which is lawful where its rows have numbers of 32 bits.
pub fn flat_graphs_exist()
    ensures flat { (t : Tree) → IsWhole t → ((path : List ℕ) → IsWhole (tree_at t path) → IsChecked (graph_at t path)) → IsFlat t (flat_graph t) }
    ensures lawful { (t : Tree) → IsWhole t → ((path : List ℕ) → IsWhole (tree_at t path) → IsChecked (graph_at t path)) → total nodes_in t ≤ 4294967296 → total memories_in t ≤ 4294967296 → IsLawful (flat_graph t) }
{}
