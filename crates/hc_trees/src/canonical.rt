ghost use Rattle.std.specs.Prelude.{◌<◌, ◌≤◌, ℕ, length};
ghost use Rattle.hc_canon.specs.Numbering.{IsCanonical};
ghost use Rattle.hc_signal.specs.Graph.{Graph, Reached, inst, mem, node};

/// In a canonical circuit the outputs reach every memory and instance, and every node past the inputs, which stand first.
pub fn canonical_rows_are_reached()
    ensures nodes { (g : Graph) (n : ℕ) → IsCanonical g → length g.ports.inputs ≤ n → n < length g.nodes → Reached g (node n) }
    ensures memories { (g : Graph) (m : ℕ) → IsCanonical g → m < length g.memories → Reached g (mem m) }
    ensures instances { (g : Graph) (i : ℕ) → IsCanonical g → i < length g.instances → Reached g (inst i) }
{}
