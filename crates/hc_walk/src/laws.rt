ghost use Rattle.std.specs.Prelude.{◌≡◌, ◌↔◌, ℕ, List, slice_get, Some};
ghost use Rattle.hc_signal.specs.Member.{Has};
ghost use Rattle.hc_signal.specs.Graph.{Graph, Reached, Vertex};
ghost use Rattle.hc_signal.specs.Lawful.{IsLawful};
ghost use Rattle.hc_walk.specs.DepthFirst.{NumbersTo};

/// From the outputs of a circuit there is one walk. It meets each vertex that the outputs reach, once, and no other.
pub fn one_walk()
    ensures some { (g : Graph) → IsLawful g → (end : List Vertex) × NumbersTo g end }
    ensures one { (g : Graph) (a b : List Vertex) → NumbersTo g a → NumbersTo g b → a ≡ b }
    ensures reached { (g : Graph) (end : List Vertex) (v : Vertex) → NumbersTo g end → (Has end v ↔ Reached g v) }
    ensures once { (g : Graph) (end : List Vertex) (i j : ℕ) (v : Vertex) → NumbersTo g end → slice_get end i ≡ Some v → slice_get end j ≡ Some v → i ≡ j }
{}
