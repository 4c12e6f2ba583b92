//! Laws of what is waited for.
ghost use Rattle.std.specs.Prelude.{◌≡◌, ◌≤◌, ℕ, List, Some, slice_get, slice_index_or, IsBitSet};
ghost use Rattle.hc_draft.specs.Needs.{NeedsBit, needs_of_nodes, swept};
ghost use Rattle.hc_paths.specs.Digraph.{AllDifferent, IsSorted};
ghost use Rattle.hc_paths.specs.Fanin.{local_fanin};
ghost use Rattle.hc_paths.specs.Local.{LocalPath};
ghost use Rattle.hc_paths.specs.Order.{IsLocalOrder};
ghost use Rattle.hc_signal.specs.Graph.{Graph};
ghost use Rattle.hc_signal.specs.Lawful.{IsLawful, NodeAt};
ghost use Rattle.hc_signal.specs.Member.{Has};
ghost use Rattle.hc_signal.specs.declared.signal.Node.TheVariants.{Input};
ghost use Rattle.hc_signal.specs.declared.signal.NodeId.{NodeId};

/// After a sweep along an order, readers first, what a node is computed from waits for no more than the node. A node goes on
/// waiting for an input that leads to it.
pub fn sweeps_order_needs()
    ensures within { (next : ℕ → List NodeId) (order : List NodeId) (masks : List ℕ) → AllDifferent order → IsSorted next order
        → (n m : NodeId) → Has order n → Has (next n.0) m → (k : ℕ) → NeedsBit (swept next order masks) m k → NeedsBit (swept next order masks) n k }
    ensures keeps { (g : Graph) (kids : List (List ℕ)) (order : List NodeId) (masks : List ℕ)
        → (k : ℕ) → ((n : NodeId) (m : ℕ) → NodeAt g m (Input k) → LocalPath g kids n.0 m → NeedsBit masks n k)
        → (n : NodeId) (m : ℕ) → NodeAt g m (Input k) → LocalPath g kids n.0 m → NeedsBit (swept (local_fanin g kids) order masks) n k }
{}

/// What a node is computed from waits for no more than the node. A node waits for an input that leads to it, where each output
/// does that the input leads to.
pub fn needs_are_ordered()
    ensures operands { (g : Graph) (kids : List (List ℕ)) (order : List NodeId) (own : List ℕ) (every : ℕ) → IsLawful g → IsLocalOrder g kids order
        → (n m : NodeId) → Has order n → Has (local_fanin g kids n.0) m → (k : ℕ) → NeedsBit (needs_of_nodes g kids order own every) m k → NeedsBit (needs_of_nodes g kids order own every) n k }
    ensures inputs { (g : Graph) (kids : List (List ℕ)) (order : List NodeId) (own : List ℕ) (every : ℕ) → IsLawful g → IsLocalOrder g kids order
        → (k : ℕ) → IsBitSet every k → ((output m : ℕ) (n : NodeId) → slice_get g.outputs output ≡ Some n → NodeAt g m (Input k) → LocalPath g kids n.0 m → IsBitSet (slice_index_or own output 0) k)
        → (n : NodeId) (m : ℕ) → Has order n → NodeAt g m (Input k) → LocalPath g kids n.0 m → NeedsBit (needs_of_nodes g kids order own every) n k }
{}

/// A mask within another is no larger a number: where parts stand by their masks, those that come before a part stand before it.
pub fn masks_within_come_first()
    ensures { (a b : ℕ) → ((k : ℕ) → IsBitSet a k → IsBitSet b k) → a ≤ b }
{}
