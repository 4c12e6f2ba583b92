use hc_signal::{InstId, MemId, NodeId};

/// A vertex of a circuit's graph: a node, a memory or an instance, by its number.
#[derive(Clone, Copy, PartialEq, Eq)]
pub enum VertexId {
    Node(NodeId),
    Memory(MemId),
    Instance(InstId),
}
