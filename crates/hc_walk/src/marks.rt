//! Which vertices were met.
ghost use Rattle.std.specs.Prelude.{◌≡◌, false, true, slice_index_or, slice_set, IfOk};
ghost use Rattle.hc_walk.specs.VertexId.{vertex_of};
ghost use Rattle.hc_walk.specs.Walking.{is_marked, no_marks, with_mark};

use crate::vertex::VertexId;
use hc_fault::NoMemory;
use hc_signal::Circuit;
use std::alloc::Global;
use std::marker::Model;

/// A mark for each vertex of a circuit.
#[derive(Drop)]
pub struct Marks {
    nodes: Vec<bool>,
    memories: Vec<bool>,
    instances: Vec<bool>,
}

impl Model for Marks {
    ghost use Rattle.hc_walk.specs.Walking.{Marking};

    ghost Value = { Marking };

    ghost view = { λ marks. record { nodes = marks.nodes.items; memories = marks.memories.items; instances = marks.instances.items } };
}

impl Marks {
    /// No vertex of the circuit is marked.
    pub fn new(alloc: Global, circuit: &Circuit) -> Result<Marks, NoMemory>
        ensures { IfOk result (λ marks. marks ≡ no_marks circuit.now) }
    {
        let nodes = vec![in alloc; false; circuit.nodes().len()]?;
        let memories = vec![in alloc; false; circuit.memories().len()]?;
        let instances = vec![in alloc; false; circuit.instances().len()]?;
        Ok(Marks {
            nodes,
            memories,
            instances,
        })
    }

    pub fn is_marked(&self, vertex: VertexId) -> bool
        ensures { result ≡ is_marked self.now (vertex_of vertex) }
    {
        match vertex {
            VertexId::Node(id) => bit(self.nodes.as_slice(), id.0),
            VertexId::Memory(id) => bit(self.memories.as_slice(), id.0),
            VertexId::Instance(id) => bit(self.instances.as_slice(), id.0),
        }
    }

    /// Marks a vertex. One that the circuit does not have changes nothing.
    pub fn mark(&mut self, vertex: VertexId)
        ensures { self.new ≡ with_mark self.old (vertex_of vertex) }
    {
        match vertex {
            VertexId::Node(id) => set_bit(&mut self.nodes, id.0),
            VertexId::Memory(id) => set_bit(&mut self.memories, id.0),
            VertexId::Instance(id) => set_bit(&mut self.instances, id.0),
        }
    }
}

fn bit(bits: &[bool], at: u32) -> bool
    ensures { result ≡ slice_index_or bits.now at false }
{
    bits.get(at as usize).copied().unwrap_or(false)
}

#[tactic(auto, using(std::proofs::lemmas::List::set_past))]
fn set_bit(bits: &mut Vec<bool>, at: u32)
    ensures { bits.new.items ≡ slice_set bits.old.items at true }
{
    if let Some(bit) = bits.get_mut(at as usize) {
        *bit = true;
    }
}
