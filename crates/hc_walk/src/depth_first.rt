ghost use Rattle.std.specs.Prelude.{◌≡◌, ◌∷◌, ◌++◌, ◌+◌, ◌<◌, ◌↔◌, length, IfOk, OnOk};
ghost use Rattle.hc_signal.specs.Member.{Has};
ghost use Rattle.hc_signal.specs.Graph.{fanin, Reached, Vertex};
ghost use Rattle.hc_walk.specs.DepthFirst.{NumbersTo};
ghost use Rattle.hc_walk.specs.VertexId.{vertex_of, vertices_of};
ghost use Rattle.hc_walk.specs.Walking.{IsWalking, steps_left};

use crate::marks::Marks;
use crate::vertex::VertexId;
use crate::waiting::Waiting;
use hc_fault::NoMemory;
use hc_signal::Circuit;
use std::alloc::Global;

/// A walk under way.
#[derive(Drop)]
struct Search {
    marks: Marks,
    met: Vec<VertexId>,
    waiting: Waiting,
}

/// The fan-in of a vertex waits in its order, before what waits already.
fn push_fanin(circuit: &Circuit, waiting: &mut Waiting, vertex: VertexId) -> Result<(), NoMemory>
    ensures { OnOk result (waiting.new ≡ fanin circuit.now (vertex_of vertex) ++ waiting.old) }
{
    match vertex {
        VertexId::Node(id) => match circuit.nodes().get(id.0 as usize) {
            Some(row) => waiting.push_fanin(&row.node),
            None => Ok(()),
        },
        VertexId::Memory(id) => match circuit.memories().get(id.0 as usize) {
            Some(memory) => waiting.push_writes(memory.writes.as_slice()),
            None => Ok(()),
        },
        VertexId::Instance(id) => match circuit.instances().get(id.0 as usize) {
            Some(instance) => waiting.push_ids(instance.conns.as_slice()),
            None => Ok(()),
        },
    }
}

impl Search {
    /// Walks a vertex, the next of those that wait.
    fn step(&mut self, circuit: &Circuit, vertex: VertexId) -> Result<(), NoMemory>
        requires { IsWalking circuit.now self.old.marks (vertices_of self.old.met.items) (vertex_of vertex ∷ self.old.waiting) }
        ensures walking { OnOk result (IsWalking circuit.now self.new.marks (vertices_of self.new.met.items) self.new.waiting) }
        ensures nearer { OnOk result (steps_left circuit.now self.new.marks self.new.waiting < steps_left circuit.now self.old.marks (vertex_of vertex ∷ self.old.waiting)) }
    {
        circuit.lawful();
        if self.marks.is_marked(vertex) {
            return Ok(());
        }
        self.marks.mark(vertex);
        self.met.push(vertex)?;
        push_fanin(circuit, &mut self.waiting, vertex)
    }
}

/// The vertices that the outputs reach, each once, in the order in which a depth-first walk meets them. Only want of
/// memory is refused.
pub fn walk(alloc: Global, circuit: &Circuit) -> Result<Vec<VertexId>, NoMemory>
    ensures in_order { IfOk result (λ met. NumbersTo circuit.now (vertices_of met.items)) }
    ensures reached { IfOk result (λ met. (v : Vertex) → Has (vertices_of met.items) v ↔ Reached circuit.now v) }
{
    let mut search = Search {
        marks: Marks::new(alloc, circuit)?,
        met: Vec::new(alloc),
        waiting: Waiting::new(alloc),
    };
    search.waiting.push_ids(circuit.outputs())?;
    'walk: while let Some(vertex) = search.waiting.pop() {
        search.step(circuit, vertex)?;
    }
    Ok(search.met)
}
