//! The nodes that the outputs of a circuit reach.
ghost use Rattle.std.specs.Prelude.{◌≡◌, ◌↔◌, IfOk};
ghost use Rattle.hc_paths.specs.Order.{nodes_among};
ghost use Rattle.hc_signal.specs.Graph.{node, Reached};
ghost use Rattle.hc_signal.specs.Member.{Has};
ghost use Rattle.hc_signal.specs.declared.signal.NodeId.{NodeId};

use hc_fault::NoMemory;
use hc_signal::{Circuit, NodeId};
use hc_walk::{VertexId, walk};
use std::alloc::Global;

/// The nodes among these vertices.
fn nodes_among(alloc: Global, vertices: &[VertexId]) -> Result<Vec<NodeId>, NoMemory>
    ensures { IfOk result (λ ids. ids.items ≡ nodes_among vertices.now) }
{
    let mut ids = Vec::new(alloc);
    'vertices: for vertex in vertices {
        if let VertexId::Node(id) = vertex {
            ids.push(*id)?;
        }
    }
    Ok(ids)
}

/// The nodes that the outputs reach.
pub fn reached(alloc: Global, circuit: &Circuit) -> Result<Vec<NodeId>, NoMemory>
    ensures { IfOk result (λ ids. (n : NodeId) → Has ids.items n ↔ Reached circuit.now (node n.0)) }
{
    let met = walk(alloc, circuit)?;
    let ids = nodes_among(alloc, met.as_slice())?;
    Ok(ids)
}
