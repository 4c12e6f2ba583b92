//! Wires without a driver.
ghost use Rattle.std.specs.Prelude.{◌≡◌, fold, None};
ghost use Rattle.hc_check.specs.Undriven.{least_undriven, lesser, undriven_node};

use hc_signal::{Circuit, Node};
use hc_walk::VertexId;

/// The number of the vertex, if it is a wire without a driver.
fn undriven(circuit: &Circuit, vertex: VertexId) -> Option<u32>
    ensures { result ≡ undriven_node circuit.now vertex }
{
    let VertexId::Node(id) = vertex else {
        return None;
    };
    let row = circuit.nodes().get(id.0 as usize)?;
    match row.node {
        Node::Wire { driver: None } => Some(id.0),
        _ => None,
    }
}

/// The lesser of two numbers, as far as they are there.
fn lesser(a: Option<u32>, b: Option<u32>) -> Option<u32>
    ensures { result ≡ lesser a b }
{
    match (a, b) {
        (Some(a), Some(b)) => Some(a.min(b)),
        (Some(a), None) => Some(a),
        (None, b) => b,
    }
}

/// The least node among the vertices that is a wire without a driver.
pub fn least_undriven(circuit: &Circuit, vertices: &[VertexId]) -> Option<u32>
    ensures { result ≡ least_undriven circuit.now vertices.now }
{
    vertices.iter().fold(None, |least, vertex| {
        lesser(least, undriven(circuit, *vertex))
    })
}
