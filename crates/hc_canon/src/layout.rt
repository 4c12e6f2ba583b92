ghost use Rattle.std.specs.Prelude.{◌≡◌, ◌≤◌, length, IfOk};
ghost use Rattle.hc_canon.specs.Layout.{AreNumbers, input_rows, laid_out};
ghost use Rattle.hc_walk.specs.DepthFirst.{NumbersTo};
ghost use Rattle.hc_canon.specs.Numbers.{IsOrderOf, renumbering};
ghost use Rattle.hc_walk.specs.VertexId.{vertices_of};

use crate::numbers::{Numbers, Order};
use crate::renumber::{new_ids, pick, ports_copy};
use hc_fault::{ItemList, NoMemory};
use hc_signal::{Circuit, Node, NodeRow, Port};
use hc_walk::VertexId;
use std::alloc::Global;

fn make_inputs(alloc: Global, ports: &[Port]) -> Result<Vec<NodeRow>, NoMemory>
    requires { length ports.now ≤ 128 }
    ensures { IfOk result (λ made. made.items ≡ input_rows 0 ports.now) }
{
    let mut made = Vec::new(alloc);
    'ports: for (k, port) in ports.iter().enumerate() {
        made.push(NodeRow {
            width: port.width,
            node: Node::Input { port: k as u32 },
            label: None,
        })?;
    }
    Ok(made)
}

/// The circuit in the order of the walk that ended with `met`, under its new numbers.
pub fn lay_out(
    alloc: Global,
    circuit: &Circuit,
    met: &[VertexId],
    order: &Order,
    numbers: &Numbers,
) -> Result<Circuit, NoMemory>
    requires walk { NumbersTo circuit.now (vertices_of met.now) }
    requires numbers { AreNumbers circuit.now (vertices_of met.now) (renumbering numbers.now) }
    requires order { IsOrderOf circuit.now (vertices_of met.now) order.now }
    requires few { length circuit.now.ports.inputs ≤ 128 }
    ensures { IfOk result (λ made. made ≡ laid_out circuit.now (vertices_of met.now) (renumbering numbers.now)) }
{
    circuit.lawful();
    let _ = met;
    let ports = ports_copy(alloc, circuit.ports())?;
    let outputs = new_ids(alloc, numbers, circuit.outputs())?;
    let inputs = make_inputs(alloc, circuit.ports().inputs.as_slice())?;
    let nodes = pick(
        alloc,
        numbers,
        circuit.nodes(),
        order.nodes.as_slice(),
        inputs,
    )?;
    let memories = pick(
        alloc,
        numbers,
        circuit.memories(),
        order.memories.as_slice(),
        Vec::new(alloc),
    )?;
    let instances = pick(
        alloc,
        numbers,
        circuit.instances(),
        order.instances.as_slice(),
        Vec::new(alloc),
    )?;
    Ok(Circuit::of_parts(
        ports,
        outputs,
        ItemList::from_vec(nodes),
        ItemList::from_vec(memories),
        ItemList::from_vec(instances),
    ))
}
