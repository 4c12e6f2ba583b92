ghost use Rattle.std.specs.Prelude.{◌≡◌, ◌+◌, ◌<◌, ◌≤◌, ◌^◌, ◌++◌, false, None, IfOk, OnErr, length, replicate, vec_len, vec_capacity};
ghost use Rattle.hc_signal.specs.declared.signal.Node.TheVariants as node;
ghost use Rattle.hc_signal.specs.Lawful.{ArePorts, HaveWidthsOf, NodeAt};
ghost use Rattle.hc_signal.specs.Builds.{Obeys, HasRoomForInstance, AddsInstance, HasOutput, output_rows};

use super::Builder;
use crate::signal::{InstId, Instance, Node, NodeId, NodeRow, Port, Ports};
use crate::stop::BuildStop;
use hc_fault::{ItemList, Name, NoMemory};
use std::alloc::Global;

impl Builder {
    /// Adds an instance of a circuit with these ports, connected to one node for each input, and a node for each of
    /// its outputs, in order.
    pub fn instance(&mut self, ports: &Ports, conns: &[NodeId]) -> Result<InstId, BuildStop>
        requires room { HasRoomForInstance self.old ports.now.outputs conns.now }
        requires ports { ArePorts ports.now }
        requires conns { HaveWidthsOf self.old conns.now ports.now.inputs }
        ensures made { IfOk result (AddsInstance self.old ports.now conns.now self.new) }
        ensures rule { Obeys result None }
        ensures same { OnErr result (self.new ≡ self.old) }
    {
        let outputs = ports.outputs.as_slice().len();
        let weight = 1 + 2 * conns.len() as u64 + outputs as u64;
        let instance = Instance {
            ports: copy_ports(self.alloc, ports)?,
            conns: ItemList::from_vec(Vec::from_slice(self.alloc, conns)?),
            label: None,
        };
        self.instances.reserve(1)?;
        self.first_outputs.reserve(1)?;
        self.nodes.reserve(outputs)?;
        self.is_output.reserve(outputs)?;
        let id = InstId(self.instances.len() as u32);
        self.first_outputs.push_reserved(self.nodes.len() as u32);
        self.instances.push_reserved(instance);
        push_outputs(&mut self.nodes, id, ports.outputs.as_slice());
        push_unmarked(&mut self.is_output, outputs);
        self.weight += weight;
        Ok(id)
    }

    /// The node of an output of an instance.
    pub fn out(&self, inst: InstId, port: u32) -> NodeId
        requires { HasOutput self.now inst port }
        ensures { NodeAt self.now result.0 (node.InstOut inst port) }
    {
        NodeId(self.first_outputs[inst.0 as usize] + port)
    }
}

/// Copies of ports, of their own memory.
fn copy_ports(alloc: Global, ports: &Ports) -> Result<Ports, NoMemory>
    ensures { IfOk result (λ made. made ≡ ports.now) }
{
    Ok(Ports {
        inputs: copy_list(alloc, ports.inputs.as_slice())?,
        outputs: copy_list(alloc, ports.outputs.as_slice())?,
    })
}

fn copy_list(alloc: Global, ports: &[Port]) -> Result<ItemList<Port>, NoMemory>
    ensures { IfOk result (λ made. made ≡ ports.now) }
{
    let mut made = Vec::with_capacity(alloc, ports.len())?;
    for port in ports {
        made.push(Port {
            name: Name::new(alloc, port.name.bytes())?,
            width: port.width,
        })?;
    }
    Ok(ItemList::from_vec(made))
}

/// Adds a node for each output of an instance.
fn push_outputs(nodes: &mut Vec<NodeRow>, inst: InstId, ports: &[Port])
    requires room { vec_len nodes.old + length ports.now ≤ vec_capacity nodes.old }
    requires few { length ports.now < 2 ^ 32 }
    ensures { nodes.new.items ≡ nodes.old.items ++ output_rows inst.0 0 ports.now }
{
    for (at, port) in ports.iter().enumerate() {
        nodes.push_reserved(NodeRow {
            width: port.width,
            node: Node::InstOut {
                inst,
                port: at as u32,
            },
            label: None,
        });
    }
}

/// Adds marks of nodes that are no outputs.
fn push_unmarked(marks: &mut Vec<bool>, count: usize)
    requires { vec_len marks.old + count ≤ vec_capacity marks.old }
    ensures { marks.new.items ≡ marks.old.items ++ replicate count false }
{
    for _ in 0..count {
        marks.push_reserved(false);
    }
}
