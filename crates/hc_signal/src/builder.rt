ghost use Rattle.std.specs.Prelude.{◌≡◌, ◌+◌, ◌≤◌, [], length, slice_get, Some};
ghost use Rattle.hc_bits.specs.BitVector.{IsWidth};
ghost use Rattle.hc_signal.specs.Graph.{Graph};
ghost use Rattle.hc_signal.specs.Tree.{empty};
ghost use Rattle.hc_signal.specs.Weight.{graph_weight};
ghost use Rattle.hc_signal.specs.Lawful.{IsLawful};
ghost use Rattle.hc_signal.specs.Builds.{IsInstance, IsNode, width_at};

use crate::circuit::Circuit;
use crate::signal::{InstId, Instance, Memory, NodeId, NodeRow, Port, Ports};
use hc_fault::ItemList;
use std::alloc::Global;
use std::marker::Model;

mod instances;
mod labels;
mod nodes;
mod operators;
mod ports;
mod state;

/// A circuit under construction. It is lawful after each call, and a refused call leaves it as it was.
#[derive(Drop)]
pub struct Builder {
    alloc: Global,
    inputs: Vec<Port>,
    outputs: Vec<Port>,
    output_wires: Vec<NodeId>,
    nodes: Vec<NodeRow>,
    memories: Vec<Memory>,
    instances: Vec<Instance>,
    weight: u64,
    // for each node, whether it is the wire of an output
    is_output: Vec<bool>,
    // for each instance, the number of its first output node
    first_outputs: Vec<u32>,
}

impl Model for Builder {
    ghost use Rattle.hc_signal.specs.Graph.{Graph};
    ghost use Rattle.hc_signal.specs.Kept.{IsKept};

    ghost Value = { Graph };

    ghost view = { λ b. record {
      ports = record { inputs = b.inputs.items; outputs = b.outputs.items };
      outputs = b.output_wires.items;
      nodes = b.nodes.items;
      memories = b.memories.items;
      instances = b.instances.items;
    } };

    ghost invariant = { λ b. IsKept (record {
      ports = record { inputs = b.inputs.items; outputs = b.outputs.items };
      outputs = b.output_wires.items;
      nodes = b.nodes.items;
      memories = b.memories.items;
      instances = b.instances.items;
    }) b.weight b.is_output.items b.first_outputs.items };
}

impl Builder {
    /// A builder of nothing yet. Its lists and copies take their memory from `alloc`.
    pub fn new(alloc: Global) -> Builder
        ensures { result ≡ empty }
    {
        Builder {
            alloc,
            inputs: Vec::new(alloc),
            outputs: Vec::new(alloc),
            output_wires: Vec::new(alloc),
            nodes: Vec::new(alloc),
            memories: Vec::new(alloc),
            instances: Vec::new(alloc),
            weight: 0,
            is_output: Vec::new(alloc),
            first_outputs: Vec::new(alloc),
        }
    }

    /// What has been built so far is lawful.
    pub fn lawful(&self)
        ensures { IsLawful self.now }
    {
        let _ = &self.nodes;
    }

    /// The width of a node, in bits.
    pub fn width(&self, id: NodeId) -> u32
        requires { IsNode self.now id }
        ensures value { result ≡ width_at self.now id }
        ensures range { IsWidth result }
    {
        self.nodes[id.0 as usize].width
    }

    /// The row of a node.
    pub fn row(&self, id: NodeId) -> &NodeRow
        requires { IsNode self.now id }
        ensures { slice_get self.now.nodes id.0 ≡ Some result.now }
    {
        &self.nodes[id.0 as usize]
    }

    /// The row of an instance.
    pub fn instance_row(&self, id: InstId) -> &Instance
        requires { IsInstance self.now id }
        ensures { slice_get self.now.instances id.0 ≡ Some result.now }
    {
        &self.instances[id.0 as usize]
    }

    /// The weight of all rows so far: for each node 1 and its operands, for each memory 1 and for each of its write
    /// ports 4, for each instance 1 and for each of its connections 2.
    pub fn weight(&self) -> u64
        ensures value { result ≡ graph_weight self.now }
        ensures rows { length self.now.nodes + length self.now.memories + length self.now.instances ≤ result }
    {
        self.weight
    }

    /// The circuit that was built.
    pub fn finish(self) -> Circuit
        ensures { result ≡ self }
    {
        let Builder {
            alloc: _,
            inputs,
            outputs,
            output_wires,
            nodes,
            memories,
            instances,
            weight: _,
            is_output: _,
            first_outputs: _,
        } = self;
        Circuit::of_parts(
            Ports {
                inputs: ItemList::from_vec(inputs),
                outputs: ItemList::from_vec(outputs),
            },
            ItemList::from_vec(output_wires),
            ItemList::from_vec(nodes),
            ItemList::from_vec(memories),
            ItemList::from_vec(instances),
        )
    }
}
