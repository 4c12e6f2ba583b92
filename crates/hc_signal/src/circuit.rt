ghost use Rattle.std.specs.Prelude.{◌≡◌};
ghost use Rattle.hc_signal.specs.Lawful.{IsLawful};

use crate::signal::{Instance, Memory, NodeId, NodeRow, Ports};
use hc_fault::ItemList;
use std::marker::Model;

/// A circuit: its ports, its nodes, memories and instances. It is always lawful.
#[derive(Drop)]
pub struct Circuit {
    ports: Ports,
    outputs: ItemList<NodeId>,
    nodes: ItemList<NodeRow>,
    memories: ItemList<Memory>,
    instances: ItemList<Instance>,
}

impl Model for Circuit {
    ghost use Rattle.hc_signal.specs.Graph.{Graph};
    ghost use Rattle.hc_signal.specs.Lawful.{IsLawful};

    ghost Value = { Graph };

    ghost view = { λ c. record { ports = c.ports; outputs = c.outputs; nodes = c.nodes; memories = c.memories; instances = c.instances } };

    ghost invariant = { λ c. IsLawful (record { ports = c.ports; outputs = c.outputs; nodes = c.nodes; memories = c.memories; instances = c.instances }) };
}

impl Circuit {
    /// Each circuit is lawful.
    pub fn lawful(&self)
        ensures { IsLawful self.now }
    {
        let _ = &self.ports;
    }

    /// A circuit of these parts.
    pub fn of_parts(
        ports: Ports,
        outputs: ItemList<NodeId>,
        nodes: ItemList<NodeRow>,
        memories: ItemList<Memory>,
        instances: ItemList<Instance>,
    ) -> Circuit
        requires { IsLawful (record { ports = ports; outputs = outputs; nodes = nodes; memories = memories; instances = instances }) }
        ensures { result ≡ record { ports = ports; outputs = outputs; nodes = nodes; memories = memories; instances = instances } }
    {
        Circuit {
            ports,
            outputs,
            nodes,
            memories,
            instances,
        }
    }

    pub fn ports(&self) -> &Ports
        ensures { result.now ≡ self.now.ports }
    {
        &self.ports
    }

    pub fn outputs(&self) -> &[NodeId]
        ensures { result.now ≡ self.now.outputs }
    {
        self.outputs.as_slice()
    }

    pub fn nodes(&self) -> &[NodeRow]
        ensures { result.now ≡ self.now.nodes }
    {
        self.nodes.as_slice()
    }

    pub fn memories(&self) -> &[Memory]
        ensures { result.now ≡ self.now.memories }
    {
        self.memories.as_slice()
    }

    pub fn instances(&self) -> &[Instance]
        ensures { result.now ≡ self.now.instances }
    {
        self.instances.as_slice()
    }
}
