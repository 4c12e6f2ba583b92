ghost use Rattle.std.specs.Prelude.{◌≡◌, Some, false, OnOk, OnErr};
ghost use Rattle.hc_signal.specs.Rules.{label_rule};
ghost use Rattle.hc_signal.specs.Builds.{IsNode, IsMemory, IsInstance, Obeys, has_node_label, has_memory_label, has_instance_label, is_port_node, is_input, with_node_label, with_memory_label, with_instance_label};

use super::Builder;
use crate::rules::check_label;
use crate::signal::{InstId, MemId, Node, NodeId};
use crate::stop::BuildStop;
use hc_fault::Name;

impl Builder {
    /// Labels a node. F14 where it has a label, or stands for a port of the circuit.
    pub fn label_node(&mut self, id: NodeId, label: &Name) -> Result<(), BuildStop>
        requires { IsNode self.old id }
        ensures made { OnOk result (self.new ≡ with_node_label self.old id label.now) }
        ensures rule { Obeys result (label_rule (has_node_label self.old id) (is_port_node self.old id)) }
        ensures same { OnErr result (self.new ≡ self.old) }
    {
        check_label(self.has_node_label(id), self.is_port_node(id))?;
        let label = Name::new(self.alloc, label.bytes())?;
        let row = &mut self.nodes[id.0 as usize];
        put_label(&mut row.label, label);
        Ok(())
    }

    /// Labels a memory. F14 where it has a label.
    pub fn label_memory(&mut self, id: MemId, label: &Name) -> Result<(), BuildStop>
        requires { IsMemory self.old id }
        ensures made { OnOk result (self.new ≡ with_memory_label self.old id label.now) }
        ensures rule { Obeys result (label_rule (has_memory_label self.old id) false) }
        ensures same { OnErr result (self.new ≡ self.old) }
    {
        check_label(self.has_memory_label(id), false)?;
        let label = Name::new(self.alloc, label.bytes())?;
        let memory = &mut self.memories[id.0 as usize];
        put_label(&mut memory.label, label);
        Ok(())
    }

    /// Labels an instance. F14 where it has a label.
    pub fn label_instance(&mut self, id: InstId, label: &Name) -> Result<(), BuildStop>
        requires { IsInstance self.old id }
        ensures made { OnOk result (self.new ≡ with_instance_label self.old id label.now) }
        ensures rule { Obeys result (label_rule (has_instance_label self.old id) false) }
        ensures same { OnErr result (self.new ≡ self.old) }
    {
        check_label(self.has_instance_label(id), false)?;
        let label = Name::new(self.alloc, label.bytes())?;
        let instance = &mut self.instances[id.0 as usize];
        put_label(&mut instance.label, label);
        Ok(())
    }

    fn has_node_label(&self, id: NodeId) -> bool
        requires { IsNode self.now id }
        ensures { result ≡ has_node_label self.now id }
    {
        self.nodes[id.0 as usize].label.is_some()
    }

    /// Whether a node stands for a port of the circuit.
    fn is_port_node(&self, id: NodeId) -> bool
        requires { IsNode self.now id }
        ensures { result ≡ is_port_node self.now id }
    {
        is_input(&self.nodes[id.0 as usize].node) || self.is_output[id.0 as usize]
    }

    fn has_memory_label(&self, id: MemId) -> bool
        requires { IsMemory self.now id }
        ensures { result ≡ has_memory_label self.now id }
    {
        self.memories[id.0 as usize].label.is_some()
    }

    fn has_instance_label(&self, id: InstId) -> bool
        requires { IsInstance self.now id }
        ensures { result ≡ has_instance_label self.now id }
    {
        self.instances[id.0 as usize].label.is_some()
    }
}

/// Whether the node is that of an input port.
fn is_input(node: &Node) -> bool
    ensures { result ≡ is_input node.now }
{
    matches!(node, Node::Input { .. })
}

fn put_label(place: &mut Option<Name>, label: Name)
    ensures { place.new ≡ Some label }
{
    *place = Some(label);
}
