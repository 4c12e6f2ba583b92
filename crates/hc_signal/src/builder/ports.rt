ghost use Rattle.std.specs.Prelude.{◌≡◌, nat_abs, IfOk, OnErr};
ghost use Rattle.hc_signal.specs.Rules.{width_rule};
ghost use Rattle.hc_signal.specs.Builds.{HasRoomForNode, Obeys, AddsInput, AddsOutput};

use super::Builder;
use crate::rules::as_width;
use crate::signal::{Node, NodeId, NodeRow, Port};
use crate::stop::BuildStop;
use hc_fault::Name;

impl Builder {
    /// Adds an input port of this width in bits, and its node. F12 where the width is not 1 to 128.
    pub fn input(&mut self, name: &Name, width: i64) -> Result<NodeId, BuildStop>
        requires room { HasRoomForNode self.old 0 }
        ensures made { IfOk result (AddsInput self.old name.now (nat_abs width) self.new) }
        ensures rule { Obeys result (width_rule width) }
        ensures same { OnErr result (self.new ≡ self.old) }
    {
        let width = as_width(width)?;
        let name = Name::new(self.alloc, name.bytes())?;
        self.inputs.reserve(1)?;
        self.nodes.reserve(1)?;
        self.is_output.reserve(1)?;
        let id = NodeId(self.nodes.len() as u32);
        let port = self.inputs.len() as u32;
        self.inputs.push_reserved(Port { name, width });
        self.nodes.push_reserved(NodeRow {
            width,
            node: Node::Input { port },
            label: None,
        });
        self.is_output.push_reserved(false);
        self.weight += 1;
        Ok(id)
    }

    /// Adds an output port of this width in bits, and its wire, which has no driver yet. F12 where the width is not
    /// 1 to 128.
    pub fn output(&mut self, name: &Name, width: i64) -> Result<NodeId, BuildStop>
        requires room { HasRoomForNode self.old 1 }
        ensures made { IfOk result (AddsOutput self.old name.now (nat_abs width) self.new) }
        ensures rule { Obeys result (width_rule width) }
        ensures same { OnErr result (self.new ≡ self.old) }
    {
        let width = as_width(width)?;
        let name = Name::new(self.alloc, name.bytes())?;
        self.outputs.reserve(1)?;
        self.output_wires.reserve(1)?;
        self.nodes.reserve(1)?;
        self.is_output.reserve(1)?;
        let id = NodeId(self.nodes.len() as u32);
        self.outputs.push_reserved(Port { name, width });
        self.output_wires.push_reserved(id);
        self.nodes.push_reserved(NodeRow {
            width,
            node: Node::Wire { driver: None },
            label: None,
        });
        self.is_output.push_reserved(true);
        self.weight += 2;
        Ok(id)
    }
}
