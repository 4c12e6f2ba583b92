ghost use Rattle.std.specs.Prelude.{◌≡◌, ◌≢◌, ◌+◌, ◌<◌, ◌≤◌, ◌^◌, IsTrue, nat_abs, None, Some, IfOk, OnOk, OnErr, IfErr};
ghost use Rattle.hc_bits.specs.BitVector.{IsWidth};
ghost use Rattle.hc_signal.specs.declared.signal.Node.TheVariants as node;
ghost use Rattle.hc_signal.specs.declared.stop.BuildStop.TheVariants as stop;
ghost use Rattle.hc_signal.specs.Graph.{Graph};
ghost use Rattle.hc_signal.specs.Weight.{operands};
ghost use Rattle.hc_signal.specs.Lawful.{IsLawfulNode};
ghost use Rattle.hc_signal.specs.Rules.{width_rule, drive_rule};
ghost use Rattle.hc_signal.specs.Builds.{IsNode, IsWire, HasRoomForNode, Obeys, AddsNode, is_inner, driver_of, is_driven_at, is_wire, driven_from, width_at, with_driver};

use super::Builder;
use crate::rules::{as_width, check_drive};
use crate::signal::{Node, NodeId, NodeRow};
use crate::stop::BuildStop;
use hc_bits::Bits;
use hc_fault::NoMemory;

impl Builder {
    /// Adds a wire of this width in bits, which has no driver yet. F12 where the width is not 1 to 128.
    pub fn wire(&mut self, width: i64) -> Result<NodeId, BuildStop>
        requires room { HasRoomForNode self.old 1 }
        ensures made { IfOk result (AddsNode self.old (nat_abs width) (node.Wire None) self.new) }
        ensures rule { Obeys result (width_rule width) }
        ensures same { OnErr result (self.new ≡ self.old) }
    {
        let width = as_width(width)?;
        Ok(self.add(width, Node::Wire { driver: None })?)
    }

    /// Drives a wire from a node. F15 where their widths differ, else F20 where the wire is driven already.
    pub fn drive(&mut self, wire: NodeId, from: NodeId) -> Result<(), BuildStop>
        requires wire { IsWire self.old wire }
        requires from { IsNode self.old from }
        ensures made { OnOk result (self.new ≡ with_driver self.old wire from) }
        ensures rule { let g = self.old in
            Obeys result (drive_rule (width_at g wire) (width_at g from) (is_driven_at g wire)) }
        ensures same { OnErr result (self.new ≡ self.old) }
        ensures no_memory { IfErr result (λ e. e ≢ stop.NoMemory) }
    {
        check_drive(self.width(wire), self.width(from), self.is_driven(wire))?;
        connect(&mut self.nodes[wire.0 as usize], from);
        Ok(())
    }

    /// Adds a constant.
    pub fn constant(&mut self, value: Bits) -> Result<NodeId, BuildStop>
        requires room { HasRoomForNode self.old 0 }
        ensures made { IfOk result (AddsNode self.old value.width (node.Const value) self.new) }
        ensures rule { Obeys result None }
        ensures same { OnErr result (self.new ≡ self.old) }
    {
        Ok(self.add(value.width(), Node::Const { value })?)
    }

    /// Whether a node is a wire with a driver.
    fn is_driven(&self, id: NodeId) -> bool
        requires { IsNode self.now id }
        ensures { result ≡ is_driven_at self.now id }
    {
        driver_of(&self.nodes[id.0 as usize].node).is_some()
    }

    /// Adds a node that stands for no port, without a label.
    pub(super) fn add(&mut self, width: u32, node: Node) -> Result<NodeId, NoMemory>
        requires room { HasRoomForNode self.old (operands node) }
        requires width { IsWidth width }
        requires lawful { IsLawfulNode self.old width node }
        requires inner { IsTrue (is_inner node) }
        ensures made { IfOk result (AddsNode self.old width node self.new) }
        ensures same { OnErr result (self.new ≡ self.old) }
    {
        let weight = 1 + operand_count(&node);
        self.nodes.reserve(1)?;
        self.is_output.reserve(1)?;
        let id = NodeId(self.nodes.len() as u32);
        self.nodes.push_reserved(NodeRow {
            width,
            node,
            label: None,
        });
        self.is_output.push_reserved(false);
        self.weight += weight;
        Ok(id)
    }
}

/// The driver of a wire that has one.
fn driver_of(node: &Node) -> Option<NodeId>
    ensures { result ≡ driver_of node.now }
{
    match node {
        Node::Wire { driver } => *driver,
        _ => None,
    }
}

/// Drives a wire.
fn connect(row: &mut NodeRow, from: NodeId)
    requires { IsTrue (is_wire row.old.node) }
    ensures { row.new ≡ driven_from from row.old }
{
    if let Node::Wire { driver } = &mut row.node {
        *driver = Some(from);
    }
}

/// How many operands a node has. A wire has one, driven or not; the memory of a read is none.
fn operand_count(node: &Node) -> u64
    requires { operands node.now + 1 < 2 ^ 64 }
    ensures { result ≡ operands node.now }
{
    match node {
        Node::Input { .. } | Node::Const { .. } | Node::InstOut { .. } => 0,
        Node::Wire { .. } | Node::Not { .. } | Node::Select { .. } | Node::Read { .. } => 1,
        Node::Two { .. } => 2,
        Node::Mux { cases, .. } => 1 + cases.as_slice().len() as u64,
        Node::Cat { parts } => parts.as_slice().len() as u64,
        Node::Reg { enable, clear, .. } => 1
            + u64::from(enable.is_some())
            + u64::from(clear.is_some()),
        Node::Op { args, .. } => args.as_slice().len() as u64,
    }
}
