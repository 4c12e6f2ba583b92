ghost use Rattle.std.specs.Prelude.{◌≡◌, ◌+◌, ◌<◌, ◌≤◌, ◌^◌, ◌==◌, nat_abs, None, Some, IfOk, OnOk, OnErr, option_map};
ghost use Rattle.std.specs.Option.{ForSome};
ghost use Rattle.hc_bits.specs.BitVector.{IsBitVector, IsWidth};
ghost use Rattle.hc_signal.specs.declared.signal.Node.TheVariants as node;
ghost use Rattle.hc_signal.specs.declared.signal.WritePort.{WritePort};
ghost use Rattle.hc_signal.specs.Weight.{operands};
ghost use Rattle.hc_signal.specs.Rules.{is_bit, reg_rule, memory_rule, write_rule};
ghost use Rattle.hc_signal.specs.Builds.{IsNode, IsMemory, MayBeNode, HasRoomForNode, HasRoomForMemory, HasRoomForWrite, Obeys, AddsNode, AddsMemory, width_at, memory_width_at, clear_of, written, with_write};

use super::Builder;
use crate::rules::{check_write, size_and_width};
use crate::signal::{MemId, Memory, Node, NodeId, WritePort};
use crate::stop::BuildStop;
use hc_bits::Bits;
use hc_fault::{FaultKind, ItemList, NoMemory};

impl Builder {
    /// Adds a register. In each cycle it takes the value of `clear` where the node of `clear` is 1, else that of
    /// `next` where `enable` is 1 or absent. It begins as `init`. F15 where `enable` or the node of `clear` is not one
    /// bit wide.
    pub fn reg(
        &mut self,
        next: NodeId,
        enable: Option<NodeId>,
        clear: Option<(NodeId, Bits)>,
        init: Bits,
    ) -> Result<NodeId, BuildStop>
        requires room { HasRoomForNode self.old (operands (node.Reg next enable clear init)) }
        requires next_node { IsNode self.old next }
        requires enable_node { MayBeNode self.old enable }
        requires clear_node { MayBeNode self.old (clear_of clear) }
        requires clear_width { ForSome clear (λ c. c.1.width ≡ width_at self.old next) }
        requires init_width { init.width ≡ width_at self.old next }
        ensures made { let width = width_at self.old next in
            IfOk result (AddsNode self.old width (node.Reg next enable clear init) self.new) }
        ensures rule { let width_of = option_map (width_at self.old) in
            Obeys result (reg_rule (width_of enable) (width_of (clear_of clear))) }
        ensures same { OnErr result (self.new ≡ self.old) }
    {
        if !self.is_bit(enable) || !self.is_bit(clear_node(clear)) {
            return Err(BuildStop::Fault(FaultKind::WidthMismatch));
        }
        let width = init.width();
        Ok(self.add(
            width,
            Node::Reg {
                next,
                enable,
                clear,
                init,
            },
        )?)
    }

    /// Adds a memory of so many words of this width in bits, all 0 at the beginning. F12 where the width is not 1 to
    /// 128, else F19 where the size is not 1 to 65,536.
    pub fn memory(&mut self, size: i64, width: i64) -> Result<MemId, BuildStop>
        requires room { HasRoomForMemory self.old }
        ensures made { IfOk result (AddsMemory self.old (nat_abs size) (nat_abs width) self.new) }
        ensures rule { Obeys result (memory_rule size width) }
        ensures same { OnErr result (self.new ≡ self.old) }
    {
        let (size, width) = size_and_width(size, width)?;
        self.memories.reserve(1)?;
        let id = MemId(self.memories.len() as u32);
        self.memories.push_reserved(Memory {
            size,
            width,
            writes: ItemList::new(self.alloc),
            label: None,
        });
        self.weight += 1;
        Ok(id)
    }

    /// Adds a read of a memory: its word at the address, or 0 where the address is past its end.
    pub fn read(&mut self, mem: MemId, addr: NodeId) -> Result<NodeId, BuildStop>
        requires room { HasRoomForNode self.old 1 }
        requires mem { IsMemory self.old mem }
        requires addr { IsNode self.old addr }
        ensures made { let width = memory_width_at self.old mem in
            IfOk result (AddsNode self.old width (node.Read mem addr) self.new) }
        ensures rule { Obeys result None }
        ensures same { OnErr result (self.new ≡ self.old) }
    {
        let width = self.memory_width(mem);
        Ok(self.add(width, Node::Read { mem, addr })?)
    }

    /// Adds a write port to a memory, after those it has. F15 where `enable` is not one bit wide or `value` has not the
    /// width of the memory.
    pub fn write(
        &mut self,
        mem: MemId,
        enable: NodeId,
        addr: NodeId,
        value: NodeId,
    ) -> Result<(), BuildStop>
        requires room { HasRoomForWrite self.old }
        requires mem { IsMemory self.old mem }
        requires enable { IsNode self.old enable }
        requires addr { IsNode self.old addr }
        requires value { IsNode self.old value }
        ensures made { let port : WritePort = record { enable = enable; addr = addr; value = value } in
            OnOk result (self.new ≡ with_write self.old mem port) }
        ensures rule { let g = self.old in
            Obeys result (write_rule (width_at g enable) (width_at g value) (memory_width_at g mem)) }
        ensures same { OnErr result (self.new ≡ self.old) }
    {
        check_write(
            self.width(enable),
            self.width(value),
            self.memory_width(mem),
        )?;
        let memory = &mut self.memories[mem.0 as usize];
        add_write(
            memory,
            WritePort {
                enable,
                addr,
                value,
            },
        )?;
        self.weight += 4;
        Ok(())
    }

    /// The width of the words of a memory.
    fn memory_width(&self, id: MemId) -> u32
        requires { IsMemory self.now id }
        ensures value { result ≡ memory_width_at self.now id }
        ensures range { IsWidth result }
    {
        self.memories[id.0 as usize].width
    }

    /// Whether a node is one bit wide. True without a node.
    fn is_bit(&self, id: Option<NodeId>) -> bool
        requires { MayBeNode self.now id }
        ensures { result ≡ is_bit (option_map (width_at self.now) id) }
    {
        match id {
            Some(id) => self.width(id) == 1,
            None => true,
        }
    }
}

/// The node of a clear.
fn clear_node(clear: Option<(NodeId, Bits)>) -> Option<NodeId>
    ensures node { result ≡ clear_of clear }
    ensures lawful { ForSome clear (λ c. IsBitVector c.1) }
{
    match clear {
        Some((node, value)) => {
            // its type keeps the value lawful
            let _ = value.width();
            Some(node)
        }
        None => None,
    }
}

/// Adds a write port at the end.
fn add_write(memory: &mut Memory, write: WritePort) -> Result<(), NoMemory>
    ensures made { OnOk result (memory.new ≡ written write memory.old) }
    ensures same { OnErr result (memory.new ≡ memory.old) }
{
    match memory.writes.push(write) {
        Ok(()) => Ok(()),
        Err((_, refused)) => Err(refused),
    }
}
