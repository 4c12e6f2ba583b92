ghost use Rattle.std.specs.Prelude.{◌≡◌, IfOk};

use hc_bits::{Bits, OpKind};
use hc_fault::{ItemList, Name, NoMemory};
use smallvec::SmallVec;
use std::alloc::Global;
use std::marker::Model;

/// The place of a node in the list of its circuit.
#[derive(Clone, Copy, Debug, Default, PartialEq, Eq)]
pub struct NodeId(pub u32);

/// The place of a memory in the list of its circuit.
#[derive(Clone, Copy, Debug, PartialEq, Eq)]
pub struct MemId(pub u32);

/// The place of an instance in the list of its circuit.
#[derive(Clone, Copy, Debug, PartialEq, Eq)]
pub struct InstId(pub u32);

/// A port, with its width in bits.
#[derive(Drop)]
pub struct Port {
    pub name: Name,
    pub width: u32,
}

/// The ports of a circuit, in order.
#[derive(Drop)]
pub struct Ports {
    pub inputs: ItemList<Port>,
    pub outputs: ItemList<Port>,
}

/// A short list of nodes, seen by contracts as the list.
#[derive(Drop)]
pub struct Ids {
    ids: SmallVec<NodeId, 4>,
}

impl Model for Ids {
    ghost use Rattle.std.specs.Prelude.{List};
    ghost use Rattle.hc_signal.specs.declared.signal.NodeId.{NodeId};

    ghost Value = { List NodeId };

    ghost view = { λ ids. ids.ids.items };
}

impl Ids {
    /// The list of these nodes.
    pub fn from_slice(alloc: Global, ids: &[NodeId]) -> Result<Ids, NoMemory>
        ensures { IfOk result (λ made. made ≡ ids.now) }
    {
        match SmallVec::from_slice(alloc, ids) {
            Ok(ids) => Ok(Ids { ids }),
            Err(_) => Err(NoMemory),
        }
    }

    /// Its nodes.
    pub fn as_slice(&self) -> &[NodeId]
        ensures { result.now ≡ self.now }
    {
        self.ids.as_slice()
    }
}

/// The operators of two operands. `Muls` takes its operands as two's complement numbers; `Lt` compares unsigned
/// numbers.
#[derive(Clone, Copy, PartialEq, Eq)]
pub enum Op2 {
    Add,
    Sub,
    Mulu,
    Muls,
    And,
    Or,
    Xor,
    Eq,
    Lt,
}

/// What a node is.
#[derive(Drop)]
pub enum Node {
    /// The input port at a place.
    Input {
        port: u32,
    },
    /// The value of its driver.
    Wire {
        driver: Option<NodeId>,
    },
    Const {
        value: Bits,
    },
    Two {
        op: Op2,
        a: NodeId,
        b: NodeId,
    },
    /// The complement.
    Not {
        a: NodeId,
    },
    /// The case at the number of the selector, the last one past the end.
    Mux {
        sel: NodeId,
        cases: Ids,
    },
    /// The parts side by side, the most significant first.
    Cat {
        parts: Ids,
    },
    /// The bits from `hi` down to `lo`.
    Select {
        a: NodeId,
        hi: u32,
        lo: u32,
    },
    /// A register: at each clock edge it takes the value of `clear` where the node of `clear` is 1, else that of `next`
    /// where `enable` is 1 or absent. It begins as `init`.
    Reg {
        next: NodeId,
        enable: Option<NodeId>,
        clear: Option<(NodeId, Bits)>,
        init: Bits,
    },
    /// The word of a memory at an address, 0 past its end.
    Read {
        mem: MemId,
        addr: NodeId,
    },
    /// The output of an instance at a place.
    InstOut {
        inst: InstId,
        port: u32,
    },
    /// An operation of the catalogue.
    Op {
        kind: OpKind,
        args: Ids,
    },
}

/// A node with its width in bits.
#[derive(Drop)]
pub struct NodeRow {
    pub width: u32,
    pub node: Node,
    pub label: Option<Name>,
}

/// At each clock edge the word at `addr` becomes `value` where `enable` is 1.
#[derive(Drop)]
pub struct WritePort {
    pub enable: NodeId,
    pub addr: NodeId,
    pub value: NodeId,
}

/// A memory of `size` words of `width` bits. Its write ports act in order.
#[derive(Drop)]
pub struct Memory {
    pub size: u32,
    pub width: u32,
    pub writes: ItemList<WritePort>,
    pub label: Option<Name>,
}

/// An instance of a circuit with these ports: one connection for each input, in order.
#[derive(Drop)]
pub struct Instance {
    pub ports: Ports,
    pub conns: ItemList<NodeId>,
    pub label: Option<Name>,
}
