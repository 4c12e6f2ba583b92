//! The vertices that wait in a walk.
ghost use Rattle.std.specs.Prelude.{◌≡◌, [], ◌∷◌, ◌++◌, OnOk, MatchOption};
ghost use Rattle.hc_signal.specs.Graph.{clear_node, optional_node, inst, mem, node, nodes_of, fanin_of_node, fanin_of_writes};
ghost use Rattle.hc_walk.specs.VertexId.{vertex_of};

use crate::vertex::VertexId;
use hc_bits::Bits;
use hc_fault::{ItemList, NoMemory};
use hc_signal::{Node, NodeId, WritePort};
use std::alloc::Global;
use std::marker::Model;

/// A stack of vertices, seen by contracts as the list of those that wait, the next one first.
#[derive(Drop)]
pub struct Waiting {
    items: ItemList<VertexId>,
}

impl Model for Waiting {
    ghost use Rattle.std.specs.Prelude.{List};
    ghost use Rattle.hc_signal.specs.Graph.{Vertex};
    ghost use Rattle.hc_walk.specs.Walking.{top_first};

    ghost Value = { List Vertex };

    ghost view = { λ waiting. top_first waiting.items };
}

impl Waiting {
    #[tactic(auto, unfolding(crate::specs::Walking::top_first))]
    pub fn new(alloc: Global) -> Waiting
        ensures { result ≡ [] }
    {
        Waiting {
            items: ItemList::new(alloc),
        }
    }

    #[tactic(auto, using(crate::proofs::Waits::top_first_push))]
    fn push(&mut self, vertex: VertexId) -> Result<(), NoMemory>
        ensures { OnOk result (self.new ≡ vertex_of vertex ∷ self.old) }
    {
        match self.items.push(vertex) {
            Ok(()) => Ok(()),
            Err(_) => Err(NoMemory),
        }
    }

    pub fn pop(&mut self) -> Option<VertexId>
        ensures { MatchOption result (self.old ≡ []) (λ vertex. self.old ≡ vertex_of vertex ∷ self.new) }
    {
        self.items.pop()
    }

    fn push_node(&mut self, id: NodeId) -> Result<(), NoMemory>
        ensures { OnOk result (self.new ≡ node id.0 ∷ self.old) }
    {
        self.push(VertexId::Node(id))
    }

    /// The nodes wait in their order, before what waits already.
    pub fn push_ids(&mut self, ids: &[NodeId]) -> Result<(), NoMemory>
        ensures { OnOk result (self.new ≡ nodes_of ids.now ++ self.old) }
    {
        'back: for id in ids.iter().rev() {
            self.push_node(*id)?;
        }
        Ok(())
    }

    fn push_optional(&mut self, id: &Option<NodeId>) -> Result<(), NoMemory>
        ensures { OnOk result (self.new ≡ optional_node id.now ++ self.old) }
    {
        match id {
            Some(id) => self.push_node(*id),
            None => Ok(()),
        }
    }

    fn push_clear(&mut self, clear: &Option<(NodeId, Bits)>) -> Result<(), NoMemory>
        ensures { OnOk result (self.new ≡ clear_node clear.now ++ self.old) }
    {
        match clear {
            Some((id, _)) => self.push_node(*id),
            None => Ok(()),
        }
    }

    fn push_register(
        &mut self,
        next: NodeId,
        enable: &Option<NodeId>,
        clear: &Option<(NodeId, Bits)>,
    ) -> Result<(), NoMemory>
        ensures { OnOk result (self.new ≡ node next.0 ∷ ((optional_node enable.now ++ clear_node clear.now) ++ self.old)) }
    {
        self.push_clear(clear)?;
        self.push_optional(enable)?;
        self.push_node(next)
    }

    /// The fan-in of a node waits in its order, before what waits already.
    pub fn push_fanin(&mut self, of: &Node) -> Result<(), NoMemory>
        ensures { OnOk result (self.new ≡ fanin_of_node of.now ++ self.old) }
    {
        match of {
            Node::Input { port: _ } => Ok(()),
            Node::Wire { driver } => self.push_optional(driver),
            Node::Const { value: _ } => Ok(()),
            Node::Two { op: _, a, b } => {
                self.push_node(*b)?;
                self.push_node(*a)
            }
            Node::Not { a } => self.push_node(*a),
            Node::Mux { sel, cases } => {
                self.push_ids(cases.as_slice())?;
                self.push_node(*sel)
            }
            Node::Cat { parts } => self.push_ids(parts.as_slice()),
            Node::Select { a, hi: _, lo: _ } => self.push_node(*a),
            Node::Reg {
                next,
                enable,
                clear,
                init: _,
            } => self.push_register(*next, enable, clear),
            Node::Read { mem, addr } => {
                self.push(VertexId::Memory(*mem))?;
                self.push_node(*addr)
            }
            Node::InstOut { inst, port: _ } => self.push(VertexId::Instance(*inst)),
            Node::Op { kind: _, args } => self.push_ids(args.as_slice()),
        }
    }

    fn push_write(&mut self, write: &WritePort) -> Result<(), NoMemory>
        ensures { OnOk result (self.new ≡ node write.now.enable.0 ∷ node write.now.addr.0 ∷ node write.now.value.0 ∷ self.old) }
    {
        self.push_node(write.value)?;
        self.push_node(write.addr)?;
        self.push_node(write.enable)
    }

    /// The fan-in of a memory with these write ports waits in its order, before what waits already.
    #[tactic(auto, using(crate::proofs::Waits::fanin_of_writes_append))]
    pub fn push_writes(&mut self, writes: &[WritePort]) -> Result<(), NoMemory>
        ensures { OnOk result (self.new ≡ fanin_of_writes writes.now ++ self.old) }
    {
        'back: for write in writes.iter().rev() {
            self.push_write(write)?;
        }
        Ok(())
    }
}
