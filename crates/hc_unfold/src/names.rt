ghost use Rattle.std.specs.Prelude.{◌≡◌, ◌++◌, ◌∷◌, [], None, IfSome, OnErr, OnOk};
ghost use Rattle.hc_signal.specs.Graph.{Graph};
ghost use Rattle.hc_signal.specs.Builds.{IsInstance, IsMemory, IsNode};
ghost use Rattle.hc_unfold.specs.Names.{AreKnown, as_instance, as_memory, as_node, meaning};

use hc_fault::{Name, NoMemory};
use hc_signal::{InstId, MemId, NodeId};
use indexmap::IndexMap;
use std::alloc::Global;
use std::marker::Model;

/// What a name means.
#[derive(Clone, Copy, Debug, PartialEq, Eq)]
pub enum Target {
    Node(NodeId),
    Memory(MemId),
    Instance(InstId),
}

/// A name, with its index where it has one.
pub type Key = (Name, Option<i64>);

/// The names of a circuit and what they mean, in the order in which they were given.
#[derive(Drop)]
pub struct Names {
    targets: IndexMap<Key, Target>,
}

impl Model for Names {
    ghost use Rattle.hc_unfold.specs.Names.{Names};

    ghost Value = { Names };

    ghost view = { λ names. names.targets.entries };
}

impl Names {
    /// No names.
    pub fn new(alloc: Global) -> Names
        ensures { result ≡ [] }
    {
        Names {
            targets: IndexMap::new(alloc),
        }
    }

    /// What a name means.
    pub fn get(&self, key: &Key) -> Option<Target>
        ensures { result ≡ meaning self.now key.now }
    {
        self.targets.get(key).copied()
    }

    /// The node that a name means, where it means one.
    pub fn node(&self, key: &Key) -> Option<NodeId>
        ensures found { result ≡ as_node (meaning self.now key.now) }
        ensures known { IfSome result (λ id. (g : Graph) → AreKnown g self.now → IsNode g id) }
    {
        match self.get(key) {
            Some(Target::Node(id)) => Some(id),
            _ => None,
        }
    }

    /// The memory that a name means, where it means one.
    pub fn memory(&self, key: &Key) -> Option<MemId>
        ensures found { result ≡ as_memory (meaning self.now key.now) }
        ensures known { IfSome result (λ id. (g : Graph) → AreKnown g self.now → IsMemory g id) }
    {
        match self.get(key) {
            Some(Target::Memory(id)) => Some(id),
            _ => None,
        }
    }

    /// The instance that a name means, where it means one.
    pub fn instance(&self, key: &Key) -> Option<InstId>
        ensures found { result ≡ as_instance (meaning self.now key.now) }
        ensures known { IfSome result (λ id. (g : Graph) → AreKnown g self.now → IsInstance g id) }
    {
        match self.get(key) {
            Some(Target::Instance(id)) => Some(id),
            _ => None,
        }
    }

    /// Gives a name that is not taken a meaning. A refusal changes nothing.
    pub fn add(&mut self, key: Key, target: Target) -> Result<(), NoMemory>
        requires { meaning self.old key ≡ None }
        ensures ok { OnOk result (self.new ≡ self.old ++ (key, target) ∷ []) }
        ensures same { OnErr result (self.new ≡ self.old) }
    {
        self.targets.insert(key, target)?;
        Ok(())
    }
}
