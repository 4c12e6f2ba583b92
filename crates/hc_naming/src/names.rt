//! The names in a module.
ghost use Rattle.std.specs.Prelude.{◌≡◌};
ghost use Rattle.hc_signal.specs.Graph.{node, mem, inst};
ghost use Rattle.hc_naming.specs.ModuleNames.{vertex, cell, name_of_id};
ghost use Rattle.hc_naming.specs.NameTable.{name_at, name_by, mark_at};

use hc_fault::Name;
use hc_signal::NodeId;

/// The names of what stands in a module, by place.
#[derive(Drop)]
pub struct ModuleNames {
    pub(crate) nodes: Vec<Option<Name>>,
    pub(crate) memories: Vec<Option<Name>>,
    pub(crate) instances: Vec<Option<Name>>,
    /// Of the cells of operations, by node.
    pub(crate) cells: Vec<Option<Name>>,
}

/// The name in a slot of a table.
#[tactic(auto, unfolding(crate::specs::NameTable::name_at))]
fn slot(slots: &[Option<Name>], at: usize) -> &[u8]
    ensures { result.now ≡ name_at slots.now at }
{
    match slots.get(at) {
        Some(Some(name)) => name.bytes(),
        _ => b"",
    }
}

#[tactic(auto, unfolding(crate::specs::NameTable::name_by))]
impl ModuleNames {
    /// The name of a node; empty where it has none.
    pub fn node(&self, place: usize) -> &[u8]
        ensures { result.now ≡ name_by self.now (vertex (node place)) }
    {
        slot(self.nodes.as_slice(), place)
    }

    /// The name of a memory; empty where it has none.
    pub fn memory(&self, place: usize) -> &[u8]
        ensures { result.now ≡ name_by self.now (vertex (mem place)) }
    {
        slot(self.memories.as_slice(), place)
    }

    /// The name of an instance; empty where it has none.
    pub fn instance(&self, place: usize) -> &[u8]
        ensures { result.now ≡ name_by self.now (vertex (inst place)) }
    {
        slot(self.instances.as_slice(), place)
    }

    /// The name of an operation's cell, by its node; empty where it has none.
    pub fn cell(&self, place: usize) -> &[u8]
        ensures { result.now ≡ name_by self.now (cell place) }
    {
        slot(self.cells.as_slice(), place)
    }

    /// The name of a node, by its number; empty where it has none.
    #[tactic(auto, unfolding(crate::specs::ModuleNames::name_of_id))]
    pub fn operand(&self, id: NodeId) -> &[u8]
        ensures { result.now ≡ name_of_id (name_by self.now) id }
    {
        self.node(id.0 as usize)
    }
}

/// Whether a place has a mark; none past the end has.
pub fn is_marked(marks: &[bool], place: usize) -> bool
    ensures { result ≡ mark_at marks.now place }
{
    marks.get(place).copied().unwrap_or(false)
}
