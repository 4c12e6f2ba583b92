ghost use Rattle.std.specs.Prelude.{◌≡◌, ◌<◌, Some, length, map, slice_get};
ghost use Rattle.hc_rows.specs.Rows.{row_at};

use hc_canon::{EntryId, Form};
use hc_compile::Plan;
use hc_dbstate::DbState;
use hc_layout::Layout;
use hc_rows::Rows;
use hc_signal::{MemId, NodeId};
use std::marker::Model;

/// The instances of a hierarchy as a clock edge finds them: the forms and the plans of the entries, of each entry the nodes that
/// are registers and the memories, where the instances stand, and of each part the number of the part that runs it.
pub struct Clocked<'a> {
    pub db: &'a DbState,
    pub plans: &'a [Plan],
    pub layout: &'a Layout,
    pub up: &'a Rows<u32>,
    pub registers: &'a [Vec<NodeId>],
    pub memories: &'a [Vec<MemId>],
}

impl<'a> Model for Clocked<'a> {
    ghost use Rattle.std.specs.Prelude.{map};
    ghost use Rattle.hc_edges.specs.Clocked.{ClockedView};

    ghost Value = { ClockedView };

    ghost view = { λ clocked. record {
      forms = clocked.db.now.entries;
      plans = clocked.plans.now;
      entries = clocked.layout.now.entries;
      first = clocked.layout.now.first;
      up = clocked.up.now;
      registers = map (λ list. list.items) clocked.registers.now;
      memories = map (λ list. list.items) clocked.memories.now;
    } };
}

/// A list of lists, empty past the last one.
fn list_at<T>(lists: &[Vec<T>], k: usize) -> &[T]
    ensures { result.now ≡ row_at (map (λ list. list.items) lists.now) k }
{
    match lists.get(k) {
        None => &[],
        Some(list) => list.as_slice(),
    }
}

/// The plan of an entry.
fn plan_of(plans: &[Plan], id: EntryId) -> &Plan
    requires { id.0 < length plans.now }
    ensures { slice_get plans.now id.0 ≡ Some result.now }
{
    &plans[id.0]
}

impl<'a> Clocked<'a> {
    /// How many instances there are.
    pub fn len(&self) -> usize
        ensures { result ≡ length self.now.entries }
    {
        self.layout.len()
    }

    /// The entry of an instance.
    pub fn entry(&self, p: usize) -> EntryId
        requires { p < length self.now.entries }
        ensures { slice_get self.now.entries p ≡ Some result }
    {
        self.layout.entry(p)
    }

    /// The form of an entry.
    pub fn form(&self, id: EntryId) -> &Form
        requires { id.0 < length self.now.forms }
        ensures { slice_get self.now.forms id.0 ≡ Some result.now }
    {
        self.db.get(id)
    }

    /// The plan of an entry.
    pub fn plan(&self, id: EntryId) -> &Plan
        requires { id.0 < length self.now.plans }
        ensures { slice_get self.now.plans id.0 ≡ Some result.now }
    {
        plan_of(self.plans, id)
    }

    /// Of each part of each instance the number of the part that runs it.
    pub fn up(&self) -> &Rows<u32>
        ensures { result.now ≡ self.now.up }
    {
        self.up
    }

    /// The nodes of an entry that are registers, none where there is no list of it.
    pub fn registers(&self, id: EntryId) -> &[NodeId]
        ensures { result.now ≡ row_at self.now.registers id.0 }
    {
        list_at(self.registers, id.0)
    }

    /// The memories of an entry, none where there is no list of it.
    pub fn memories(&self, id: EntryId) -> &[MemId]
        ensures { result.now ≡ row_at self.now.memories id.0 }
    {
        list_at(self.memories, id.0)
    }
}
