//! What stays while the numbers of a hierarchy settle.
ghost use Rattle.std.specs.Prelude.{◌≡◌, ◌+◌, ◌<◌, ℕ, Some, length, slice_get};
ghost use Rattle.hc_rows.specs.Rows.{row_at};

use hc_bits::Bits;
use hc_canon::{EntryId, Form};
use hc_compile::Plan;
use hc_dbstate::DbState;
use hc_layout::Layout;
use hc_rows::Rows;
use hc_signal::InstId;
use hc_values::Words;
use std::marker::Model;

/// The forms and the plans of the entries, where the instances stand, of each part the number of the part that runs it, and the
/// registers and memories of the instances.
pub struct Site<'a> {
    pub db: &'a DbState,
    pub plans: &'a [Plan],
    pub layout: &'a Layout,
    pub up: &'a Rows<u32>,
    pub registers: &'a Rows<Bits>,
    pub words: &'a Rows<Words>,
}

impl<'a> Model for Site<'a> {
    ghost use Rattle.hc_store.specs.Given.{Given};

    ghost Value = { Given };

    ghost view = { λ site. record {
      forms = site.db.now.entries;
      plans = site.plans.now;
      entries = site.layout.now.entries;
      first = site.layout.now.first;
      up = site.up.now;
      registers = site.registers.now;
      words = site.words.now;
    } };
}

/// The plan of an entry.
fn plan_of(plans: &[Plan], id: EntryId) -> &Plan
    requires { id.0 < length plans.now }
    ensures { slice_get plans.now id.0 ≡ Some result.now }
{
    &plans[id.0]
}

impl<'a> Site<'a> {
    /// The entry of an instance.
    pub fn entry(&self, p: usize) -> EntryId
        requires { p < length self.now.entries }
        ensures { slice_get self.now.entries p ≡ Some result }
    {
        self.layout.entry(p)
    }

    /// The form of an entry.
    pub fn form(&self, id: EntryId) -> &Form
        requires { id.0 < length self.now.forms }
        ensures { slice_get self.now.forms id.0 ≡ Some result.now }
    {
        self.db.get(id)
    }

    /// The plan of an entry.
    pub fn plan(&self, id: EntryId) -> &Plan
        requires { id.0 < length self.now.plans }
        ensures { slice_get self.now.plans id.0 ≡ Some result.now }
    {
        plan_of(self.plans, id)
    }

    /// An instance of an instance.
    pub fn kid(&self, p: usize, inst: InstId) -> usize
        requires { p < length self.now.first }
        ensures { (first : ℕ) → slice_get self.now.first p ≡ Some first → result ≡ first + inst.0 }
    {
        self.layout.kid(p, inst)
    }

    /// Of each part of each instance the number of the part that runs it.
    pub fn up(&self) -> &Rows<u32>
        ensures { result.now ≡ self.now.up }
    {
        self.up
    }

    /// The registers of an instance.
    pub fn registers(&self, p: usize) -> &[Bits]
        ensures { result.now ≡ row_at self.now.registers p }
    {
        self.registers.row(p)
    }

    /// The memories of an instance.
    pub fn words(&self, p: usize) -> &[Words]
        ensures { result.now ≡ row_at self.now.words p }
    {
        self.words.row(p)
    }
}
