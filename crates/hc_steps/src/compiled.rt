ghost use Rattle.std.specs.Prelude.{◌≡◌, []};
ghost use Rattle.hc_steps.specs.Compiled.{tables_of};
ghost use Rattle.hc_steps.specs.Tables.{row};

use crate::part::Part;
use crate::spot::Spot;
use hc_fault::ItemList;
use hc_signal::InstId;
use std::marker::Model;

/// The compiled plan of an entry: its parts, and who reads what.
#[derive(Drop)]
pub struct Plan {
    pub parts: Vec<Part>,
    pub spots: Vec<Spot>,
    pub readers: Vec<ItemList<u32>>,
    pub takers: Vec<ItemList<u32>>,
    pub input_readers: Vec<ItemList<u32>>,
    pub state_parts: Vec<u32>,
    pub first_part: Vec<u32>,
    pub ran: Vec<u32>,
}

impl Model for Plan {
    ghost use Rattle.hc_steps.specs.Compiled.{PlanView};

    ghost Value = { PlanView };

    ghost view = { λ plan. record {
      parts = plan.parts.items;
      readers = plan.readers.items;
      takers = plan.takers.items;
      input_readers = plan.input_readers.items;
      state_parts = plan.state_parts.items;
      first_part = plan.first_part.items;
      ran = plan.ran.items;
      spots = plan.spots.items;
    } };
}

/// A row of a table, empty past its end.
fn row_at(table: &[ItemList<u32>], at: u32) -> &[u32]
    ensures { result.now ≡ row table.now at }
{
    match table.get(at as usize) {
        None => &[],
        Some(list) => list.as_slice(),
    }
}

impl Plan {
    /// The parts in their order.
    pub fn parts(&self) -> &[Part]
        ensures { result.now ≡ self.now.parts }
    {
        self.parts.as_slice()
    }

    /// Of each node the place of the step that computes it.
    pub fn spots(&self) -> &[Spot]
        ensures { result.now ≡ self.now.spots }
    {
        self.spots.as_slice()
    }

    /// The other parts that read a number which a part computes.
    pub fn readers(&self, part: u32) -> &[u32]
        ensures { result.now ≡ row self.now.readers part }
    {
        row_at(self.readers.as_slice(), part)
    }

    /// The other parts that take an output of a part of an instance which a part runs.
    pub fn takers(&self, part: u32) -> &[u32]
        ensures { result.now ≡ row self.now.takers part }
    {
        row_at(self.takers.as_slice(), part)
    }

    /// The parts that read an input.
    pub fn input_readers(&self, port: u32) -> &[u32]
        ensures { result.now ≡ row self.now.input_readers port }
    {
        row_at(self.input_readers.as_slice(), port)
    }

    /// The parts that read a register or a memory.
    pub fn state_parts(&self) -> &[u32]
        ensures { result.now ≡ self.now.state_parts }
    {
        self.state_parts.as_slice()
    }

    /// The part that runs a part of an instance.
    pub fn ran_in(&self, inst: InstId, part: u32) -> u32
        ensures { result ≡ (tables_of self.now).ran_in inst.0 part }
    {
        match self.first_part.get(inst.0 as usize) {
            None => u32::MAX,
            Some(start) => match self.ran.get(*start as usize + part as usize) {
                None => u32::MAX,
                Some(it) => *it,
            },
        }
    }
}
