ghost use Rattle.std.specs.Prelude.{◌≡◌, ◌<◌, ◌≤◌, [], Some, length, slice_get};
ghost use Rattle.hc_dbstate.specs.History.{IsLegal};

use crate::turns::Turn;
use hc_canon::{EntryId, Form};
use indexmap::IndexMap;
use std::alloc::Global;
use std::marker::Model;

/// The entries, pairwise different, and a turn for each insertion. The history is always legal. Equal entries are looked for
/// among those that have as many low bits of their hash in common.
#[derive(Drop)]
pub struct DbState {
    pub(crate) entries: Vec<Form>,
    pub(crate) turns: Vec<Turn>,
    pub(crate) bits: u32,
    pub(crate) places: IndexMap<u64, Vec<usize>>,
}

impl Model for DbState {
    ghost use Rattle.std.specs.Prelude.{◌≤◌};
    ghost use Rattle.hc_dbstate.specs.History.{History, IsLegal};
    ghost use Rattle.hc_dbstate.specs.Places.{IsIndexOf};

    ghost Value = { History };

    ghost view = { λ state. record { entries = state.entries.items; turns = state.turns.items } };

    ghost invariant = { λ state. IsLegal (record { entries = state.entries.items; turns = state.turns.items }) × IsIndexOf state.bits state.places state.entries.items × (state.bits ≤ 64) };
}

impl DbState {
    /// No entries and no turns. No memory is taken.
    pub fn new(alloc: Global) -> DbState
        ensures { result ≡ record { entries = []; turns = [] } }
    {
        DbState::with_bits(alloc, 64)
    }

    /// No entries and no turns, with an index by so many low bits of a form's hash. The number of bits changes how fast equal
    /// entries are found, and nothing else. No memory is taken.
    pub fn with_bits(alloc: Global, bits: u32) -> DbState
        requires { bits ≤ 64 }
        ensures { result ≡ record { entries = []; turns = [] } }
    {
        DbState {
            entries: Vec::new(alloc),
            turns: Vec::new(alloc),
            bits,
            places: IndexMap::new(alloc),
        }
    }

    /// Each history is legal.
    pub fn legal(&self)
        ensures { IsLegal self.now }
    {
        let _ = &self.entries;
    }

    /// How many entries there are.
    pub fn len(&self) -> usize
        ensures { result ≡ length self.now.entries }
    {
        self.entries.len()
    }

    /// The form of an entry.
    pub fn get(&self, id: EntryId) -> &Form
        requires { id.0 < length self.now.entries }
        ensures { slice_get self.now.entries id.0 ≡ Some result.now }
    {
        &self.entries[id.0]
    }

    /// The turns in the order of the insertions.
    pub fn turns(&self) -> &[Turn]
        ensures { result.now ≡ self.now.turns }
    {
        self.turns.as_slice()
    }

    /// The entries in the order of their places, and the turns in the order of the insertions.
    pub fn into_parts(self) -> (Vec<Form>, Vec<Turn>)
        ensures entries { result.0.items ≡ self.entries }
        ensures turns { result.1.items ≡ self.turns }
    {
        let DbState {
            entries,
            turns,
            bits: _,
            places: _,
        } = self;
        (entries, turns)
    }
}
