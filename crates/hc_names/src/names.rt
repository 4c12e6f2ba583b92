ghost use Rattle.std.specs.Prelude.{◌≡◌, ◌++◌, ◌∷◌, [], None, IfOk, OnOk, OnErr, length, slice_get};
ghost use Rattle.std.specs.Option.{option_copied};
ghost use Rattle.hc_names.specs.NameRows.{name_of_entry, numbered_rows, row_of};

use hc_canon::EntryId;
use hc_fault::{Name, NoMemory};
use indexmap::IndexMap;
use std::alloc::Global;
use std::marker::Model;

/// The names of modules, seen by contracts as rows of an entry and a name, in order. No entry has two rows.
#[derive(Drop)]
pub struct Names {
    rows: IndexMap<usize, Name>,
}

impl Model for Names {
    ghost use Rattle.std.specs.Prelude.{ℕ, List};
    ghost use Rattle.hc_canon.specs.declared.form.EntryId.{EntryId};
    ghost use Rattle.hc_names.specs.NameRows.{numbered_rows};

    ghost Value = { List (EntryId × List ℕ) };

    ghost view = { λ names. numbered_rows names.rows.entries };
}

impl Names {
    /// No rows.
    pub fn new(alloc: Global) -> Names
        ensures { result ≡ [] }
    {
        Names {
            rows: IndexMap::new(alloc),
        }
    }

    /// The name in the entry's row; None where it has no row. It takes no memory.
    pub fn of(&self, id: EntryId) -> Option<&Name>
        ensures { option_copied result ≡ name_of_entry self.now id }
    {
        found(&self.rows, id)
    }

    /// Adds a row for an entry that has none. After a refusal nothing has changed.
    pub fn add(&mut self, id: EntryId, name: Name) -> Result<(), NoMemory>
        requires { name_of_entry self.old id ≡ None }
        ensures added { OnOk result (self.new ≡ self.old ++ (id, name) ∷ []) }
        ensures same { OnErr result (self.new ≡ self.old) }
    {
        add(&mut self.rows, id, name)
    }

    /// How many rows there are. It takes no memory.
    pub fn len(&self) -> usize
        ensures { result ≡ length self.now }
    {
        len(&self.rows)
    }

    /// The row at a place. It takes no memory.
    pub fn row(&self, place: usize) -> Option<(EntryId, &Name)>
        ensures { row_of result ≡ slice_get self.now place }
    {
        row(&self.rows, place)
    }
}

/// The name of an entry in a table of rows.
#[tactic(auto, using(crate::proofs::Rows::name_found))]
fn found(rows: &IndexMap<usize, Name>, id: EntryId) -> Option<&Name>
    ensures { option_copied result ≡ name_of_entry (numbered_rows rows.now.entries) id }
{
    rows.get(&id.0)
}

/// Adds a row for an entry that has none. After a refusal nothing has changed.
#[tactic(auto, using(crate::proofs::Rows::row_added))]
fn add(rows: &mut IndexMap<usize, Name>, id: EntryId, name: Name) -> Result<(), NoMemory>
    requires { name_of_entry (numbered_rows rows.old.entries) id ≡ None }
    ensures added { OnOk result (numbered_rows rows.new.entries ≡ numbered_rows rows.old.entries ++ (id, name) ∷ []) }
    ensures same { OnErr result (rows.new.entries ≡ rows.old.entries) }
{
    rows.insert(id.0, name)?;
    Ok(())
}

/// How many rows a table has.
#[tactic(auto, using(crate::proofs::Rows::rows_length))]
fn len(rows: &IndexMap<usize, Name>) -> usize
    ensures { result ≡ length (numbered_rows rows.now.entries) }
{
    rows.len()
}

/// The row at a place.
fn row(rows: &IndexMap<usize, Name>, place: usize) -> Option<(EntryId, &Name)>
    ensures { row_of result ≡ slice_get (numbered_rows rows.now.entries) place }
{
    match rows.get_index(place) {
        Some((number, name)) => Some((EntryId(*number), name)),
        None => None,
    }
}
