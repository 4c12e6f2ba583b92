ghost use Rattle.std.specs.Prelude.{◌≡◌, ◌+◌, ◌<◌, [], ◌∷◌, ◌++◌, length, slice_get, slice_index, IfOk, OnOk, Some};
ghost use Rattle.hc_layout.specs.Layout.{IsLayout, kids_of};

use hc_canon::EntryId;
use hc_dbstate::DbState;
use hc_fault::NoMemory;
use hc_signal::InstId;
use std::alloc::Global;
use std::marker::Model;

/// The instances of an entry's unfolding: of each its entry, and the number of its first own instance. The top is number 0;
/// the own instances of an instance stand side by side and after it.
#[derive(Drop)]
pub struct Layout {
    entries: Vec<EntryId>,
    first: Vec<u32>,
}

impl Model for Layout {
    ghost use Rattle.hc_layout.specs.Layout.{Layout as LayoutOf};

    ghost Value = { LayoutOf };

    ghost view = { λ layout. record { entries = layout.entries.items; first = layout.first.items } };
}

/// A number in 32 bits; want of memory where it needs more.
pub(crate) fn short(n: usize) -> Result<u32, NoMemory>
    ensures { IfOk result (λ x. x ≡ n) }
{
    match u32::try_from(n) {
        Ok(x) => Ok(x),
        Err(_) => Err(NoMemory),
    }
}

/// The entry of an instance, none past the last one.
fn entry_at(entries: &[EntryId], p: u32) -> Option<EntryId>
    ensures { result ≡ slice_get entries.now p }
{
    match entries.get(p as usize) {
        None => None,
        Some(id) => Some(*id),
    }
}

/// Numbers the own instances of the next instance, whose entry this is, behind all others.
fn number_kids(
    db: &DbState,
    entries: &mut Vec<EntryId>,
    first: &mut Vec<u32>,
    id: EntryId,
) -> Result<(), NoMemory>
    requires { id.0 < length db.now.entries }
    ensures entries { OnOk result (entries.new.items ≡ entries.old.items ++ kids_of db.now.entries id) }
    ensures first { OnOk result (first.new.items ≡ first.old.items ++ length entries.old.items ∷ []) }
{
    first.push(short(entries.as_slice().len())?)?;
    entries.extend_from_slice(db.get(id).kids())?;
    Ok(())
}

impl Layout {
    /// The layout of an entry's unfolding.
    pub fn new(alloc: Global, db: &DbState, top: EntryId) -> Result<Layout, NoMemory>
        requires { top.0 < length db.now.entries }
        ensures { IfOk result (λ layout. IsLayout db.now.entries top layout) }
    {
        db.legal();
        let mut entries = Vec::new(alloc);
        let mut first = Vec::new(alloc);
        entries.push(top)?;
        'instances: for p in 0..u32::MAX {
            match entry_at(entries.as_slice(), p) {
                None => {
                    return Ok(Layout { entries, first });
                }
                Some(id) => number_kids(db, &mut entries, &mut first, id)?,
            }
        }
        Err(NoMemory)
    }

    /// How many instances there are.
    pub fn len(&self) -> usize
        ensures { result ≡ length self.now.entries }
    {
        self.entries.as_slice().len()
    }

    /// The entry of an instance.
    pub fn entry(&self, p: usize) -> EntryId
        requires { p < length self.now.entries }
        ensures { slice_get self.now.entries p ≡ Some result }
    {
        self.entries.as_slice()[p]
    }

    /// The number of an own instance of an instance.
    pub fn kid(&self, p: usize, i: InstId) -> usize
        requires { p < length self.now.first }
        ensures { result ≡ slice_index self.now.first p + i.0 }
    {
        self.first.as_slice()[p] as usize + i.0 as usize
    }
}
