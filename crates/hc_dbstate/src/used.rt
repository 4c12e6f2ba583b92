//! The entries that an entry uses.
ghost use Rattle.std.specs.Prelude.{◌≡◌, ◌↔◌, ◌<◌, length, replicate, IfOk, true, false};
ghost use Rattle.hc_canon.specs.declared.form.EntryId.{EntryId};
ghost use Rattle.hc_dbstate.specs.Uses.{AreUses, IsMarked, with_mark, with_marks};
ghost use Rattle.hc_signal.specs.Member.{Has};

use crate::database::DbState;
use hc_canon::EntryId;
use hc_fault::NoMemory;
use std::alloc::Global;

/// Marks that are all off.
fn unmarked(alloc: Global, len: usize) -> Result<Vec<bool>, NoMemory>
    ensures { IfOk result (λ marks. marks.items ≡ replicate len false) }
{
    Ok(vec![in alloc; false; len]?)
}

/// Marks an entry.
fn mark(marks: &mut Vec<bool>, id: EntryId)
    requires { id.0 < length marks.old.items }
    ensures { marks.new.items ≡ with_mark marks.old.items id }
{
    marks[id.0] = true;
}

/// Marks entries.
fn mark_all(marks: &mut Vec<bool>, ids: &[EntryId])
    requires { (id : EntryId) → Has ids.now id → id.0 < length marks.old.items }
    ensures { marks.new.items ≡ with_marks marks.old.items ids.now }
{
    'ids: for id in ids {
        mark(marks, *id);
    }
}

/// Whether an entry is marked.
pub fn is_marked(marks: &[bool], id: EntryId) -> bool
    ensures { (result ≡ true) ↔ IsMarked marks.now id }
{
    match marks.get(id.0) {
        Some(marked) => *marked,
        None => false,
    }
}

/// Marks of the entries that an entry uses, by their places. Kids stand at lower places, so one pass down is enough.
pub fn used_entries(alloc: Global, db: &DbState, top: EntryId) -> Result<Vec<bool>, NoMemory>
    requires { top.0 < length db.now.entries }
    ensures { IfOk result (λ marks. AreUses db.now.entries top marks.items) }
{
    db.legal();
    let mut marks = unmarked(alloc, db.len())?;
    mark(&mut marks, top);
    let mut place = db.len();
    while place > 0 {
        place -= 1;
        let id = EntryId(place);
        if is_marked(&marks, id) {
            mark_all(&mut marks, db.get(id).kids());
        }
    }
    Ok(marks)
}
