//! The names of the modules of a hierarchy.
ghost use Rattle.std.specs.Prelude.{◌≡◌, ◌⊎◌, ◌∷◌, [], IfOk, OnOk, false, replicate};
ghost use Rattle.hc_canon.specs.declared.form.EntryId.{EntryId};
ghost use Rattle.hc_dbstate.specs.Elaboration.{IsElaboration, walk};
ghost use Rattle.hc_dbstate.specs.Uses.{IsMarked};
ghost use Rattle.hc_names.specs.Naming.{AreNameRows};
ghost use Rattle.hc_names.specs.Steps.{MarksNamed, NamesTo, names_in, requests};

use crate::names::Names;
use crate::used::Used;
use hc_canon::EntryId;
use hc_dbstate::{DbState, Hier, entries_unfold_once, is_marked};
use hc_fault::{Name, NoMemory};
use std::alloc::Global;

/// The names of the modules of a hierarchy: a row for each entry, in the order of first calls, children before parents.
/// An entry has the name that its first call requests, mangled over the names given before.
pub fn assign(alloc: Global, db: &DbState, hier: &Hier) -> Result<Names, NoMemory>
    requires { IsElaboration db.now.entries hier.now }
    ensures { IfOk result (AreNameRows db.now.entries hier.now) }
{
    db.legal();
    entries_unfold_once();
    let mut used = Used::new(alloc);
    let mut names = Names::new(alloc);
    let mut marks = unmarked(alloc, db.len())?;
    name_calls(&mut used, &mut names, &mut marks, hier)?;
    Ok(names)
}

/// Marks that are all off.
fn unmarked(alloc: Global, len: usize) -> Result<Vec<bool>, NoMemory>
    ensures { IfOk result (λ marks. marks.items ≡ replicate len false) }
{
    Ok(vec![in alloc; false; len]?)
}

/// Marks an entry, where there is a mark for it.
fn mark(marks: &mut Vec<bool>, id: EntryId)
    ensures { (k : EntryId) → IsMarked marks.new.items k → IsMarked marks.old.items k ⊎ (k ≡ id) }
{
    if id.0 < marks.len() {
        marks[id.0] = true;
    }
}

/// Names the calls of a hierarchy.
fn name_calls(
    used: &mut Used,
    names: &mut Names,
    marks: &mut Vec<bool>,
    hier: &Hier,
) -> Result<(), NoMemory>
    requires used { used.old ≡ names_in names.old }
    requires marks { MarksNamed names.old marks.old.items }
    ensures named { OnOk result (NamesTo names.old (requests (walk hier.now)) names.new) }
    ensures taken { OnOk result (used.new ≡ names_in names.new) }
    ensures marked { OnOk result (MarksNamed names.new marks.new.items) }
{
    let kids = hier.kids.as_slice();
    'kids: for kid in kids {
        name_calls(used, names, marks, kid)?;
    }
    name_marked(used, names, marks, hier.entry, &hier.name)
}

/// Names one call, where its entry has no name yet, and marks the entry. Marked entries have names.
fn name_marked(
    used: &mut Used,
    names: &mut Names,
    marks: &mut Vec<bool>,
    entry: EntryId,
    requested: &Name,
) -> Result<(), NoMemory>
    requires used { used.old ≡ names_in names.old }
    requires marks { MarksNamed names.old marks.old.items }
    ensures named { OnOk result (NamesTo names.old ((entry, requested.now) ∷ []) names.new) }
    ensures taken { OnOk result (used.new ≡ names_in names.new) }
    ensures marked { OnOk result (MarksNamed names.new marks.new.items) }
{
    if is_marked(marks.as_slice(), entry) {
        return Ok(());
    }
    name_call(used, names, entry, requested)?;
    mark(marks, entry);
    Ok(())
}

/// Names one call, where its entry has no name yet.
fn name_call(
    used: &mut Used,
    names: &mut Names,
    entry: EntryId,
    requested: &Name,
) -> Result<(), NoMemory>
    requires { used.old ≡ names_in names.old }
    ensures named { OnOk result (NamesTo names.old ((entry, requested.now) ∷ []) names.new) }
    ensures taken { OnOk result (used.new ≡ names_in names.new) }
{
    if names.of(entry).is_some() {
        return Ok(());
    }
    let name = used.take(requested)?;
    names.add(entry, name)
}
