//! The text of a hierarchy.
ghost use Rattle.std.specs.Prelude.{◌+◌, ◌<◌, IfOk, IsSome, OnOk, length};
ghost use Rattle.hc_dbstate.specs.Elaboration.{CallView, IsElaboration, hier_view, walk};
ghost use Rattle.hc_modules.specs.HierarchyText.{IsHierarchyText};
ghost use Rattle.hc_modules.specs.Pieces.{Appends, AreThere, IsPrinted};
ghost use Rattle.hc_dbstate.specs.Uses.{AreUses};
ghost use Rattle.hc_names.specs.NameRows.{name_of_entry};
ghost use Rattle.hc_signal.specs.Member.{Has};
ghost use Rattle.hc_verilog.specs.ModuleText.{AreNamed};

use hc_canon::{EntryId, Form};
use hc_dbstate::{DbState, Hier, is_marked, used_entries, used_entries_are_called};
use hc_fault::{Name, NoMemory};
use hc_names::Names;
use hc_verilog::module_text;
use std::alloc::Global;

/// Adds the module of a form, after an empty line where it is not the first.
fn push_module(
    alloc: Global,
    out: &mut Vec<u8>,
    first: bool,
    form: &Form,
    name: &Name,
    names: &Names,
) -> Result<(), NoMemory>
    requires { AreNamed names.now form.now.kids }
    ensures { OnOk result (Appends form.now names.now name.now first out.old.items out.new.items) }
{
    let text = module_text(alloc, form, name, names)?;
    if !first {
        out.push(b'\n')?;
    }
    out.extend_from_slice(&text)?;
    Ok(())
}

/// Adds the module of the row at a place, where its entry is marked.
fn push_row(
    alloc: Global,
    out: &mut Vec<u8>,
    first: &mut bool,
    db: &DbState,
    names: &Names,
    used: &[bool],
    top: EntryId,
    place: usize,
) -> Result<(), NoMemory>
    requires used { AreUses db.now.entries top used.now }
    requires there { AreThere db.now.entries top names.now }
    requires printed { IsPrinted db.now.entries top names.now place first.old out.old.items }
    requires within { place < length names.now }
    ensures { OnOk result (IsPrinted db.now.entries top names.now (place + 1) first.new out.new.items) }
{
    let Some((id, name)) = names.row(place) else {
        return Ok(());
    };
    if is_marked(used, id) {
        push_module(alloc, out, *first, db.get(id), name, names)?;
        *first = false;
    }
    Ok(())
}

/// The modules of the rows whose entries are marked.
fn text_of(
    alloc: Global,
    db: &DbState,
    names: &Names,
    used: &[bool],
    top: EntryId,
) -> Result<Vec<u8>, NoMemory>
    requires used { AreUses db.now.entries top used.now }
    requires there { AreThere db.now.entries top names.now }
    ensures { IfOk result (λ text. IsHierarchyText db.now.entries top names.now text.items) }
{
    let mut out = Vec::new(alloc);
    let mut first = true;
    'rows: for place in 0..names.len() {
        push_row(alloc, &mut out, &mut first, db, names, used, top, place)?;
    }
    Ok(out)
}

/// The Verilog of a hierarchy whose entries all have names: the modules of the entries that its top uses, in the order
/// of the names, with an empty line between two.
pub fn verilog(alloc: Global, db: &DbState, hier: &Hier, names: &Names) -> Result<Vec<u8>, NoMemory>
    requires elaboration { IsElaboration db.now.entries hier.now }
    requires named { (call : CallView) → Has (walk hier.now) call → IsSome (name_of_entry names.now call.own.entry) }
    ensures { IfOk result (λ text. IsHierarchyText db.now.entries (hier_view hier.now).own.entry names.now text.items) }
{
    used_entries_are_called();
    let used = used_entries(alloc, db, hier.entry)?;
    text_of(alloc, db, names, &used, hier.entry)
}
