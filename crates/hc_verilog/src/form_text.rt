ghost use Rattle.std.specs.Prelude.{◌≡◌, ◌++◌, IfOk, OnOk};
ghost use Rattle.hc_bits.specs.Digits.{lines_text};
ghost use Rattle.hc_naming.specs.NameTable.{name_by};
ghost use Rattle.hc_verilog.specs.ModuleText.{AreNamed, IsFormText, module_of};
ghost use Rattle.hc_verilog.specs.Tables.{AreTables};
ghost use Rattle.hc_verilog.specs.Templates.{module_lines};

use crate::declarations::{push_declarations, push_memories};
use crate::header::push_header;
use crate::instances::push_instances;
use crate::items::push_items;
use crate::memories::push_memory_blocks;
use crate::tables::Tables;
use crate::text::push;
use hc_canon::Form;
use hc_fault::{Name, NoMemory};
use hc_names::Names;
use hc_naming::{first_place, numbered_rows};
use std::alloc::Global;

/// The text of the module of a form, under this name. The module of an instance has the name in the first row of its
/// entry. Refused for want of memory only.
pub fn module_text(
    alloc: Global,
    form: &Form,
    name: &Name,
    names: &Names,
) -> Result<Vec<u8>, NoMemory>
    requires { AreNamed names.now form.now.kids }
    ensures { IfOk result (λ text. IsFormText form.now names.now name.now text.items) }
{
    let tables = Tables::of(alloc, form)?;
    let mut out = Vec::new(alloc);
    push_module(&mut out, form, name.bytes(), names, &tables)?;
    Ok(out)
}

/// The lines of the module.
fn push_module(
    out: &mut Vec<u8>,
    form: &Form,
    title: &[u8],
    modules: &Names,
    tables: &Tables,
) -> Result<(), NoMemory>
    requires { AreTables form.now.circuit tables.now }
    ensures { OnOk result (out.new.items ≡ out.old.items ++ lines_text (module_lines (name_by tables.now.names) form.now.circuit (module_of modules.now form.now.kids) title.now)) }
{
    form.canonical();
    let circuit = form.circuit();
    let names = &tables.names;
    let first = first_place(form);
    let rows = numbered_rows(form);
    push_header(out, circuit, names, title)?;
    push_declarations(out, names, tables.marks.as_slice(), first, rows)?;
    push_memories(out, names, circuit.memories())?;
    push_items(out, circuit, names, first, rows)?;
    push_memory_blocks(out, names, circuit.memories())?;
    push_instances(
        out,
        names,
        &tables.results,
        modules,
        form.kids(),
        circuit.instances(),
    )?;
    push(out, b"endmodule\n")
}
