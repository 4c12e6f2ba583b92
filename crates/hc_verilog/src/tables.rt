//! The tables that the text of a module is written from.
ghost use Rattle.std.specs.Prelude.{IfOk};

use crate::instances::{Results, results_of};
use hc_canon::Form;
use hc_fault::NoMemory;
use hc_naming::{ModuleNames, first_place, numbered_rows, output_marks, take_names};
use std::alloc::Global;

/// The names in a module, the marks of its output nodes, and the nodes of its instances' outputs.
#[derive(Drop)]
pub(crate) struct Tables {
    pub(crate) names: ModuleNames,
    pub(crate) marks: Vec<bool>,
    pub(crate) results: Results,
}

impl Tables {
    ghost use Rattle.hc_verilog.specs.Tables.{AreTables};

    /// The tables of a form's circuit.
    pub(crate) fn of(alloc: Global, form: &Form) -> Result<Tables, NoMemory>
        ensures { IfOk result (AreTables form.now.circuit) }
    {
        let first = first_place(form);
        let rows = numbered_rows(form);
        let marks = output_marks(alloc, form)?;
        let names = take_names(alloc, form, marks.as_slice(), first, rows)?;
        let results = results_of(alloc, first, rows)?;
        Ok(Tables {
            names,
            marks,
            results,
        })
    }
}
