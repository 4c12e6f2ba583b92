//! The memories of a circuit, and those of all instances at the start.
ghost use Rattle.std.specs.Prelude.{◌≡◌, ◌++◌, ◌∷◌, [], IfOk, OnOk};
ghost use Rattle.hc_canon.specs.declared.form.EntryId.{EntryId as Id};
ghost use Rattle.hc_hierstate.specs.Changes.{zero_row, zero_rows};
ghost use Rattle.hc_hierstate.specs.States.{memories_in};
ghost use Rattle.hc_layout.specs.Layout.{IsLayout};

use hc_dbstate::DbState;
use hc_fault::NoMemory;
use hc_layout::Layout;
use hc_rows::Rows;
use hc_signal::{Circuit, MemId};
use hc_values::Words;
use std::alloc::Global;

/// The memories of a circuit, in order.
pub fn memories_of(alloc: Global, circuit: &Circuit) -> Result<Vec<MemId>, NoMemory>
    ensures { IfOk result (λ ids. ids.items ≡ memories_in circuit.now) }
{
    circuit.lawful();
    let many = circuit.memories().len();
    let mut ids = Vec::new(alloc);
    'memories: for m in 0..many {
        ids.push(MemId(m as u32))?;
    }
    Ok(ids)
}

/// Adds the row of a circuit at the start.
fn push_row(alloc: Global, circuit: &Circuit, rows: &mut Rows<Words>) -> Result<(), NoMemory>
    ensures { OnOk result (rows.new ≡ rows.old ++ zero_row circuit.now ∷ []) }
{
    circuit.lawful();
    let memories = circuit.memories();
    rows.start_row()?;
    'memories: for memory in memories {
        rows.push(Words::zeros(alloc, memory.size, memory.width)?)?;
    }
    Ok(())
}

/// The words of all instances at the start, a row for each instance with the words of each memory, all 0.
pub fn zero_words(alloc: Global, db: &DbState, layout: &Layout) -> Result<Rows<Words>, NoMemory>
    requires { (top : Id) × IsLayout db.now.entries top layout.now }
    ensures { IfOk result (λ rows. rows ≡ zero_rows db.now.entries layout.now) }
{
    let mut rows = Rows::new(alloc);
    'instances: for p in 0..layout.len() {
        push_row(alloc, db.get(layout.entry(p)).circuit(), &mut rows)?;
    }
    Ok(rows)
}
