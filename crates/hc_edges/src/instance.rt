//! One instance.
ghost use Rattle.std.specs.Prelude.{◌≡◌, ℕ, ◌<◌, false, length, slice_get};
ghost use Rattle.hc_bits.specs.BitVector.{BitVector};
ghost use Rattle.hc_canon.specs.declared.form.EntryId.{EntryId};
ghost use Rattle.hc_canon.specs.FormView.{FormView};
ghost use Rattle.hc_steps.specs.Compiled.{PlanView};
ghost use Rattle.hc_store.specs.Given.{IsFit, IsInstance};
ghost use Rattle.hc_store.specs.Stored.{IsStoreOf};
ghost use Rattle.hc_edges.specs.Clocked.{given};
ghost use Rattle.hc_edges.specs.Edges.{IsSameAt, ResetsAt, StepsAt};

use crate::clocked::Clocked;
use crate::contents::Contents;
use crate::rows::{reset_row, step_row, write_row};
use hc_store::{Store, wake_all};

/// The clock edge of an instance. Tells whether a register or a word changed.
pub(crate) fn step_instance(
    clocked: &Clocked<'_>,
    contents: &mut Contents,
    store: &Store,
    p: usize,
) -> bool
    requires fit { IsFit (given clocked.now contents.old) }
    requires store { IsStoreOf (given clocked.now contents.old) store.now }
    requires instance { p < length clocked.now.entries }
    ensures fit { IsFit (given clocked.now contents.new) }
    ensures steps { (id : EntryId) (form : FormView) (plan : PlanView) → IsInstance (given clocked.now contents.old) p id form plan → StepsAt clocked.now store.now.values p id form contents.old contents.new }
    ensures told { result ≡ false → IsSameAt p contents.old contents.new }
    ensures others { (q : ℕ) → ¬ (p ≡ q) → IsSameAt q contents.old contents.new }
{
    let id = clocked.entry(p);
    let circuit = clocked.form(id).circuit();
    let values = store.values.row(p);
    let stepped = step_row(
        circuit,
        clocked.registers(id),
        values,
        &mut contents.registers,
        p,
    );
    let written = write_row(
        circuit,
        clocked.memories(id),
        values,
        &mut contents.words,
        p,
    );
    stepped || written
}

/// The reset of an instance. Tells whether a register changed.
pub(crate) fn reset_instance(clocked: &Clocked<'_>, contents: &mut Contents, p: usize) -> bool
    requires fit { IsFit (given clocked.now contents.old) }
    requires instance { p < length clocked.now.entries }
    ensures fit { IsFit (given clocked.now contents.new) }
    ensures resets { (id : EntryId) (form : FormView) (plan : PlanView) → IsInstance (given clocked.now contents.old) p id form plan → ResetsAt clocked.now p id form contents.old contents.new }
    ensures words { contents.new.words ≡ contents.old.words }
    ensures told { result ≡ false → IsSameAt p contents.old contents.new }
    ensures others { (q : ℕ) → ¬ (p ≡ q) → IsSameAt q contents.old contents.new }
{
    let id = clocked.entry(p);
    let circuit = clocked.form(id).circuit();
    reset_row(circuit, clocked.registers(id), &mut contents.registers, p)
}
