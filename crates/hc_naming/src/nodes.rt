//! The numbered nodes of a form, and the marks of its outputs.
ghost use Rattle.std.specs.Prelude.{◌≡◌, ℕ, ◌+◌, ◌≤◌, ◌<◌, ◌^◌, ◌==◌, ◌||◌, IfOk, length, drop, slice_index_or};
ghost use Rattle.std.specs.List.{list_any};
ghost use Rattle.hc_naming.specs.ModuleNames.{first_number};
ghost use Rattle.hc_naming.specs.NameTable.{mark_at, AreMarks};

use hc_canon::Form;
use hc_fault::NoMemory;
use hc_signal::{NodeId, NodeRow};
use std::alloc::Global;

/// The place of the first numbered node.
pub fn first_place(form: &Form) -> usize
    ensures { result ≡ first_number form.now.circuit }
{
    form.circuit().ports().inputs.as_slice().len()
}

/// The numbered nodes.
pub fn numbered_rows(form: &Form) -> &[NodeRow]
    ensures rows { result.now ≡ drop (first_number form.now.circuit) form.now.circuit.nodes }
    ensures room { first_number form.now.circuit + length result.now ≤ length form.now.circuit.nodes }
    ensures few { length form.now.circuit.nodes ≤ 2 ^ 32 }
{
    form.canonical();
    form.circuit().nodes().split_at(first_place(form)).1
}

/// Marks these nodes.
fn mark(marks: &mut Vec<bool>, ids: &[NodeId])
    requires { (k : ℕ) → k < length ids.now → (slice_index_or ids.now k (record { 0 = 0 })).0 < length marks.old.items }
    ensures { (n : ℕ) → mark_at marks.new.items n ≡ (mark_at marks.old.items n || list_any (λ (id : NodeId). id.0 == n) ids.now) }
{
    for id in ids {
        marks[id.0 as usize] = true;
    }
}

/// The marks of the outputs, by node. Refused for want of memory only.
pub fn output_marks(alloc: Global, form: &Form) -> Result<Vec<bool>, NoMemory>
    ensures { IfOk result (λ marks. AreMarks form.now.circuit marks.items) }
{
    form.canonical();
    let circuit = form.circuit();
    let mut marks = vec![in alloc; false; circuit.nodes().len()]?;
    mark(&mut marks, circuit.outputs());
    Ok(marks)
}
