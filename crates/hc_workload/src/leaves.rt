//! The leaves of a workload.
ghost use Rattle.std.specs.Prelude.{OnOk};
ghost use Rattle.hc_workload.specs.Fills.{Fills};
ghost use Rattle.hc_workload.specs.Template.{each};
ghost use Rattle.hc_workload.specs.Workload.{earlier, leaf, operation_line};

use crate::draft::Draft;
use hc_fault::NoMemory;

/// How many operations a leaf has.
const OPERATIONS: u64 = 8;

/// The ports of every circuit.
pub(crate) const HEADS: &[u8] = b"input a n\ninput b n\noutput q n\n";

/// The first operand of an operation: the input `a`, or the operation before it.
fn push_earlier(draft: &mut Draft, place: u64) -> Result<(), NoMemory>
    ensures { OnOk result (Fills (earlier place) draft.old draft.new) }
{
    if place == 0 {
        return draft.push(b"a");
    }
    draft.push(b"x[")?;
    draft.push_number(place - 1)?;
    draft.push(b"]")
}

/// The line of an operation of a leaf.
fn push_operation(draft: &mut Draft, place: u64) -> Result<(), NoMemory>
    ensures { OnOk result (Fills (operation_line place) draft.old draft.new) }
{
    draft.push(b"let x[")?;
    draft.push_number(place)?;
    draft.push(b"] ")?;
    draft.push_one_of(&[b"add", b"sub", b"and", b"or", b"xor"])?;
    draft.push(b"(")?;
    push_earlier(draft, place)?;
    draft.push(b",")?;
    draft.push_one_of(&[b"a", b"b"])?;
    draft.push(b")\n")
}

/// The lines of the operations of a leaf.
fn push_operations(draft: &mut Draft) -> Result<(), NoMemory>
    ensures { OnOk result (Fills (each 8 operation_line) draft.old draft.new) }
{
    'places: for place in 0..OPERATIONS {
        push_operation(draft, place)?;
    }
    Ok(())
}

/// A leaf: a chain of operations behind a register.
pub(crate) fn push_leaf(draft: &mut Draft, place: u64) -> Result<(), NoMemory>
    ensures { OnOk result (Fills (leaf place) draft.old draft.new) }
{
    draft.push(b"circuit leaf")?;
    draft.push_number(place)?;
    draft.push(b" n\n")?;
    draft.push(HEADS)?;
    push_operations(draft)?;
    draft.push(b"reg r x[7]\nassign q r\n")
}
