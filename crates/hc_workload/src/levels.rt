//! The circuits of a workload that are made of instances, level by level.
ghost use Rattle.std.specs.Prelude.{◌<◌, ◌+◌, OnOk};
ghost use Rattle.hc_workload.specs.Fills.{Fills};
ghost use Rattle.hc_workload.specs.Template.{each};
ghost use Rattle.hc_workload.specs.Workload.{circuit, drawn_circuit, instance_line, level_circuits};

use crate::draft::Draft;
use crate::leaves::HEADS;
use hc_fault::NoMemory;

/// How many leaves there are.
pub(crate) const LEAVES: u64 = 16;
/// How many circuits a level has.
const CIRCUITS: u64 = 4;
/// How many instances each of them has.
const INSTANCES: u64 = 4;

/// The name of a circuit of a level, or of a leaf below the first level, which is drawn.
fn push_drawn_circuit(draft: &mut Draft, level: u64) -> Result<(), NoMemory>
    ensures { OnOk result (Fills (drawn_circuit level) draft.old draft.new) }
{
    if level == 0 {
        draft.push(b"leaf")?;
        return draft.push_below(LEAVES);
    }
    draft.push(b"t")?;
    draft.push_number(level)?;
    draft.push(b"_")?;
    draft.push_below(CIRCUITS)
}

/// The line of an instance of a circuit of this level.
fn push_instance(draft: &mut Draft, level: u64, place: u64) -> Result<(), NoMemory>
    ensures { OnOk result (Fills (instance_line level place) draft.old draft.new) }
{
    draft.push(b"inst u[")?;
    draft.push_number(place)?;
    draft.push(b"] ")?;
    push_drawn_circuit(draft, level)?;
    draft.push(b" n : a=a b=b\n")
}

/// The lines of instances of circuits of this level.
fn push_instances(draft: &mut Draft, level: u64) -> Result<(), NoMemory>
    ensures { OnOk result (Fills (each 4 (instance_line level)) draft.old draft.new) }
{
    'places: for place in 0..INSTANCES {
        push_instance(draft, level, place)?;
    }
    Ok(())
}

/// A circuit of instances of this level, which itself stands one level higher.
fn push_circuit(draft: &mut Draft, level: u64, place: u64) -> Result<(), NoMemory>
    requires { level < 6 }
    ensures { OnOk result (Fills (circuit level place) draft.old draft.new) }
{
    draft.push(b"circuit t")?;
    draft.push_number(level + 1)?;
    draft.push(b"_")?;
    draft.push_number(place)?;
    draft.push(b" n\n")?;
    draft.push(HEADS)?;
    push_instances(draft, level)?;
    draft.push(b"assign q add(xor(u[0].q,u[1].q),sub(u[2].q,u[3].q))\n")
}

/// The circuits of instances of this level.
pub(crate) fn push_level(draft: &mut Draft, level: u64) -> Result<(), NoMemory>
    requires { level < 6 }
    ensures { OnOk result (Fills (level_circuits level) draft.old draft.new) }
{
    'places: for place in 0..CIRCUITS {
        push_circuit(draft, level, place)?;
    }
    Ok(())
}
