//! The whole text of a workload.
ghost use Rattle.std.specs.Prelude.{◌≡◌, OnOk, IfOk};
ghost use Rattle.hc_workload.specs.Fills.{Fills};
ghost use Rattle.hc_workload.specs.Template.{each};
ghost use Rattle.hc_workload.specs.Workload.{leaf, level_circuits, turn, workload, workload_template};

use crate::draft::Draft;
use crate::leaves::push_leaf;
use crate::levels::{LEAVES, push_level};
use hc_fault::NoMemory;
use std::alloc::Global;

/// How many levels of instances stand above the leaves.
const LEVELS: u64 = 6;
/// How often the bench sets the inputs and runs a cycle.
const TURNS: u64 = 64;
/// The numbers that the bench sets are below this.
const INPUT_LIMIT: u64 = 2_147_483_648;
/// A text has about this many bytes.
const USUAL_LENGTH: usize = 16_384;

/// The leaves.
fn push_leaves(draft: &mut Draft) -> Result<(), NoMemory>
    ensures { OnOk result (Fills (each 16 leaf) draft.old draft.new) }
{
    'places: for place in 0..LEAVES {
        push_leaf(draft, place)?;
    }
    Ok(())
}

/// The levels of circuits of instances.
fn push_levels(draft: &mut Draft) -> Result<(), NoMemory>
    ensures { OnOk result (Fills (each 6 level_circuits) draft.old draft.new) }
{
    'levels: for level in 0..LEVELS {
        push_level(draft, level)?;
    }
    Ok(())
}

/// A turn of the bench: both inputs are set, and a cycle runs.
fn push_turn(draft: &mut Draft) -> Result<(), NoMemory>
    ensures { OnOk result (Fills turn draft.old draft.new) }
{
    draft.push(b"set a ")?;
    draft.push_below(INPUT_LIMIT)?;
    draft.push(b"\nset b ")?;
    draft.push_below(INPUT_LIMIT)?;
    draft.push(b"\ncycle\n")
}

/// The turns of the bench.
fn push_turns(draft: &mut Draft) -> Result<(), NoMemory>
    ensures { OnOk result (Fills (each 64 (λ _. turn)) draft.old draft.new) }
{
    'turns: for _ in 0..TURNS {
        push_turn(draft)?;
    }
    Ok(())
}

/// The whole text, behind what the draft has.
fn push_workload(draft: &mut Draft) -> Result<(), NoMemory>
    ensures { OnOk result (Fills workload_template draft.old draft.new) }
{
    push_leaves(draft)?;
    push_levels(draft)?;
    draft.push(b"top t6_0 32\nbench\n")?;
    push_turns(draft)?;
    draft.push(b"end\n")
}

/// The workload of a seed: the text of a design of 5,461 instances, with a bench of 64 cycles. Equal seeds have equal texts.
/// `NoMemory` is the only refusal.
pub fn generate(alloc: Global, seed: u64) -> Result<Vec<u8>, NoMemory>
    ensures { IfOk result (λ text. text.items ≡ workload seed) }
{
    let mut draft = Draft {
        text: Vec::with_capacity(alloc, USUAL_LENGTH)?,
        state: seed,
    };
    push_workload(&mut draft)?;
    Ok(draft.text)
}
