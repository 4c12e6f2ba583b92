//! What is waited for before each node is computed.
ghost use Rattle.std.specs.Prelude.{◌≡◌, ◌≤◌, length, reverse, slice_index_or, slice_set, bit_and, IfOk, OnOk};
ghost use Rattle.hc_draft.specs.Needs.{cleared, narrowed, narrowed_by, needs_of_nodes, swept, unless_free};
ghost use Rattle.hc_paths.specs.Fanin.{filled, local_fanin};
ghost use Rattle.hc_paths.specs.Kids.{masks_of};

use hc_fault::NoMemory;
use hc_paths::fanin::fanin;
use hc_paths::kinds::Paths;
use hc_paths::masks::fill;
use hc_signal::{Circuit, NodeId};
use std::alloc::Global;

/// A mask of a list, none past its end.
pub(crate) fn mask_at(masks: &[u128], at: usize) -> u128
    ensures { result ≡ slice_index_or masks.now at 0 }
{
    masks.get(at).copied().unwrap_or(0)
}

/// Takes the inputs from a mask that another has not.
#[tactic(auto, using(std::proofs::lemmas::List::set_past))]
pub(crate) fn narrow_mask(masks: &mut Vec<u128>, at: usize, within: u128)
    ensures { masks.new.items ≡ slice_set masks.old.items at (bit_and (slice_index_or masks.old.items at 0) within) }
{
    if let Some(mask) = masks.get_mut(at) {
        *mask &= within;
    }
}

/// Of each node the inputs that it depends on, where a mask has a bit for each input.
fn depends_of_few(
    alloc: Global,
    circuit: &Circuit,
    kids: &[Paths],
    order: &[NodeId],
) -> Result<Vec<u128>, NoMemory>
    requires { length circuit.now.ports.inputs ≤ 128 }
    ensures { IfOk result (λ masks. masks.items ≡ filled circuit.now (masks_of kids.now) (reverse order.now)) }
{
    circuit.lawful();
    fill(alloc, circuit, kids, order)
}

/// Of each node the inputs that it depends on.
fn depends(
    alloc: Global,
    circuit: &Circuit,
    kids: &[Paths],
    order: &[NodeId],
) -> Result<Vec<u128>, NoMemory>
    ensures { IfOk result (λ masks. masks.items ≡ filled circuit.now (masks_of kids.now) (reverse order.now)) }
{
    if circuit.ports().inputs.as_slice().len() > 128 {
        return Err(NoMemory);
    }
    depends_of_few(alloc, circuit, kids, order)
}

/// Makes the masks of these nodes lie within one.
fn narrow_all(masks: &mut Vec<u128>, ids: &[NodeId], within: u128)
    ensures { masks.new.items ≡ narrowed within ids.now masks.old.items }
{
    'ids: for id in ids {
        narrow_mask(masks, id.0 as usize, within);
    }
}

/// Of each output's node what the output waits for.
fn narrow_outputs(masks: &mut Vec<u128>, outputs: &[NodeId], own: &[u128])
    ensures { masks.new.items ≡ narrowed_by own.now 0 outputs.now masks.old.items }
{
    'outputs: for port in 0..outputs.len() {
        narrow_mask(masks, outputs[port].0 as usize, mask_at(own, port));
    }
}

/// A mask, or none where a node depends on no input.
fn unless_free(depends: u128, mask: u128) -> u128
    ensures { result ≡ unless_free depends mask }
{
    if depends == 0 { 0 } else { mask }
}

/// The masks but for those of nodes that depend on no input.
fn clear_free(alloc: Global, depends: &[u128], masks: &[u128]) -> Result<Vec<u128>, NoMemory>
    ensures { IfOk result (λ list. list.items ≡ cleared depends.now 0 masks.now) }
{
    let mut list = Vec::new(alloc);
    'each: for at in 0..masks.len() {
        list.push(unless_free(mask_at(depends, at), masks[at]))?;
    }
    Ok(list)
}

/// Each node of an order, readers first, gives its mask to what it is computed from.
fn sweep(
    alloc: Global,
    masks: &mut Vec<u128>,
    circuit: &Circuit,
    kids: &[Paths],
    order: &[NodeId],
) -> Result<(), NoMemory>
    ensures { OnOk result (masks.new.items ≡ swept (local_fanin circuit.now (masks_of kids.now)) (reverse order.now) masks.old.items) }
{
    let mut ids = Vec::new(alloc);
    'order: for id in order.iter().rev() {
        fanin(&mut ids, circuit, kids, *id)?;
        let within = mask_at(masks.as_slice(), id.0 as usize);
        narrow_all(masks, ids.as_slice(), within);
    }
    Ok(())
}

/// Of each node what is waited for: nothing where it depends on no input, else what each output that is computed from it
/// needs anyway.
pub(crate) fn node_needs(
    alloc: Global,
    circuit: &Circuit,
    kids: &[Paths],
    order: &[NodeId],
    own: &[u128],
    every: u128,
) -> Result<Vec<u128>, NoMemory>
    ensures { IfOk result (λ masks. masks.items ≡ needs_of_nodes circuit.now (masks_of kids.now) (reverse order.now) own.now every) }
{
    let free = depends(alloc, circuit, kids, order)?;
    let mut masks = vec![in alloc; every; circuit.nodes().len()]?;
    narrow_outputs(&mut masks, circuit.outputs(), own);
    sweep(alloc, &mut masks, circuit, kids, order)?;
    clear_free(alloc, free.as_slice(), masks.as_slice())
}
