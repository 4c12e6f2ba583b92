//! The paths of a circuit and an order of its nodes.
ghost use Rattle.std.specs.Prelude.{◌≡◌, ℕ, ◌≤◌, [], length, reverse, IfOk, IfErr, OnOk};
ghost use Rattle.hc_paths.specs.Kids.{masks_of};
ghost use Rattle.hc_paths.specs.Local.{AreLocalMasks, AreMasksOfKids, HasLocalLoop};
ghost use Rattle.hc_paths.specs.Order.{IsLocalOrder};
ghost use Rattle.hc_paths.specs.Schedule.{IsSchedule};
ghost use Rattle.hc_signal.specs.Occurrences.{AreMasks, HasCombLoop};
ghost use Rattle.hc_signal.specs.Tree.{Tree, leaf, tree};

use crate::kinds::{PathStop, Paths};
use crate::local::{local_paths, order_backwards};
use hc_signal::{Circuit, NodeId};
use std::alloc::Global;

/// The paths of a circuit whose instances have the paths `kids`, in order. `Loop` where a path through nodes and, by
/// their masks, through instances is closed in what the outputs reach. An instance without a mask for an output passes
/// nothing on to it.
pub fn paths(alloc: Global, circuit: &Circuit, kids: &[Paths]) -> Result<Paths, PathStop>
    requires { length circuit.now.ports.inputs ≤ 128 }
    // by the masks alone
    ensures local_masks { IfOk result (λ paths. AreLocalMasks circuit.now (masks_of kids.now) paths.masks) }
    ensures local_free { OnOk result (¬ HasLocalLoop circuit.now (masks_of kids.now)) }
    ensures local_cycle { IfErr result (λ stop. stop ≡ PathStop.Loop → HasLocalLoop circuit.now (masks_of kids.now)) }
    // for any trees of the instances that have these masks
    ensures masks { IfOk result (λ paths. (trees : ℕ → Tree) → AreMasksOfKids (tree circuit.now trees) (masks_of kids.now) → AreMasks (tree circuit.now trees) paths.masks) }
    ensures free { OnOk result ((trees : ℕ → Tree) → AreMasksOfKids (tree circuit.now trees) (masks_of kids.now) → ¬ HasCombLoop (tree circuit.now trees)) }
    ensures cycle { IfErr result (λ stop. stop ≡ PathStop.Loop → (trees : ℕ → Tree) → AreMasksOfKids (tree circuit.now trees) (masks_of kids.now) → HasCombLoop (tree circuit.now trees)) }
{
    circuit.lawful();
    local_paths(alloc, circuit, kids)
}

/// The nodes that the outputs of a circuit reach, each once, each after those that it is computed from in the same cycle,
/// through an instance by its masks. `Loop` where there is no such order, since a path is closed.
pub fn local_order(
    alloc: Global,
    circuit: &Circuit,
    kids: &[Paths],
) -> Result<Vec<NodeId>, PathStop>
    ensures order { IfOk result (λ order. IsLocalOrder circuit.now (masks_of kids.now) (reverse order.items)) }
    ensures free { OnOk result (¬ HasLocalLoop circuit.now (masks_of kids.now)) }
    ensures cycle { IfErr result (λ stop. stop ≡ PathStop.Loop → HasLocalLoop circuit.now (masks_of kids.now)) }
    // there is one for the masks of trees that have no loop
    ensures answered { (trees : ℕ → Tree) → AreMasksOfKids (tree circuit.now trees) (masks_of kids.now) → ¬ HasCombLoop (tree circuit.now trees) → IfErr result (λ stop. stop ≡ PathStop.NoMemory) }
{
    circuit.lawful();
    let order = order_backwards(alloc, circuit, kids)?;
    Ok(order.into_vec())
}

/// The nodes that the outputs of a circuit without instances reach, each once, each after those that it is computed from
/// in the same cycle. `Loop` where there is no such order, since a path is closed.
pub fn schedule(alloc: Global, circuit: &Circuit) -> Result<Vec<NodeId>, PathStop>
    requires { circuit.now.instances ≡ [] }
    ensures schedule { IfOk result (λ order. IsSchedule circuit.now order.items) }
    ensures free { OnOk result (¬ HasCombLoop (leaf circuit.now)) }
    ensures cycle { IfErr result (λ stop. stop ≡ PathStop.Loop → HasCombLoop (leaf circuit.now)) }
{
    circuit.lawful();
    let order = order_backwards(alloc, circuit, &[])?;
    Ok(order.into_vec())
}
