//! The paths of one circuit, where each instance is known by its masks.
ghost use Rattle.std.specs.Prelude.{◌≡◌, ◌≤◌, length, reverse, IfOk, IfErr, OnOk};
ghost use Rattle.hc_paths.specs.Kids.{masks_of};
ghost use Rattle.hc_paths.specs.Local.{AreLocalMasks, HasLocalLoop};
ghost use Rattle.hc_paths.specs.Order.{IsLocalOrder};

use crate::kinds::{PathStop, Paths};
use crate::masks::{fill, masks_at};
use crate::pile::Pile;
use crate::reached::reached;
use crate::search::order;
use hc_fault::{ItemList, NoMemory};
use hc_signal::{Circuit, NodeId};
use std::alloc::Global;

/// An order of the nodes that the outputs reach, the last node first.
pub fn order_backwards(
    alloc: Global,
    circuit: &Circuit,
    kids: &[Paths],
) -> Result<Pile<NodeId>, PathStop>
    ensures order { IfOk result (λ order. IsLocalOrder circuit.now (masks_of kids.now) order) }
    ensures free { OnOk result (¬ HasLocalLoop circuit.now (masks_of kids.now)) }
    ensures cycle { IfErr result (λ stop. stop ≡ PathStop.Loop → HasLocalLoop circuit.now (masks_of kids.now)) }
{
    circuit.lawful();
    let roots = reached(alloc, circuit)?;
    order(alloc, circuit, kids, roots.as_slice())
}

/// The masks of the outputs, along an order.
fn masks_along(
    alloc: Global,
    circuit: &Circuit,
    kids: &[Paths],
    order: &[NodeId],
) -> Result<Paths, NoMemory>
    requires inputs { length circuit.now.ports.inputs ≤ 128 }
    requires order { IsLocalOrder circuit.now (masks_of kids.now) (reverse order.now) }
    ensures { IfOk result (λ paths. AreLocalMasks circuit.now (masks_of kids.now) paths.masks) }
{
    circuit.lawful();
    let masks = fill(alloc, circuit, kids, order)?;
    let list = masks_at(alloc, masks.as_slice(), circuit.outputs())?;
    Ok(Paths {
        masks: ItemList::from_vec(list),
    })
}

/// The masks of the outputs, or a closed path.
pub fn local_paths(alloc: Global, circuit: &Circuit, kids: &[Paths]) -> Result<Paths, PathStop>
    requires { length circuit.now.ports.inputs ≤ 128 }
    ensures masks { IfOk result (λ paths. AreLocalMasks circuit.now (masks_of kids.now) paths.masks) }
    ensures free { OnOk result (¬ HasLocalLoop circuit.now (masks_of kids.now)) }
    ensures cycle { IfErr result (λ stop. stop ≡ PathStop.Loop → HasLocalLoop circuit.now (masks_of kids.now)) }
{
    let order = order_backwards(alloc, circuit, kids)?.into_vec();
    let paths = masks_along(alloc, circuit, kids, order.as_slice())?;
    Ok(paths)
}
