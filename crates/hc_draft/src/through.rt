//! What an instance leads through.
ghost use Rattle.std.specs.Prelude.{◌≡◌, unwrap_or};
ghost use Rattle.hc_paths.specs.Kids.{masks_of};
ghost use Rattle.hc_paths.specs.Local.{mask_at};
ghost use Rattle.hc_signal.specs.Occurrences.{connection};

use hc_paths::kinds::Paths;
use hc_signal::{Circuit, InstId, NodeId};

/// The mask of an output of an instance, none where it has none.
pub(crate) fn mask_of_output(kids: &[Paths], inst: InstId, port: u32) -> u128
    ensures { result ≡ unwrap_or (mask_at (masks_of kids.now) inst.0 port) 0 }
{
    match kids.get(inst.0 as usize) {
        None => 0,
        Some(kid) => match kid.masks.as_slice().get(port as usize) {
            None => 0,
            Some(mask) => *mask,
        },
    }
}

/// The node that an input of an instance is connected to.
pub(crate) fn connection(circuit: &Circuit, inst: InstId, port: u32) -> Option<NodeId>
    ensures { result ≡ connection circuit.now inst.0 port }
{
    match circuit.instances().get(inst.0 as usize) {
        None => None,
        Some(it) => it.conns.as_slice().get(port as usize).copied(),
    }
}
