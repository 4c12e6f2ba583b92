ghost use Rattle.std.specs.Prelude.{◌≡◌, ◌<◌, ◌≤◌, [], length, IfOk};
ghost use Rattle.hc_flatten.specs.Flattened.{IsFlattened, flat_memories, flat_nodes, top};
ghost use Rattle.hc_dbstate.specs.Elaboration.{IsElaboration, hier_view};
ghost use Rattle.hc_dbstate.specs.Unfolding.{unfolding_of};
ghost use Rattle.hc_signal.specs.Checked.{IsChecked};
ghost use Rattle.hc_signal.specs.FlatGraph.{IsFlat};
ghost use Rattle.hc_signal.specs.Occurrences.{HasCombLoop};
ghost use Rattle.hc_signal.specs.Tree.{leaf};

use crate::layout::{Laid, lay};
use crate::place::Place;
use crate::size::{entry_sizes, size_of};
use hc_canon::{EntryId, ports_copy};
use hc_dbstate::{DbState, Hier, walks_are_whole};
use hc_fault::{ItemList, NoMemory};
use hc_signal::{Circuit, NodeId};
use std::alloc::Global;

/// The same nodes.
fn ids_copy(alloc: Global, ids: &[NodeId]) -> Result<ItemList<NodeId>, NoMemory>
    ensures { IfOk result (λ made. made ≡ ids.now) }
{
    let mut made = Vec::new(alloc);
    'ids: for id in ids {
        made.push(*id)?;
    }
    Ok(ItemList::from_vec(made))
}

/// Lays an entry with all that stands below it.
fn lay_top(alloc: Global, db: &DbState, entry: EntryId) -> Result<Laid, NoMemory>
    requires { entry.0 < length db.now.entries }
    ensures nodes { IfOk result (λ laid. laid.nodes.items ≡ flat_nodes top (unfolding_of db.now.entries entry)) }
    ensures memories { IfOk result (λ laid. laid.memories.items ≡ flat_memories top (unfolding_of db.now.entries entry)) }
    ensures few { IfOk result (λ laid. (length laid.nodes.items ≤ 4294967296) × (length laid.memories.items ≤ 4294967296)) }
{
    let sizes = entry_sizes(alloc, db)?;
    let size = match size_of(sizes.as_slice(), entry) {
        Some(size) => size,
        None => return Err(NoMemory),
    };
    size.fits();
    let mut laid = Laid {
        nodes: Vec::with_capacity(alloc, size.nodes as usize)?,
        memories: Vec::with_capacity(alloc, size.memories as usize)?,
    };
    let top = Place {
        nodes: 0,
        memories: 0,
        inputs: None,
    };
    lay(alloc, db, sizes.as_slice(), entry, &top, &mut laid)?;
    Ok(laid)
}

/// The flattened circuit.
fn flat_circuit(alloc: Global, db: &DbState, hier: &Hier) -> Result<Circuit, NoMemory>
    requires { IsElaboration db.now.entries hier.now }
    ensures { IfOk result (IsFlattened (unfolding_of db.now.entries (hier_view hier.now).own.entry)) }
{
    walks_are_whole();
    db.legal();
    let Laid { nodes, memories } = lay_top(alloc, db, hier.entry)?;
    let circuit = db.get(hier.entry).circuit();
    let ports = ports_copy(alloc, circuit.ports())?;
    let outputs = ids_copy(alloc, circuit.outputs())?;
    Ok(Circuit::of_parts(
        ports,
        outputs,
        ItemList::from_vec(nodes),
        ItemList::from_vec(memories),
        ItemList::new(alloc),
    ))
}

/// The circuit without instances that stands for the hierarchy. An input of an instance is its connection, and an output
/// of an instance is the wire of the inner output; labels are kept. It keeps the rules of a checked circuit and has no
/// combinational loop. It is refused only for want of memory.
pub fn flatten(alloc: Global, db: &DbState, hier: &Hier) -> Result<Circuit, NoMemory>
    requires { IsElaboration db.now.entries hier.now }
    ensures flat { IfOk result (λ c. IsFlat (unfolding_of db.now.entries (hier_view hier.now).own.entry) c) }
    ensures instances { IfOk result (λ c. c.instances ≡ []) }
    ensures checked { IfOk result (λ c. IsChecked c) }
    ensures no_loop { IfOk result (λ c. ¬ HasCombLoop (leaf c)) }
{
    flat_circuit(alloc, db, hier)
}
