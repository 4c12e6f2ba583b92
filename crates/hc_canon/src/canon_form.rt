ghost use Rattle.std.specs.Prelude.{◌≡◌, length, IfOk};
ghost use Rattle.hc_canon.specs.FormView.{IsCanonOf};
ghost use Rattle.hc_signal.specs.Checked.{IsChecked};

use crate::form::{EntryId, Form};
use crate::layout::lay_out;
use crate::numbers::{numbers_of, order_of};
use crate::renumber::pick;
use hc_fault::{ItemList, NoMemory};
use hc_signal::Circuit;
use hc_walk::walk;
use std::alloc::Global;

/// The form of a checked circuit and of the entries of its instances, one for each instance in order. It holds what the
/// outputs reach, and all input ports.
pub fn canon(alloc: Global, circuit: &Circuit, kids: &[EntryId]) -> Result<Form, NoMemory>
    requires checked { IsChecked circuit.now }
    requires kids { length kids.now ≡ length circuit.now.instances }
    ensures { IfOk result (λ form. IsCanonOf circuit.now kids.now form) }
{
    circuit.lawful();
    let met = walk(alloc, circuit)?;
    let met = met.as_slice();
    let order = order_of(alloc, circuit, met)?;
    let numbers = numbers_of(alloc, circuit, met, &order)?;
    let made = lay_out(alloc, circuit, met, &order, &numbers)?;
    let kids = pick(
        alloc,
        &numbers,
        kids,
        order.instances.as_slice(),
        Vec::new(alloc),
    )?;
    Ok(Form::of_parts(made, ItemList::from_vec(kids)))
}
