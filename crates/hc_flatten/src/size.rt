ghost use Rattle.std.specs.Prelude.{◌≡◌, ◌+◌, ◌<◌, length, slice_get, IfOk, IfSome, Some};
ghost use Rattle.hc_dbstate.specs.Unfolding.{tree_of, unfolding_of};
ghost use Rattle.hc_flatten.specs.Sizes.{AreSizes, HasSize, IsAfter, Reaches};

use hc_canon::{EntryId, Form};
use hc_dbstate::{DbState, unfoldings_are_of_kids};
use hc_fault::NoMemory;
use hc_signal::Circuit;
use std::alloc::Global;

/// How many nodes and memories there are.
#[derive(Clone, Copy)]
pub struct Size {
    pub nodes: u32,
    pub memories: u32,
}

impl Size {
    /// Both counts fit 32 bits.
    pub fn fits(self)
        ensures { (self.nodes < 4294967296) × (self.memories < 4294967296) }
    {}
}

/// The sum of two sizes, unless it does not fit.
pub fn plus(a: Size, b: Size) -> Option<Size>
    ensures { IfSome result (λ sum. (sum.nodes ≡ a.nodes + b.nodes) × (sum.memories ≡ a.memories + b.memories)) }
{
    match a.nodes.checked_add(b.nodes) {
        Some(nodes) => match a.memories.checked_add(b.memories) {
            Some(memories) => Some(Size { nodes, memories }),
            None => None,
        },
        None => None,
    }
}

/// A length as a number of 32 bits.
fn count(len: usize) -> Option<u32>
    ensures { IfSome result (λ n. n ≡ len) }
{
    if len <= 4294967295 {
        Some(len as u32)
    } else {
        None
    }
}

/// The size of a circuit without its instances.
pub fn own_size(circuit: &Circuit) -> Option<Size>
    ensures { IfSome result (λ size. (size.nodes ≡ length circuit.now.nodes) × (size.memories ≡ length circuit.now.memories)) }
{
    match count(circuit.nodes().len()) {
        Some(nodes) => match count(circuit.memories().len()) {
            Some(memories) => Some(Size { nodes, memories }),
            None => None,
        },
        None => None,
    }
}

/// The size of an entry, unless it does not fit.
pub fn size_of(sizes: &[Option<Size>], id: EntryId) -> Option<Size>
    ensures { IfSome result (λ size. slice_get sizes.now id.0 ≡ Some (Some size)) }
{
    match sizes.get(id.0) {
        Some(size) => *size,
        None => None,
    }
}

/// The sum of a size and that of an entry.
pub fn after_kid(sizes: &[Option<Size>], start: Size, kid: EntryId) -> Option<Size>
    ensures { IfSome result (λ sum. IsAfter sizes.now start kid sum) }
{
    match size_of(sizes, kid) {
        Some(size) => plus(start, size),
        None => None,
    }
}

/// The size of a form with all that stands below it.
fn form_size(db: &DbState, form: &Form, sizes: &[Option<Size>]) -> Option<Size>
    requires { AreSizes db.now.entries sizes.now }
    ensures { IfSome result (HasSize (tree_of db.now.entries form.now)) }
{
    form.canonical();
    let _ = db;
    let mut sum = own_size(form.circuit())?;
    'kids: for kid in form.kids() {
        sum = after_kid(sizes, sum, *kid)?;
    }
    Some(sum)
}

/// The sizes of all entries.
pub fn entry_sizes(alloc: Global, db: &DbState) -> Result<Vec<Option<Size>>, NoMemory>
    ensures { IfOk result (λ sizes. AreSizes db.now.entries sizes.items) }
{
    db.legal();
    unfoldings_are_of_kids();
    let mut sizes = Vec::new(alloc);
    'entries: for k in 0..db.len() {
        let size = form_size(db, db.get(EntryId(k)), sizes.as_slice());
        sizes.push(size)?;
    }
    Ok(sizes)
}
