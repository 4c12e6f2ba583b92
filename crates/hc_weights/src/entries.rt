//! The weight of the entries that an entry uses.
ghost use Rattle.std.specs.Prelude.{◌≡◌, ◌+◌, ◌<◌, drop, length, IfOk};
ghost use Rattle.hc_weights.specs.Weights.{weight_where, IsUsedWeight};

use crate::circuits::{circuit_weight, sum_of};
use hc_canon::EntryId;
use hc_dbstate::{DbState, is_marked, used_entries};
use hc_fault::NoMemory;
use std::alloc::Global;

/// The sum with the weight of an entry, if it is marked.
fn with_entry(db: &DbState, marks: &[bool], sum: u64, place: usize) -> Result<u64, NoMemory>
    requires { place < length db.now.entries }
    ensures { IfOk result (λ n. n + weight_where (drop (place + 1) marks.now) (drop (place + 1) db.now.entries) ≡ sum + weight_where (drop place marks.now) (drop place db.now.entries)) }
{
    let id = EntryId(place);
    if is_marked(marks, id) {
        let weight = circuit_weight(db.get(id).circuit())?;
        sum_of(sum, weight)
    } else {
        Ok(sum)
    }
}

/// The weight of the entries that are marked.
fn marked_weight(db: &DbState, marks: &[bool]) -> Result<u64, NoMemory>
    ensures { IfOk result (λ n. n ≡ weight_where marks.now db.now.entries) }
{
    let mut sum = 0;
    'entries: for place in 0..db.len() {
        sum = with_entry(db, marks, sum, place)?;
    }
    Ok(sum)
}

/// The weight of the forms of the entries that an entry uses, each once.
pub fn used_weight(alloc: Global, db: &DbState, top: EntryId) -> Result<u64, NoMemory>
    requires { top.0 < length db.now.entries }
    ensures { IfOk result (λ n. IsUsedWeight db.now.entries top n) }
{
    let marks = used_entries(alloc, db, top)?;
    marked_weight(db, marks.as_slice())
}
