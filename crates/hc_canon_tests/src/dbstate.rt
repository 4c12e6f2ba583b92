ghost use Rattle.std.specs.Prelude.{◌≤◌};

use crate::circuits::{and_first, or_first};
use hc_canon::{EntryId, Form, canon, same};
use hc_check::check;
use hc_dbstate::{DbState, Turn};
use hc_fault::Name;
use hc_signal::Circuit;
use std::alloc::Global;
use std::process::Abort;
use std::test::Fail;

/// Inserts the form of a circuit without instances. The entry has its ports.
fn insert(
    rt: &impl Abort,
    alloc: Global,
    state: &mut DbState,
    circuit: &Circuit,
) -> Result<EntryId, Fail> {
    check(alloc, circuit)?;
    assert_eq!(rt; circuit.instances().len(), 0);
    match state.insert(canon(alloc, circuit, &[])?) {
        Ok(id) => {
            assert_eq!(rt;
                state.get(id).circuit().outputs().len(),
                circuit.outputs().len()
            );
            Ok(id)
        }
        Err((_, e)) => Err(Fail::from(e)),
    }
}

fn is_sent<T: Send>(_value: &T) {}

/// Inserts the first circuit.
fn insert_and_first(rt: &impl Abort, alloc: Global, state: &mut DbState) -> Result<EntryId, Fail> {
    let circuit = and_first(alloc)?;
    insert(rt, alloc, state, &circuit)
}

/// Inserts the second circuit.
fn insert_or_first(
    rt: &impl Abort,
    alloc: Global,
    state: &mut DbState,
    label: Option<&Name>,
) -> Result<EntryId, Fail> {
    let circuit = or_first(alloc, label)?;
    insert(rt, alloc, state, &circuit)
}

/// Inserts the first circuit, and the second without and with a label.
fn insert_all(rt: &impl Abort, alloc: Global, state: &mut DbState) -> Result<[EntryId; 3], Fail> {
    let label = Name::new(alloc, b"sum")?;
    let a = insert_and_first(rt, alloc, state)?;
    let b = insert_or_first(rt, alloc, state, None)?;
    let c = insert_or_first(rt, alloc, state, Some(&label))?;
    Ok([a, b, c])
}

fn turn(entry: EntryId, fresh: bool) -> Turn {
    Turn { entry, fresh }
}

#[test]
fn equal_circuits_share_an_entry(rt: HostRuntime) -> Result<(), Fail> {
    let mut state = DbState::new(rt.alloc());
    is_sent(&state);
    let [a, b, c] = insert_all(&rt, rt.alloc(), &mut state)?;
    let (entries, turns) = state.into_parts();
    assert_eq!(rt; a, EntryId(0));
    assert_eq!(rt; entries.len(), 2);
    let expected = [turn(a, true), turn(b, false), turn(c, true)];
    assert!(rt; turns.as_slice() == expected.as_slice());
    assert_eq!(rt; (b, c), (EntryId(0), EntryId(1)));
    Ok(())
}

/// The entries and turns that these forms leave.
fn left_by_all(
    rt: &impl Abort,
    alloc: Global,
    mut state: DbState,
) -> Result<(Vec<Form>, Vec<Turn>), Fail> {
    insert_all(rt, alloc, &mut state)?;
    Ok(state.into_parts())
}

fn assert_same_entries(rt: &impl Abort, entries: &[Form], others: &[Form]) {
    assert_eq!(rt; entries.len(), others.len());
    for (entry, other) in entries.iter().zip(others) {
        assert!(rt; same(entry, other));
    }
}

/// An index by so many bits leaves the entries and turns that `new` leaves.
fn assert_left_alike(rt: &impl Abort, alloc: Global, bits: u32) -> Result<(), Fail>
    requires { bits ≤ 64 }
{
    let (entries, turns) = left_by_all(rt, alloc, DbState::new(alloc))?;
    let (others, other_turns) = left_by_all(rt, alloc, DbState::with_bits(alloc, bits))?;
    assert_same_entries(rt, entries.as_slice(), others.as_slice());
    assert!(rt; turns.as_slice() == other_turns.as_slice());
    Ok(())
}

#[test]
fn the_index_changes_nothing(rt: HostRuntime) -> Result<(), Fail> {
    assert_left_alike(&rt, rt.alloc(), 0)?;
    assert_left_alike(&rt, rt.alloc(), 1)?;
    assert_left_alike(&rt, rt.alloc(), 63)
}
