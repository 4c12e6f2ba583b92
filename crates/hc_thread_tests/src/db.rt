//! Each call once: by two halves, by two threads and by 64 passes.
ghost use Rattle.std.specs.Prelude.{◌≡◌, ◌+◌, ◌-◌, ◌<◌, ◌≤◌, [], length, IsTrue, IfOk, IfSome};
ghost use Rattle.hc_turn.specs.Passes.{mine, share, HoldsNothing, IsOf};
ghost use Rattle.hc_dbstate.specs.History.{log};
ghost use Rattle.hc_db.specs.Database.{lock_of};

use hc_canon::{EntryId, Form, canon};
use hc_check::check;
use hc_db::{Db, Pass};
use hc_dbstate::{DbState, Turn};
use hc_fault::{Name, NoMemory};
use hc_signal::{BuildStop, Builder, Circuit};
use std::alloc::Global;
use std::sync::Wait;
use std::test::*;
use std::thread::{Threads, join};

/// An output that is driven by an input, both of this width.
fn circuit_of(alloc: Global, width: u8) -> Result<Circuit, BuildStop> {
    let mut builder = Builder::new(alloc);
    let x = builder.input(&Name::new(alloc, b"x")?, i64::from(width))?;
    let y = builder.output(&Name::new(alloc, b"y")?, i64::from(width))?;
    builder.drive(y, x)?;
    Ok(builder.finish())
}

/// The form of that circuit. None where memory ran out.
fn wire(alloc: Global, width: u8) -> Option<Form>
    ensures { IfSome result (λ form. form.kids ≡ []) }
{
    let Ok(circuit) = circuit_of(alloc, width) else {
        return None;
    };
    let Ok(()) = check(alloc, &circuit) else {
        return None;
    };
    if !circuit.instances().is_empty() {
        return None;
    }
    let Ok(form) = canon(alloc, &circuit, &[]) else {
        return None;
    };
    if form.kids().is_empty() {
        Some(form)
    } else {
        None
    }
}

/// Inserts that form. None where memory ran out.
fn insert_wire<R: Wait>(
    rt: &R,
    alloc: Global,
    db: &Db,
    pass: &mut Pass,
    width: u8,
) -> Option<EntryId>
    requires lock { IsOf (lock_of db.now) pass.old }
    requires free { HoldsNothing pass.old }
    ensures lock { IsOf (lock_of db.now) pass.new }
    ensures free { HoldsNothing pass.new }
    ensures share { share pass.new ≡ share pass.old }
    ensures mine { IfSome result (λ id. length (mine pass.new) ≡ length (mine pass.old) + 1) }
{
    let form = wire(alloc, width)?;
    match db.insert(rt, pass, form) {
        Ok(id) => Some(id),
        Err(_) => None,
    }
}

/// Inserts the wires of the widths from `from` up to `to`, the widest first where it goes down. False where memory ran out.
fn insert_wires<R: Wait>(
    rt: &R,
    alloc: Global,
    db: &Db,
    mut pass: Pass,
    from: u8,
    to: u8,
    down: bool,
) -> (Pass, bool)
    requires lock { IsOf (lock_of db.now) pass }
    requires free { HoldsNothing pass }
    requires order { from ≤ to }
    ensures lock { IsOf (lock_of db.now) result.0 }
    ensures free { HoldsNothing result.0 }
    ensures share { share result.0 ≡ share pass }
    ensures mine { IsTrue result.1 → length (mine result.0) ≡ length (mine pass) + (to - from) }
{
    for number in from..to {
        let width = if down {
            to - 1 - (number - from)
        } else {
            number
        };
        if insert_wire(rt, alloc, db, &mut pass, width).is_none() {
            return (pass, false);
        }
    }
    (pass, true)
}

/// Inserts the same hundred wires from two threads, in opposite orders. Each insertion is one turn, and there are no others.
fn insert_from_two_threads<R: Threads + Wait + Sync>(
    rt: &R,
    alloc: Global,
) -> Result<DbState, NoMemory>
    ensures { IfOk result (λ state. length (log state) ≡ 200) }
{
    let (db, pass) = Db::new(rt, alloc)?;
    let Ok((one, two)) = pass.split(db.lock()) else {
        return Err(NoMemory);
    };
    let shared = &db;
    let ((one, first), (two, second)) = join(
        rt,
        move || -> (Pass, bool)
            requires { IsOf (lock_of shared.now) one × HoldsNothing one × (share one ≡ 32) × (mine one ≡ []) }
            ensures { IsOf (lock_of shared.entry.now) result.0 × HoldsNothing result.0 × (share result.0 ≡ 32) × (IsTrue result.1 → length (mine result.0) ≡ 100) }
        { insert_wires(rt, alloc, shared, one, 1, 101, false) },
        move || -> (Pass, bool)
            requires { IsOf (lock_of shared.now) two × HoldsNothing two × (share two ≡ 32) × (mine two ≡ []) }
            ensures { IsOf (lock_of shared.entry.now) result.0 × HoldsNothing result.0 × (share result.0 ≡ 32) × (IsTrue result.1 → length (mine result.0) ≡ 100) }
        { insert_wires(rt, alloc, shared, two, 1, 101, true) },
    );
    if !first || !second {
        return Err(NoMemory);
    }
    let pass = one.join(db.lock(), two);
    Ok(db.finish(rt, pass))
}

/// Cuts the pass into as many as there are widths from `from` up to `to`, each of which inserts one wire, and joins them.
fn insert_by_many<R: Wait>(
    rt: &R,
    alloc: Global,
    db: &Db,
    pass: Pass,
    from: u8,
    to: u8,
) -> (Pass, bool)
    requires lock { IsOf (lock_of db.now) pass }
    requires free { HoldsNothing pass }
    requires order { from < to }
    requires share { to - from ≤ share pass }
    ensures lock { IsOf (lock_of db.now) result.0 }
    ensures free { HoldsNothing result.0 }
    ensures share { share result.0 ≡ share pass }
{
    let half = (to - from) / 2;
    if half == 0 {
        return insert_wires(rt, alloc, db, pass, from, to, false);
    }
    let (one, two) = match pass.split(db.lock()) {
        Ok(halves) => halves,
        Err(pass) => return (pass, false),
    };
    let (one, first) = insert_by_many(rt, alloc, db, one, from, to - half);
    let (two, second) = insert_by_many(rt, alloc, db, two, to - half, to);
    (one.join(db.lock(), two), first && second)
}

fn is_shared<T: Sync>(_value: &T) {}

fn is_sent<T: Send>(_value: &T) {}

#[test]
fn halves_insert_one_form(rt: HostRuntime) -> Result<(), Fail> {
    let (db, pass) = Db::new(&rt, rt.alloc())?;
    is_shared(&db);
    is_sent(&db);
    is_sent(&pass);
    let Ok((mut one, mut two)) = pass.split(db.lock()) else {
        return Err(Fail::from(NoMemory));
    };
    let a = insert_wire(&rt, rt.alloc(), &db, &mut one, 8);
    let b = insert_wire(&rt, rt.alloc(), &db, &mut two, 8);
    assert_eq!(rt; (a, b), (Some(EntryId(0)), Some(EntryId(0))));
    let pass = one.join(db.lock(), two);
    let (entries, turns) = db.finish(&rt, pass).into_parts();
    assert_eq!(rt; entries.len(), 1);
    let expected = [
        Turn {
            entry: EntryId(0),
            fresh: true,
        },
        Turn {
            entry: EntryId(0),
            fresh: false,
        },
    ];
    assert!(rt; turns.as_slice() == expected.as_slice());
    Ok(())
}

#[test]
fn threads_share_a_hundred_entries(rt: HostRuntime) -> Result<(), Fail> {
    let state = insert_from_two_threads(&rt, rt.alloc())?;
    let (entries, turns) = state.into_parts();
    assert_eq!(rt; (entries.len(), turns.len()), (100, 200));
    Ok(())
}

#[test]
fn sixty_four_passes_insert(rt: HostRuntime) -> Result<(), Fail> {
    let (db, pass) = Db::new(&rt, rt.alloc())?;
    let (pass, inserted) = insert_by_many(&rt, rt.alloc(), &db, pass, 1, 65);
    let (entries, turns) = db.finish(&rt, pass).into_parts();
    assert!(rt; inserted);
    assert_eq!(rt; (entries.len(), turns.len()), (64, 64));
    Ok(())
}
