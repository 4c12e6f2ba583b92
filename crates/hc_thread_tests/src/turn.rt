//! Each call once, over a list of numbers, with one thread and with two.
ghost use Rattle.std.specs.Prelude.{◌≡◌, ◌+◌, ◌-◌, ◌^◌, ◌<◌, ◌≤◌, [], length, IsTrue, IfOk};
ghost use Rattle.hc_turn.specs.Views.{whole};
ghost use Rattle.hc_turn.specs.Passes.{known, mine, share, HoldsNothing, IsOf};

use hc_fault::NoMemory;
use hc_turn::{Logged, Pass, TurnLock};
use std::alloc::Global;
use std::sync::Wait;
use std::test::*;
use std::thread::{Threads, join};

#[derive(Debug, Drop)]
struct Numbers {
    items: Vec<u64>,
}

impl Logged for Numbers {
    type Item = u64;

    ghost log = { λ numbers. numbers.items.items };
}

fn lock_over<R: Wait>(
    rt: &R,
    alloc: Global,
    items: Vec<u64>,
) -> Result<(TurnLock<Numbers>, Pass<Numbers>), NoMemory>
    ensures { IfOk result (λ made. IsOf made.0 made.1 × (known made.1 ≡ whole items.items)) }
{
    match TurnLock::new(rt, alloc, Numbers { items }) {
        Ok(made) => Ok(made),
        Err((_, refused)) => Err(refused),
    }
}

/// Adds the numbers from `from` up to `to`, each in a turn of its own. False where memory ran out.
fn add<R: Wait>(
    rt: &R,
    lock: &TurnLock<Numbers>,
    mut pass: Pass<Numbers>,
    from: u64,
    to: u64,
) -> (Pass<Numbers>, bool)
    requires lock { IsOf lock.now pass }
    requires free { HoldsNothing pass }
    requires order { from ≤ to }
    ensures lock { IsOf lock.now result.0 }
    ensures free { HoldsNothing result.0 }
    ensures share { share result.0 ≡ share pass }
    ensures mine { IsTrue result.1 → length (mine result.0) ≡ length (mine pass) + (to - from) }
{
    for number in from..to {
        let mut numbers = lock.enter(rt, &mut pass);
        let added = numbers.items.push(number).is_ok();
        lock.leave(rt, numbers, &mut pass);
        if !added {
            return (pass, false);
        }
    }
    (pass, true)
}

/// Adds the numbers below 200 from two threads. They are all that the lock comes to have.
fn add_from_two_threads<R: Threads + Wait + Sync>(
    rt: &R,
    alloc: Global,
) -> Result<Numbers, NoMemory>
    ensures { IfOk result (λ numbers. length numbers.items.items ≡ 200) }
{
    let (lock, pass) = lock_over(rt, alloc, Vec::new(alloc))?;
    let Ok((one, two)) = pass.split(&lock) else {
        return Err(NoMemory);
    };
    let shared = &lock;
    let ((one, first), (two, second)) = join(
        rt,
        move || -> (Pass<Numbers>, bool)
            requires { IsOf shared.now one × HoldsNothing one × (share one ≡ 32) × (mine one ≡ []) }
            ensures { IsOf shared.entry.now result.0 × HoldsNothing result.0 × (share result.0 ≡ 32) × (IsTrue result.1 → length (mine result.0) ≡ 100) }
        { add(rt, shared, one, 0, 100) },
        move || -> (Pass<Numbers>, bool)
            requires { IsOf shared.now two × HoldsNothing two × (share two ≡ 32) × (mine two ≡ []) }
            ensures { IsOf shared.entry.now result.0 × HoldsNothing result.0 × (share result.0 ≡ 32) × (IsTrue result.1 → length (mine result.0) ≡ 100) }
        { add(rt, shared, two, 100, 200) },
    );
    if !first || !second {
        return Err(NoMemory);
    }
    let pass = one.join(&lock, two);
    Ok(lock.finish(rt, pass))
}

/// Cuts the pass into as many as there are numbers from `from` up to `to`, each of which adds one, and joins them.
fn add_by_many<R: Wait>(
    rt: &R,
    lock: &TurnLock<Numbers>,
    pass: Pass<Numbers>,
    from: u64,
    to: u64,
) -> (Pass<Numbers>, bool)
    requires lock { IsOf lock.now pass }
    requires free { HoldsNothing pass }
    requires order { from < to }
    requires share { to - from ≤ share pass }
    ensures lock { IsOf lock.now result.0 }
    ensures free { HoldsNothing result.0 }
    ensures share { share result.0 ≡ share pass }
{
    let half = (to - from) / 2;
    if half == 0 {
        return add(rt, lock, pass, from, to);
    }
    let (one, two) = match pass.split(lock) {
        Ok(halves) => halves,
        Err(pass) => return (pass, false),
    };
    let (one, first) = add_by_many(rt, lock, one, from, to - half);
    let (two, second) = add_by_many(rt, lock, two, to - half, to);
    (one.join(lock, two), first && second)
}

fn is_shared<T: Sync>(_value: &T) {}

fn is_sent<T: Send>(_value: &T) {}

// A lock may be shared, and a pass may go to another thread, wherever the value may.
fn crosses<S: Logged + Send>(lock: &TurnLock<S>, pass: &Pass<S>) {
    is_shared(lock);
    is_sent(lock);
    is_sent(pass);
}

#[test]
fn a_pass_takes_turns(rt: HostRuntime) -> Result<(), Fail> {
    let (lock, pass) = lock_over(&rt, rt.alloc(), vec![in rt.alloc(); 7]?)?;
    crosses(&lock, &pass);
    let (mut pass, added) = add(&rt, &lock, pass, 8, 10);
    let numbers = lock.enter(&rt, &mut pass);
    lock.leave(&rt, numbers, &mut pass);
    let numbers = lock.finish(&rt, pass);
    assert!(rt; added);
    assert_eq!(rt; numbers.items.as_slice(), [7, 8, 9].as_slice());
    Ok(())
}

#[test]
fn sixty_four_passes_add(rt: HostRuntime) -> Result<(), Fail> {
    let (lock, pass) = lock_over(&rt, rt.alloc(), Vec::new(rt.alloc()))?;
    let (pass, added) = add_by_many(&rt, &lock, pass, 0, 64);
    let numbers = lock.finish(&rt, pass);
    assert!(rt; added);
    assert!(rt; numbers.items.iter().copied().eq(0..64));
    Ok(())
}

#[test]
fn two_threads_add(rt: HostRuntime) -> Result<(), Fail> {
    let mut numbers = add_from_two_threads(&rt, rt.alloc())?;
    numbers.items.sort_unstable();
    assert!(rt; numbers.items.iter().copied().eq(0..200));
    Ok(())
}
