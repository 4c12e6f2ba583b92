//! Rows that halves finish beside each other, each with a pass of its own.
ghost use Rattle.std.specs.Prelude.{◌≡◌, ◌++◌, [], IfOk, IsOkAnd};
ghost use Rattle.std.specs.Thread.{IsSync};
ghost use Rattle.hc_turn.specs.Passes.{mine};
ghost use Rattle.hc_db.specs.Database.{lock_of};
ghost use Rattle.hc_plan.specs.Stepping.{outs_of};
ghost use Rattle.hc_workers.specs.Working.{ComesBack, Finishes, IsJoined, MayFinish};

use crate::finish::finish_each;
use crate::gate::Gate;
use hc_canon::EntryId;
use hc_db::{Db, Pass, known_turns_stay_known};
use hc_fault::NoMemory;
use hc_paths::kinds::Paths;
use hc_plan::kinds::PlanRow;
use std::alloc::Global;
use std::sync::Wait;
use std::thread::{Threads, join};

/// What became of the rows of both halves, in order. Memory ran out where it ran out in a half.
fn both(
    front: Result<Vec<Option<(EntryId, Paths)>>, NoMemory>,
    back: Result<Vec<Option<(EntryId, Paths)>>, NoMemory>,
) -> Result<Vec<Option<(EntryId, Paths)>>, NoMemory>
    ensures { IfOk result (λ list. IsOkAnd front (λ a. IsOkAnd back (λ b. list.items ≡ a.items ++ b.items))) }
{
    let mut list = front?;
    let mut rest = back?;
    list.append(&mut rest)?;
    Ok(list)
}

/// Finishes the rows at these places, in order, by halves beside each other while there are two workers and two rows. Where a pass
/// cannot be split, it finishes the rows alone.
#[cycle(halves)]
pub(crate) fn finish_many<R: Threads + Wait + Sync, G: Gate + Sync>(
    rt: &R,
    alloc: Global,
    db: &Db,
    pass: Pass,
    workers: u32,
    gate: &G,
    rows: &[PlanRow],
    outs: &[Option<(EntryId, Paths)>],
    places: &[usize],
) -> (Pass, Result<Vec<Option<(EntryId, Paths)>>, NoMemory>)
    requires { MayFinish (lock_of db.now) pass workers rows.now (outs_of outs.now) places.now }
    ensures back { ComesBack (lock_of db.now) pass result.0 }
    ensures ok { Finishes pass result.0 rows.now (outs_of outs.now) places.now result.1 }
{
    if workers < 2 || places.len() < 2 {
        return finish_each(rt, alloc, db, pass, rows, outs, places);
    }
    known_turns_stay_known();
    let (low, high) = places.split_at(places.len() - places.len() / 2);
    match pass.split(db.lock()) {
        Ok((first, second)) => finish_halves(
            rt,
            alloc,
            db,
            first,
            second,
            workers - workers / 2,
            workers / 2,
            gate,
            rows,
            outs,
            low,
            high,
        ),
        Err(pass) => finish_each(rt, alloc, db, pass, rows, outs, places),
    }
}

/// Finishes the rows of two halves beside each other, and joins their passes.
#[cycle(halves)]
fn finish_halves<R: Threads + Wait + Sync, G: Gate + Sync>(
    rt: &R,
    alloc: Global,
    db: &Db,
    first: Pass,
    second: Pass,
    left: u32,
    right: u32,
    gate: &G,
    rows: &[PlanRow],
    outs: &[Option<(EntryId, Paths)>],
    low: &[usize],
    high: &[usize],
) -> (Pass, Result<Vec<Option<(EntryId, Paths)>>, NoMemory>)
    requires first { MayFinish (lock_of db.now) first left rows.now (outs_of outs.now) low.now }
    requires second { MayFinish (lock_of db.now) second right rows.now (outs_of outs.now) high.now }
    requires none { mine second ≡ [] }
    ensures joined { IsJoined (lock_of db.now) first second result.0 }
    ensures ok { Finishes first result.0 rows.now (outs_of outs.now) (low.now ++ high.now) result.1 }
{
    known_turns_stay_known();
    let front = move || -> (Pass, Result<Vec<Option<(EntryId, Paths)>>, NoMemory>)
        requires { IsSync R.row × IsSync G.row × MayFinish (lock_of db.now) first left rows.now (outs_of outs.now) low.now }
        ensures { ComesBack (lock_of db.entry.now) first result.0 × Finishes first result.0 rows.entry.now (outs_of outs.entry.now) low.entry.now result.1 }
    { finish_half(rt, alloc, db, first, left, gate, 1, rows, outs, low) };
    let back = move || -> (Pass, Result<Vec<Option<(EntryId, Paths)>>, NoMemory>)
        requires { IsSync R.row × IsSync G.row × MayFinish (lock_of db.now) second right rows.now (outs_of outs.now) high.now }
        ensures { ComesBack (lock_of db.entry.now) second result.0 × Finishes second result.0 rows.entry.now (outs_of outs.entry.now) high.entry.now result.1 }
    { finish_half(rt, alloc, db, second, right, gate, 2, rows, outs, high) };
    let ((one, done), (two, rest)) = join(rt, front, back);
    (one.join(db.lock(), two), both(done, rest))
}

/// Finishes the rows of a half, between its words to the gate.
#[cycle(halves)]
fn finish_half<R: Threads + Wait + Sync, G: Gate + Sync>(
    rt: &R,
    alloc: Global,
    db: &Db,
    pass: Pass,
    workers: u32,
    gate: &G,
    half: u32,
    rows: &[PlanRow],
    outs: &[Option<(EntryId, Paths)>],
    places: &[usize],
) -> (Pass, Result<Vec<Option<(EntryId, Paths)>>, NoMemory>)
    requires { MayFinish (lock_of db.now) pass workers rows.now (outs_of outs.now) places.now }
    ensures back { ComesBack (lock_of db.now) pass result.0 }
    ensures ok { Finishes pass result.0 rows.now (outs_of outs.now) places.now result.1 }
{
    gate.arrive(half);
    let answer = finish_many(rt, alloc, db, pass, workers, gate, rows, outs, places);
    gate.done(half);
    answer
}
