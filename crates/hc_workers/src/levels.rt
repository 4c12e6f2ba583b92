//! The rows of a plan, finished in the order of their heights.
ghost use Rattle.std.specs.Prelude.{◌≡◌, ◌<◌, ◌≤◌, ℕ, None, IfOk, OnOk, length, replicate, slice_set};
ghost use Rattle.hc_signal.specs.Member.{Has};
ghost use Rattle.hc_turn.specs.Passes.{HoldsNothing, IsOf, known, share};
ghost use Rattle.hc_db.specs.Database.{lock_of};
ghost use Rattle.hc_plan.specs.Stepping.{outs_of};
ghost use Rattle.hc_workers.specs.Levels.{AreByHeight, AreFinishedTo, IsHighest, IsLevelDone, places_from, written};
ghost use Rattle.hc_workers.specs.Working.{ComesBack, KnowsOuts};

use crate::gate::Gate;
use crate::halves::finish_many;
use hc_canon::EntryId;
use hc_db::{Db, Pass};
use hc_fault::NoMemory;
use hc_paths::kinds::Paths;
use hc_plan::kinds::PlanRow;
use std::alloc::Global;
use std::sync::Wait;
use std::thread::Threads;

/// The greatest height of a row.
pub(crate) fn highest_of(rows: &[PlanRow]) -> u32
    ensures { IsHighest rows.now result }
{
    let mut highest = 0;
    'rows: for row in rows {
        if highest < row.height {
            highest = row.height;
        }
    }
    highest
}

/// The places of the rows of a height.
fn places_of(alloc: Global, rows: &[PlanRow], height: u32) -> Result<Vec<usize>, NoMemory>
    ensures { IfOk result (λ places. places.items ≡ places_from height 0 rows.now) }
{
    let mut places = Vec::new(alloc);
    'rows: for (place, row) in rows.iter().enumerate() {
        if row.height == height {
            places.push(place)?;
        }
    }
    Ok(places)
}

/// No row is finished yet.
fn none_yet(alloc: Global, count: usize) -> Result<Vec<Option<(EntryId, Paths)>>, NoMemory>
    ensures { IfOk result (λ outs. outs.items ≡ replicate count None) }
{
    let mut outs = Vec::new(alloc);
    'count: for _ in 0..count {
        outs.push(None)?;
    }
    Ok(outs)
}

/// Writes what became of a row.
fn put(outs: &mut [Option<(EntryId, Paths)>], place: usize, out: Option<(EntryId, Paths)>)
    requires { place < length outs.old }
    ensures { outs.new ≡ slice_set outs.old place out }
{
    outs[place] = out;
}

/// Writes what became of the rows at these places, in order.
fn write(
    outs: &mut [Option<(EntryId, Paths)>],
    places: &[usize],
    list: Vec<Option<(EntryId, Paths)>>,
)
    requires within { (k : ℕ) → Has places.now k → k < length outs.old }
    requires many { length list.items ≡ length places.now }
    ensures { outs.new ≡ written outs.old places.now list.items }
{
    let mut next = 0;
    'list: for out in list {
        put(outs, places[next], out);
        next += 1;
    }
}

/// Finishes the rows of a height, whose children are finished, and writes down what became of them.
fn finish_level<R: Threads + Wait + Sync, G: Gate + Sync>(
    rt: &R,
    alloc: Global,
    db: &Db,
    pass: Pass,
    workers: u32,
    gate: &G,
    rows: &[PlanRow],
    height: u32,
    outs: &mut [Option<(EntryId, Paths)>],
) -> (Pass, Result<(), NoMemory>)
    requires lock { IsOf (lock_of db.now) pass }
    requires free { HoldsNothing pass }
    requires workers { (1 ≤ workers) × (workers ≤ share pass) }
    requires heights { AreByHeight rows.now }
    requires many { length outs.old ≡ length rows.now }
    requires knows { KnowsOuts (known pass) (outs_of outs.old) }
    ensures back { ComesBack (lock_of db.now) pass result.0 }
    ensures ok { OnOk result.1 (IsLevelDone (known pass) (known result.0) rows.now height outs.old outs.new) }
{
    let places = match places_of(alloc, rows, height) {
        Ok(places) => places,
        Err(refused) => return (pass, Err(refused)),
    };
    let (pass, list) = finish_many(
        rt,
        alloc,
        db,
        pass,
        workers,
        gate,
        rows,
        &*outs,
        places.as_slice(),
    );
    match list {
        Ok(list) => {
            write(outs, places.as_slice(), list);
            (pass, Ok(()))
        }
        Err(refused) => (pass, Err(refused)),
    }
}

/// Finishes the rows up to a height, lower ones first.
pub(crate) fn finish_to<R: Threads + Wait + Sync, G: Gate + Sync>(
    rt: &R,
    alloc: Global,
    db: &Db,
    mut pass: Pass,
    workers: u32,
    gate: &G,
    rows: &[PlanRow],
    highest: u32,
) -> (Pass, Result<Vec<Option<(EntryId, Paths)>>, NoMemory>)
    requires lock { IsOf (lock_of db.now) pass }
    requires free { HoldsNothing pass }
    requires workers { (1 ≤ workers) × (workers ≤ share pass) }
    requires heights { AreByHeight rows.now }
    ensures back { ComesBack (lock_of db.now) pass result.0 }
    ensures ok { IfOk result.1 (λ outs. AreFinishedTo (known pass) (known result.0) rows.now (outs_of outs.items) highest) }
{
    let mut outs = match none_yet(alloc, rows.len()) {
        Ok(outs) => outs,
        Err(refused) => return (pass, Err(refused)),
    };
    'below: for below in 0..highest {
        let (after, done) = finish_level(
            rt,
            alloc,
            db,
            pass,
            workers,
            gate,
            rows,
            below + 1,
            outs.as_mut_slice(),
        );
        pass = after;
        match done {
            Ok(()) => {}
            Err(refused) => return (pass, Err(refused)),
        }
    }
    (pass, Ok(outs))
}
