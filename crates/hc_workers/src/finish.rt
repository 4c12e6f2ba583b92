//! Rows that one pass finishes, one after another.
ghost use Rattle.std.specs.Prelude.{◌<◌, ◌∷◌, [], IfOk, OnOk, length};
ghost use Rattle.hc_turn.specs.Passes.{HoldsNothing, IsOf, known};
ghost use Rattle.hc_db.specs.Database.{lock_of};
ghost use Rattle.hc_plan.specs.Stepping.{outcome_of, outs_of};
ghost use Rattle.hc_workers.specs.Working.{AreReadyAt, ComesBack, Finishes, IsReadyRow, KnowsOuts};
ghost use Rattle.hc_workers.specs.Finished.{FinishesOne, FinishesRow};

use hc_canon::EntryId;
use hc_db::{Db, Pass, known_turns_stay_known};
use hc_fault::NoMemory;
use hc_paths::kinds::Paths;
use hc_plan::kinds::PlanRow;
use hc_plan::{Step, form_of};
use std::alloc::Global;
use std::sync::Wait;

/// Finishes a row over what became of its children: one turn, unless its tree has a loop or a child is not finished.
fn finish_row<R: Wait>(
    rt: &R,
    alloc: Global,
    db: &Db,
    pass: &mut Pass,
    row: &PlanRow,
    outs: &[Option<(EntryId, Paths)>],
) -> Result<Option<(EntryId, Paths)>, NoMemory>
    requires lock { IsOf (lock_of db.now) pass.old }
    requires free { HoldsNothing pass.old }
    requires knows { KnowsOuts (known pass.old) (outs_of outs.now) }
    requires row { IsReadyRow row.now }
    ensures back { ComesBack (lock_of db.now) pass.old pass.new }
    ensures ok { IfOk result (λ out. FinishesRow (known pass.old) (known pass.new) (outs_of outs.now) row.now (outcome_of out)) }
{
    known_turns_stay_known();
    let step = match form_of(alloc, row, outs) {
        Ok(step) => step,
        Err(refused) => return Err(refused),
    };
    match step {
        Step::Ready(form, paths) => match db.insert(rt, pass, form) {
            Ok(id) => Ok(Some((id, paths))),
            Err((_, refused)) => Err(refused),
        },
        Step::Looped => Ok(None),
        Step::PassedOver => Ok(None),
    }
}

/// Finishes the row at a place, and adds what became of it to the list.
fn finish_at<R: Wait>(
    rt: &R,
    alloc: Global,
    db: &Db,
    pass: &mut Pass,
    rows: &[PlanRow],
    outs: &[Option<(EntryId, Paths)>],
    place: usize,
    list: &mut Vec<Option<(EntryId, Paths)>>,
) -> Result<(), NoMemory>
    requires lock { IsOf (lock_of db.now) pass.old }
    requires free { HoldsNothing pass.old }
    requires knows { KnowsOuts (known pass.old) (outs_of outs.now) }
    requires within { place < length rows.now }
    requires ready { AreReadyAt rows.now (place ∷ []) }
    ensures back { ComesBack (lock_of db.now) pass.old pass.new }
    ensures ok { OnOk result (FinishesOne (known pass.old) (known pass.new) rows.now (outs_of outs.now) place list.old.items list.new.items) }
{
    let out = match finish_row(rt, alloc, db, pass, &rows[place], outs) {
        Ok(out) => out,
        Err(refused) => return Err(refused),
    };
    list.push(out)?;
    Ok(())
}

/// Finishes the rows at these places, in order.
pub(crate) fn finish_each<R: Wait>(
    rt: &R,
    alloc: Global,
    db: &Db,
    mut pass: Pass,
    rows: &[PlanRow],
    outs: &[Option<(EntryId, Paths)>],
    places: &[usize],
) -> (Pass, Result<Vec<Option<(EntryId, Paths)>>, NoMemory>)
    requires lock { IsOf (lock_of db.now) pass }
    requires free { HoldsNothing pass }
    requires knows { KnowsOuts (known pass) (outs_of outs.now) }
    requires ready { AreReadyAt rows.now places.now }
    ensures back { ComesBack (lock_of db.now) pass result.0 }
    ensures ok { Finishes pass result.0 rows.now (outs_of outs.now) places.now result.1 }
{
    let mut list = Vec::new(alloc);
    'places: for place in places {
        match finish_at(rt, alloc, db, &mut pass, rows, outs, *place, &mut list) {
            Ok(()) => {}
            Err(refused) => return (pass, Err(refused)),
        }
    }
    (pass, Ok(list))
}
