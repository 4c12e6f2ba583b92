//! Elaboration of a design into a database that threads share.
ghost use Rattle.std.specs.Prelude.{◌≤◌, ◌≡◌, IfOk, Err};
ghost use mathlib.Core.List.{IsPrefix};
ghost use Rattle.hc_turn.specs.Passes.{HoldsNothing, IsOf, known, seen, share};
ghost use Rattle.hc_db.specs.Database.{lock_of};
ghost use Rattle.hc_plan.specs.Elaborates.{DesignElaborates};
ghost use Rattle.hc_plan.specs.Plan.{IsPlanOf};
ghost use Rattle.hc_plan.specs.Planning.{Faults};
ghost use Rattle.hc_plan.specs.Stepping.{outs_of};
ghost use Rattle.hc_workers.specs.Levels.{AreAllFinished};
ghost use Rattle.hc_workers.specs.Owning.{OwnsDistinct};
ghost use Rattle.hc_workers.specs.Working.{ComesBack};

use crate::gate::Gate;
use crate::levels::{finish_to, highest_of};
use hc_body::laws::bodies_have_their_children;
use hc_canon::EntryId;
use hc_db::{Db, Pass, known_turns_stay_known};
use hc_dbstate::Hier;
use hc_fault::{NoMemory, Refused};
use hc_lang::Design;
use hc_paths::kinds::Paths;
use hc_plan::kinds::Plan;
use hc_plan::{
    conclude, designs_elaborate_once, kids_are_lower, plan, plans_decide, plans_elaborate,
    walks_are_finishes,
};
use std::alloc::Global;
use std::sync::Wait;
use std::thread::Threads;

/// Finishes the rows of a plan, in the order of their heights.
fn finish_plan<R: Threads + Wait + Sync, G: Gate + Sync>(
    rt: &R,
    alloc: Global,
    design: &Design,
    plan: &Plan,
    db: &Db,
    pass: Pass,
    workers: u32,
    gate: &G,
) -> (Pass, Result<Vec<Option<(EntryId, Paths)>>, NoMemory>)
    requires plan { IsPlanOf design.now plan.now.rows plan.now.stop }
    requires lock { IsOf (lock_of db.now) pass }
    requires free { HoldsNothing pass }
    requires workers { (1 ≤ workers) × (workers ≤ share pass) }
    ensures back { ComesBack (lock_of db.now) pass result.0 }
    ensures ok { IfOk result.1 (λ outs. AreAllFinished (known pass) (known result.0) plan.now.rows (outs_of outs.items)) }
{
    bodies_have_their_children();
    kids_are_lower();
    let rows = plan.rows.as_slice();
    let highest = highest_of(rows);
    finish_to(rt, alloc, db, pass, workers, gate, rows, highest)
}

/// Elaborates the call of the `top` line into the database, by as many workers: its hierarchy, with one turn of the pass for each
/// of its distinct calls. The answer is that of sequential elaboration, whatever the number of workers and the order of their turns.
///
/// Distinct calls of one height are finished beside each other, lower ones first. The entries may stand at other places than those
/// of sequential elaboration. It may wait, as insertions may. Turns that were taken before a fault or before memory ran out stay.
pub fn elab_many<R: Threads + Wait + Sync, G: Gate + Sync>(
    rt: &R,
    alloc: Global,
    design: &Design,
    db: &Db,
    pass: Pass,
    workers: u32,
    gate: &G,
) -> (Pass, Result<Hier, Refused>)
    requires lock { IsOf (lock_of db.now) pass }
    requires free { HoldsNothing pass }
    requires workers { (1 ≤ workers) × (workers ≤ 64) }
    requires share { workers ≤ share pass }
    ensures lock { IsOf (lock_of db.now) result.0 }
    ensures free { HoldsNothing result.0 }
    ensures share { share result.0 ≡ share pass }
    ensures seen { IsPrefix (seen pass) (seen result.0) }
    ensures hierarchy { IfOk result.1 (λ h. OwnsDistinct design.now (known pass) (known result.0) h) }
    ensures fault { Faults (λ f. DesignElaborates design.now (Err f)) result.1 }
{
    plans_decide();
    plans_elaborate();
    designs_elaborate_once();
    walks_are_finishes();
    known_turns_stay_known();
    let plan = match plan(alloc, design) {
        Ok(plan) => plan,
        Err(refused) => return (pass, Err(refused)),
    };
    let (pass, outs) = finish_plan(rt, alloc, design, &plan, db, pass, workers, gate);
    let outs = match outs {
        Ok(outs) => outs,
        Err(NoMemory) => return (pass, Err(Refused::NoMemory)),
    };
    match conclude(alloc, design, plan, outs) {
        Ok(hier) => (pass, Ok(hier)),
        Err(refused) => (pass, Err(refused)),
    }
}
