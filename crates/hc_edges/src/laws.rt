//! Marks stay right over clock edges and resets.
ghost use Rattle.hc_bench.specs.Simulation.{State};
ghost use Rattle.hc_store.specs.declared.store.Store.{Store};
ghost use Rattle.hc_store.specs.Given.{IsFit};
ghost use Rattle.hc_store.specs.Scene.{Scene, Shows};
ghost use Rattle.hc_store.specs.Stored.{Advances, IsStoreOf};
ghost use Rattle.hc_edges.specs.declared.contents.Contents.{Contents};
ghost use Rattle.hc_edges.specs.Clocked.{ClockedView, given};
ghost use Rattle.hc_edges.specs.Edges.{AreAtRest, WakesReaders};
ghost use Rattle.hc_edges.specs.Showing.{AreMarkedIn, ShowsAll, with_state};

use hc_settling::{changes_keep_marks, puts_keep_marks};

/// Where contents change and the parts that read them are woken, as at a clock edge and a reset, marks that are right for the
/// old state stay right for the new one, that of the new contents. The rows stand for the whole tree with the new state, too.
pub fn edges_keep_marks()
    ensures marks { (c : ClockedView) (old new : Contents) (store next : Store) (s : Scene) (state : State) → ShowsAll s (given c old) → Shows (with_state s state) (given c new) → IsFit (given c old) → IsStoreOf (given c old) store
        → WakesReaders c old new store next → AreMarkedIn s store → AreMarkedIn (with_state s state) next }
    ensures shows { (c : ClockedView) (old new : Contents) (s : Scene) (state : State) → ShowsAll s (given c old) → Shows (with_state s state) (given c new) → ShowsAll (with_state s state) (given c new) }
{
    puts_keep_marks();
    changes_keep_marks();
}

/// While numbers settle, each instance that has not moved stays at rest.
pub fn settling_keeps_rest()
    ensures { (c : ClockedView) (contents : Contents) (old new : Store) → Advances (given c contents) old new → AreAtRest c contents old → AreAtRest c contents new }
{}
