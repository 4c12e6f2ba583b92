//! The clock edge of all instances.
ghost use Rattle.std.specs.Prelude.{◌≡◌, ℕ, ◌<◌, length};
ghost use Rattle.hc_store.specs.Given.{IsFit};
ghost use Rattle.hc_store.specs.Stored.{IsStoreOf};
ghost use Rattle.hc_edges.specs.Clocked.{given};
ghost use Rattle.hc_edges.specs.Edges.{AllStep, AreAtRest, EdgesAt, IsEdge, IsUntouched, WakesReaders};

use crate::clocked::Clocked;
use crate::contents::Contents;
use crate::instance::step_instance;
use crate::waking::wake_readers;
use hc_store::Store;

/// The clock edge of an instance, if it has moved. Where nothing changes, it has no longer moved; else what reads its registers
/// and memories is woken.
fn edge_at(clocked: &Clocked<'_>, contents: &mut Contents, store: &mut Store, p: usize)
    requires fit { IsFit (given clocked.now contents.old) }
    requires store { IsStoreOf (given clocked.now contents.old) store.old }
    requires instance { p < length clocked.now.entries }
    ensures fit { IsFit (given clocked.now contents.new) }
    ensures store { IsStoreOf (given clocked.now contents.new) store.new }
    ensures edge { EdgesAt clocked.now p contents.old contents.new store.old store.new }
    ensures others { (q : ℕ) → ¬ (p ≡ q) → IsUntouched q contents.old contents.new store.old store.new }
    ensures marks { WakesReaders clocked.now contents.old contents.new store.old store.new }
{
    if store.moved[p] {
        if step_instance(clocked, contents, store, p) {
            wake_readers(clocked, store, p);
        } else {
            store.moved[p] = false;
        }
    }
}

/// The clock edge of each instance, one after another, if it has moved.
fn edge_each(clocked: &Clocked<'_>, contents: &mut Contents, store: &mut Store)
    requires fit { IsFit (given clocked.now contents.old) }
    requires store { IsStoreOf (given clocked.now contents.old) store.old }
    ensures fit { IsFit (given clocked.now contents.new) }
    ensures store { IsStoreOf (given clocked.now contents.new) store.new }
    ensures edge { IsEdge clocked.now contents.old contents.new store.old store.new }
    ensures marks { WakesReaders clocked.now contents.old contents.new store.old store.new }
{
    'instances: for p in 0..clocked.len() {
        edge_at(clocked, contents, store, p);
    }
}

/// The clock edge of all instances that have moved, each from its numbers, which stay. Where a register or a word of an instance
/// changes, all parts that read them are woken; where none does, the instance has no longer moved, and is at rest. Where all that
/// have not moved were at rest, each instance has made its clock edge.
pub fn edge(clocked: &Clocked<'_>, contents: &mut Contents, store: &mut Store)
    requires fit { IsFit (given clocked.now contents.old) }
    requires store { IsStoreOf (given clocked.now contents.old) store.old }
    ensures fit { IsFit (given clocked.now contents.new) }
    ensures store { IsStoreOf (given clocked.now contents.new) store.new }
    ensures edge { IsEdge clocked.now contents.old contents.new store.old store.new }
    ensures marks { WakesReaders clocked.now contents.old contents.new store.old store.new }
    ensures steps { AreAtRest clocked.now contents.old store.old → AllStep clocked.now store.old.values contents.old contents.new }
    ensures rest { AreAtRest clocked.now contents.old store.old → AreAtRest clocked.now contents.new store.new }
{
    edge_each(clocked, contents, store);
}
