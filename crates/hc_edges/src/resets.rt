//! The reset of all instances.
ghost use Rattle.std.specs.Prelude.{◌≡◌, ℕ, ◌<◌, length};
ghost use Rattle.hc_store.specs.Given.{IsFit};
ghost use Rattle.hc_store.specs.Stored.{IsStoreOf};
ghost use Rattle.hc_edges.specs.Clocked.{given};
ghost use Rattle.hc_edges.specs.Edges.{AreAtRest, IsReset, IsResetAt, IsUntouched, WakesReaders};

use crate::clocked::Clocked;
use crate::contents::Contents;
use crate::instance::reset_instance;
use crate::waking::wake_readers;
use hc_store::Store;

/// The reset of an instance. Where a register changes, the instance has moved, and what reads its registers and memories is
/// woken.
fn reset_at(clocked: &Clocked<'_>, contents: &mut Contents, store: &mut Store, p: usize)
    requires fit { IsFit (given clocked.now contents.old) }
    requires store { IsStoreOf (given clocked.now contents.old) store.old }
    requires instance { p < length clocked.now.entries }
    ensures fit { IsFit (given clocked.now contents.new) }
    ensures store { IsStoreOf (given clocked.now contents.new) store.new }
    ensures reset { IsResetAt clocked.now p contents.old contents.new store.old store.new }
    ensures words { contents.new.words ≡ contents.old.words }
    ensures others { (q : ℕ) → ¬ (p ≡ q) → IsUntouched q contents.old contents.new store.old store.new }
    ensures marks { WakesReaders clocked.now contents.old contents.new store.old store.new }
{
    if reset_instance(clocked, contents, p) {
        wake_readers(clocked, store, p);
        store.moved[p] = true;
    }
}

/// The reset of each instance, one after another.
fn reset_each(clocked: &Clocked<'_>, contents: &mut Contents, store: &mut Store)
    requires fit { IsFit (given clocked.now contents.old) }
    requires store { IsStoreOf (given clocked.now contents.old) store.old }
    ensures fit { IsFit (given clocked.now contents.new) }
    ensures store { IsStoreOf (given clocked.now contents.new) store.new }
    ensures reset { IsReset clocked.now contents.old contents.new store.old store.new }
    ensures marks { WakesReaders clocked.now contents.old contents.new store.old store.new }
{
    'instances: for p in 0..clocked.len() {
        reset_at(clocked, contents, store, p);
    }
}

/// The reset of all instances: each register has its initial value, and words stay. Where a register of an instance changes, the
/// instance has moved, and all parts that read its registers and memories are woken.
pub fn reset(clocked: &Clocked<'_>, contents: &mut Contents, store: &mut Store)
    requires fit { IsFit (given clocked.now contents.old) }
    requires store { IsStoreOf (given clocked.now contents.old) store.old }
    ensures fit { IsFit (given clocked.now contents.new) }
    ensures store { IsStoreOf (given clocked.now contents.new) store.new }
    ensures reset { IsReset clocked.now contents.old contents.new store.old store.new }
    ensures marks { WakesReaders clocked.now contents.old contents.new store.old store.new }
    ensures rest { AreAtRest clocked.now contents.old store.old → AreAtRest clocked.now contents.new store.new }
{
    reset_each(clocked, contents, store);
}
