//! Parts that read registers and memories.
ghost use Rattle.std.specs.Prelude.{◌≡◌, ◌<◌, length};
ghost use Rattle.hc_canon.specs.declared.form.EntryId.{EntryId};
ghost use Rattle.hc_canon.specs.FormView.{FormView};
ghost use Rattle.hc_steps.specs.Compiled.{PlanView};
ghost use Rattle.hc_store.specs.Given.{IsFit, IsInstance};
ghost use Rattle.hc_store.specs.Marks.{AreMoreMarked};
ghost use Rattle.hc_store.specs.Stored.{IsStoreOf};
ghost use Rattle.hc_edges.specs.declared.contents.Contents.{Contents};
ghost use Rattle.hc_edges.specs.Clocked.{given};

use crate::clocked::Clocked;
use hc_store::{Store, wake_all};

/// Wakes the parts of an instance that read its registers and memories.
pub(crate) fn wake_readers(clocked: &Clocked<'_>, store: &mut Store, p: usize)
    requires fit { (contents : Contents) × IsFit (given clocked.now contents) × IsStoreOf (given clocked.now contents) store.old }
    requires instance { p < length clocked.now.entries }
    ensures marks { (contents : Contents) (id : EntryId) (form : FormView) (plan : PlanView) → IsInstance (given clocked.now contents) p id form plan → AreMoreMarked clocked.now.up p plan.state_parts store.old.stale store.new.stale }
    ensures values { store.new.values ≡ store.old.values }
    ensures moved { store.new.moved.items ≡ store.old.moved.items }
{
    let id = clocked.entry(p);
    wake_all(
        clocked.up(),
        &mut store.stale,
        p,
        clocked.plan(id).state_parts(),
    );
}
