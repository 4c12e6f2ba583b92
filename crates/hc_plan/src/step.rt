//! What a row gives over what became of its children: its form and its paths.
ghost use Rattle.std.specs.Prelude.{◌≡◌, None, IfOk, length, slice_get};
ghost use Rattle.std.specs.Option.{option_copied};
ghost use Rattle.hc_canon.specs.FormView.{FormView};
ghost use Rattle.hc_paths.specs.declared.kinds.Paths as spec_paths;
ghost use Rattle.hc_plan.specs.Finishing.{all_done, outcome_in};
ghost use Rattle.hc_plan.specs.Stepping.{AreKidsOf, IsLooped, IsReady, outcome_of, outs_of};
ghost use Rattle.hc_signal.specs.Checked.{IsChecked};
ghost use Rattle.hc_plan.specs.declared.step.Step.TheVariants as is;

use crate::kinds::PlanRow;
use hc_canon::{EntryId, Form, canon};
use hc_fault::{ItemList, NoMemory};
use hc_paths::kinds::{PathStop, Paths};
use hc_paths::make::paths;
use std::alloc::Global;

/// What a row gives: its form and its paths; or its tree has a loop; or one of its children is not finished.
#[derive(Drop)]
pub enum Step {
    Ready(Form, Paths),
    Looped,
    PassedOver,
}

/// A copy of paths.
pub(crate) fn copy_of(alloc: Global, own: &Paths) -> Result<Paths, NoMemory>
    ensures { IfOk result (λ p. p.masks ≡ own.now.masks) }
{
    let masks = Vec::from_slice(alloc, own.masks.as_slice())?;
    Ok(Paths {
        masks: ItemList::from_vec(masks),
    })
}

/// What became of the row at a place, where it is finished.
fn out_at(outs: &[Option<(EntryId, Paths)>], place: usize) -> Option<&(EntryId, Paths)>
    ensures { outcome_of (option_copied result) ≡ outcome_in (slice_get (outs_of outs.now) place) }
{
    match outs.get(place) {
        Some(Some(out)) => Some(out),
        Some(None) => None,
        None => None,
    }
}

/// The entries and the paths of these rows, where each is finished.
fn kids_of(
    alloc: Global,
    kids: &[u32],
    outs: &[Option<(EntryId, Paths)>],
) -> Result<Option<(Vec<EntryId>, Vec<Paths>)>, NoMemory>
    ensures { IfOk result (AreKidsOf (all_done (outs_of outs.now) kids.now)) }
{
    let mut ids = Vec::new(alloc);
    let mut all = Vec::new(alloc);
    'kids: for kid in kids {
        let Some(out) = out_at(outs, *kid as usize) else {
            return Ok(None);
        };
        ids.push(out.0)?;
        all.push(copy_of(alloc, &out.1)?)?;
    }
    Ok(Some((ids, all)))
}

/// What a row gives over what became of its children.
pub fn form_of(
    alloc: Global,
    row: &PlanRow,
    outs: &[Option<(EntryId, Paths)>],
) -> Result<Step, NoMemory>
    requires checked { IsChecked row.now.body.circuit }
    requires many { length row.now.kids ≡ length row.now.body.circuit.instances }
    ensures ready { IfOk result (λ s. (form : FormView) (p : spec_paths.Paths) → s ≡ is.Ready form p → IsReady (outs_of outs.now) row.now form p.masks) }
    ensures looped { IfOk result (λ s. s ≡ is.Looped → IsLooped (outs_of outs.now) row.now) }
    ensures passed { IfOk result (λ s. s ≡ is.PassedOver → all_done (outs_of outs.now) row.now.kids ≡ None) }
{
    let Some((ids, kids)) = kids_of(alloc, row.kids.as_slice(), outs)? else {
        return Ok(Step::PassedOver);
    };
    match paths(alloc, &row.body.circuit, kids.as_slice()) {
        Ok(own) => {
            let form = canon(alloc, &row.body.circuit, ids.as_slice())?;
            Ok(Step::Ready(form, own))
        }
        Err(PathStop::Loop) => Ok(Step::Looped),
        Err(PathStop::NoMemory) => Err(NoMemory),
    }
}
