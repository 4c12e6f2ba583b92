//! The form and the plan of an instance.
ghost use Rattle.std.specs.Prelude.{◌≡◌, ◌<◌, length};
ghost use Rattle.hc_canon.specs.declared.form.EntryId.{EntryId};
ghost use Rattle.hc_canon.specs.FormView.{FormView};
ghost use Rattle.hc_steps.specs.Compiled.{PlanView};
ghost use Rattle.hc_store.specs.Given.{IsFit, IsInstance};

use crate::site::Site;
use hc_canon::Form;
use hc_compile::Plan;

/// The form of an instance's entry.
pub(crate) fn form_at<'a>(site: &'a Site<'_>, p: usize) -> &'a Form
    requires fit { IsFit site.now }
    requires instance { p < length site.now.entries }
    ensures { (id : EntryId) (form : FormView) (plan : PlanView) → IsInstance site.now p id form plan → form ≡ result.now }
{
    let id = site.entry(p);
    site.form(id)
}

/// The plan of an instance's entry.
pub(crate) fn plan_at<'a>(site: &'a Site<'_>, p: usize) -> &'a Plan
    requires fit { IsFit site.now }
    requires instance { p < length site.now.entries }
    ensures { (id : EntryId) (form : FormView) (plan : PlanView) → IsInstance site.now p id form plan → plan ≡ result.now }
{
    let id = site.entry(p);
    site.plan(id)
}
