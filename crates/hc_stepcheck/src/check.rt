//! The check of a plan.
ghost use Rattle.std.specs.Prelude.{◌≡◌, true, IfOk};
ghost use Rattle.hc_steps.specs.Compiled.{AreNoted, IsCompiled};

use crate::cover::{are_kids_given, are_nodes_given};
use crate::hints::{Hints, no_hints};
use crate::listed::are_listed;
use crate::noted::is_noted;
use crate::ready::are_parts_ready;
use crate::site::Site;
use hc_fault::NoMemory;
use std::alloc::Global;

/// Whether a plan is one of its form, over the plans of its kids, with the tables that it is to have. The hints are those
/// of no step.
fn is_plan(site: &Site<'_>, hints: &mut Hints) -> bool
    requires { AreNoted site.now.plans.now }
    ensures { result ≡ true → IsCompiled site.now.db.now.entries site.now.plans.now site.now.form.now site.now.plan.now }
{
    if is_noted(site.plan) {
        if are_parts_ready(site, hints) {
            if are_nodes_given(site) {
                if are_kids_given(site, hints) {
                    if are_listed(site) {
                        return true;
                    }
                }
            }
        }
    }
    false
}

/// Whether a plan is one of its form, over the plans of its kids, with the tables that it is to have.
pub fn is_compiled(alloc: Global, site: &Site<'_>) -> Result<bool, NoMemory>
    requires { AreNoted site.now.plans.now }
    ensures { IfOk result (λ b. b ≡ true → IsCompiled site.now.db.now.entries site.now.plans.now site.now.form.now site.now.plan.now) }
{
    let mut hints = no_hints(alloc, site.form.circuit(), site.plan)?;
    Ok(is_plan(site, &mut hints))
}
