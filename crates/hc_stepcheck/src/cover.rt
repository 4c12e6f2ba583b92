//! Whether all that is to be computed has a step.
ghost use Rattle.std.specs.Prelude.{◌≡◌, true, ℕ};
ghost use Rattle.hc_stepcheck.specs.Checked.{AreInputsGiven, AreNodesGiven, AreRunsGiven};
ghost use Rattle.hc_steps.specs.Plan.{HasStep, IsGiven, made};
ghost use Rattle.hc_steps.specs.Views.{fact_view};
ghost use Rattle.hc_signal.specs.Lawful.{NodeAt};
ghost use Rattle.hc_signal.specs.declared.signal.Node.{Node as NodeOf};

use crate::hints::Hints;
use crate::site::Site;
use hc_signal::{InstId, Node, NodeId};
use hc_steps::{Fact, Part, Spot, count_parts, gives, kid_circuit, kid_plan, row_at, spot_of};

/// Whether a step gives this.
fn is_given(parts: &[Part], spot: Spot, fact: Fact) -> bool
    ensures { result ≡ true → IsGiven parts.now (fact_view fact) }
{
    if gives(parts, spot, fact) {
        return true;
    }
    false
}

/// Whether a node has a step if it is to have one.
fn is_node_given(site: &Site<'_>, id: NodeId) -> bool
    ensures { result ≡ true → (x : NodeOf) → NodeAt site.now.form.now.circuit id.0 x → HasStep x → IsGiven site.now.plan.now.parts (made id.0) }
{
    let Some(row) = row_at(site.form.circuit(), id) else {
        return false;
    };
    match &row.node {
        Node::Input { .. } | Node::Const { .. } => true,
        _ => is_given(
            site.plan.parts(),
            spot_of(site.plan.spots(), id),
            Fact::Made(id),
        ),
    }
}

/// Whether each node that is to have a step has one.
pub(crate) fn are_nodes_given(site: &Site<'_>) -> bool
    ensures { result ≡ true → AreNodesGiven site.now.form.now.circuit site.now.plan.now.parts }
{
    let len = site.form.circuit().nodes().len();
    if len > u32::MAX as usize {
        return false;
    }
    'nodes: for n in 0..len as u32 {
        if is_node_given(site, NodeId(n)) {} else {
            return false;
        }
    }
    true
}

/// Whether all inputs of an instance are passed.
fn are_inputs_given(site: &Site<'_>, hints: &Hints, it: InstId) -> bool
    ensures { result ≡ true → AreInputsGiven site.now.db.now.entries site.now.form.now site.now.plan.now.parts it.0 }
{
    let Some(kid) = kid_circuit(site.db, site.form, it) else {
        return false;
    };
    kid.lawful();
    let len = kid.ports().inputs.as_slice().len();
    if len > u32::MAX as usize {
        return false;
    }
    'ports: for port in 0..len as u32 {
        if is_given(
            site.plan.parts(),
            hints.passed(it, port),
            Fact::Passed(it, port),
        ) {} else {
            return false;
        }
    }
    true
}

/// Whether all parts of an instance are run.
fn are_runs_given(site: &Site<'_>, hints: &Hints, it: InstId) -> bool
    ensures { result ≡ true → AreRunsGiven site.now.plans.now site.now.form.now site.now.plan.now.parts it.0 }
{
    let Some(plan) = kid_plan(site.plans, site.form, it) else {
        return false;
    };
    let Some(count) = count_parts(plan.parts()) else {
        return false;
    };
    'runs: for part in 0..count {
        if is_given(site.plan.parts(), hints.ran(it, part), Fact::Ran(it, part)) {} else {
            return false;
        }
    }
    true
}

/// Whether an instance is passed all its inputs and run in all its parts.
fn is_kid_given(site: &Site<'_>, hints: &Hints, it: InstId) -> bool
    ensures { result ≡ true → AreInputsGiven site.now.db.now.entries site.now.form.now site.now.plan.now.parts it.0 × AreRunsGiven site.now.plans.now site.now.form.now site.now.plan.now.parts it.0 }
{
    if are_inputs_given(site, hints, it) {
        if are_runs_given(site, hints, it) {
            return true;
        }
    }
    false
}

/// Whether each instance is passed all its inputs and run in all its parts.
pub(crate) fn are_kids_given(site: &Site<'_>, hints: &Hints) -> bool
    ensures { result ≡ true → (i : ℕ) → AreInputsGiven site.now.db.now.entries site.now.form.now site.now.plan.now.parts i × AreRunsGiven site.now.plans.now site.now.form.now site.now.plan.now.parts i }
{
    let len = site.form.kids().len();
    if len > u32::MAX as usize {
        return false;
    }
    'kids: for i in 0..len as u32 {
        if is_kid_given(site, hints, InstId(i)) {} else {
            return false;
        }
    }
    true
}
