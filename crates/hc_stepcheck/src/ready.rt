//! Whether a step may come where it stands.
ghost use Rattle.std.specs.Prelude.{◌≡◌, true, ℕ, Some, slice_get, IsBitSet};
ghost use Rattle.hc_stepcheck.specs.Checked.{IsPartReady, IsReadyAt};
ghost use Rattle.hc_steps.specs.Plan.{Step as StepOf, IsBefore, ran as ran_fact, passed as passed_fact, make, pass, run, take, steps_at};
ghost use Rattle.hc_steps.specs.Views.{IsKnownAt, step_view};
ghost use Rattle.hc_signal.specs.Graph.{Graph};
ghost use Rattle.hc_signal.specs.Lawful.{NodeAt};
ghost use Rattle.hc_signal.specs.declared.signal.Node.TheVariants.{InstOut};
ghost use Rattle.hc_signal.specs.Occurrences.{connection};

use crate::hints::Hints;
use crate::known::{is_apart, is_clear, is_known, is_node_known};
use crate::operands::are_operands_known;
use crate::site::{Site, is_reached, is_there};
use hc_signal::{Circuit, InstId, Node, NodeId};
use hc_steps::{
    Fact, Part, Spot, Step, count_parts, count_steps, gives, kid_circuit, kid_plan, output_of,
    part_at, row_at, spot_of, step_at,
};

/// Whether a node of the circuit itself may be computed.
fn is_make_ready(site: &Site<'_>, at: Spot, id: NodeId) -> bool
    ensures { result ≡ true → IsReadyAt site.now.db.now.entries site.now.plans.now site.now.form.now site.now.plan.now.parts at.part at.step (make id.0) }
{
    let circuit = site.form.circuit();
    let Some(row) = row_at(circuit, id) else {
        return false;
    };
    if is_reached(site.form, id) {
        if are_operands_known(circuit, site.plan.parts(), site.plan.spots(), at, &row.node) {
            return true;
        }
    }
    false
}

/// Whether a node is this output of an instance.
fn is_output(circuit: &Circuit, id: NodeId, it: InstId, port: u32) -> bool
    ensures { result ≡ true → NodeAt circuit.now id.0 (InstOut it port) }
{
    let Some(row) = row_at(circuit, id) else {
        return false;
    };
    match &row.node {
        Node::InstOut {
            inst: own,
            port: at,
        } => {
            if own.0 == it.0 {
                if *at == port {
                    return true;
                }
            }
            false
        }
        _ => false,
    }
}

/// Whether an output of an instance may be taken.
fn is_take_ready(
    site: &Site<'_>,
    hints: &Hints,
    at: Spot,
    id: NodeId,
    it: InstId,
    port: u32,
) -> bool
    ensures { result ≡ true → IsReadyAt site.now.db.now.entries site.now.plans.now site.now.form.now site.now.plan.now.parts at.part at.step (take id.0 it.0 port) }
{
    let Some(kid) = kid_circuit(site.db, site.form, it) else {
        return false;
    };
    let Some(plan) = kid_plan(site.plans, site.form, it) else {
        return false;
    };
    let Some(wire) = output_of(kid, port) else {
        return false;
    };
    let spot = spot_of(plan.spots(), wire);
    if is_reached(site.form, id) {
        if is_output(site.form.circuit(), id, it, port) {
            if gives(plan.parts(), spot, Fact::Made(wire)) {
                if is_known(
                    site.plan.parts(),
                    at,
                    hints.ran(it, spot.part),
                    Fact::Ran(it, spot.part),
                ) {
                    return true;
                }
            }
        }
    }
    false
}

/// Whether an input of an instance is connected to a node.
fn is_connected(circuit: &Circuit, it: InstId, port: u32, id: NodeId) -> bool
    ensures { result ≡ true → connection circuit.now it.0 port ≡ Some id }
{
    match circuit.instances().get(it.0 as usize) {
        None => false,
        Some(inst) => match inst.conns.as_slice().get(port as usize) {
            None => false,
            Some(conn) => {
                if *conn == id {
                    return true;
                }
                false
            }
        },
    }
}

/// Whether a connection may be passed.
fn is_pass_ready(site: &Site<'_>, at: Spot, id: NodeId, it: InstId, port: u32) -> bool
    ensures { result ≡ true → IsReadyAt site.now.db.now.entries site.now.plans.now site.now.form.now site.now.plan.now.parts at.part at.step (pass id.0 it.0 port) }
{
    let circuit = site.form.circuit();
    if is_there(site.form, it) {
        if is_connected(circuit, it, port, id) {
            if is_node_known(circuit, site.plan.parts(), site.plan.spots(), at, id) {
                return true;
            }
        }
    }
    false
}

/// Whether the inputs of an instance that a mask names were passed.
fn are_passed(parts: &[Part], hints: &Hints, at: Spot, it: InstId, needs: u128) -> bool
    ensures { result ≡ true → (g : Graph) (k : ℕ) → IsBitSet needs k → IsKnownAt g parts.now at.part at.step (passed_fact it.0 k) }
{
    'ports: for port in 0..128 {
        if is_clear(needs, port) {} else if is_known(
            parts,
            at,
            hints.passed(it, port),
            Fact::Passed(it, port),
        ) {} else {
            return false;
        }
    }
    true
}

/// Whether a part of an instance ran if it comes before another.
fn has_run(
    parts: &[Part],
    hints: &Hints,
    at: Spot,
    it: InstId,
    kid: &[Part],
    part: u32,
    other: u32,
) -> bool
    ensures { result ≡ true → (g : Graph) → IsBefore kid.now part other → IsKnownAt g parts.now at.part at.step (ran_fact it.0 other) }
{
    if is_apart(kid, part, other) {
        return true;
    }
    is_known(parts, at, hints.ran(it, other), Fact::Ran(it, other))
}

/// Whether the parts of an instance ran that come before one.
fn have_run(parts: &[Part], hints: &Hints, at: Spot, it: InstId, kid: &[Part], part: u32) -> bool
    ensures { result ≡ true → (g : Graph) (b : ℕ) → IsBefore kid.now part b → IsKnownAt g parts.now at.part at.step (ran_fact it.0 b) }
{
    'kids: for b in 0..part {
        if has_run(parts, hints, at, it, kid, part, b) {} else {
            return false;
        }
    }
    true
}

/// Whether a part of an instance may be run.
fn is_run_ready(site: &Site<'_>, hints: &Hints, at: Spot, it: InstId, part: u32) -> bool
    ensures { result ≡ true → IsReadyAt site.now.db.now.entries site.now.plans.now site.now.form.now site.now.plan.now.parts at.part at.step (run it.0 part) }
{
    let Some(plan) = kid_plan(site.plans, site.form, it) else {
        return false;
    };
    let Some(kid) = part_at(plan.parts(), part) else {
        return false;
    };
    if is_there(site.form, it) {
        if are_passed(site.plan.parts(), hints, at, it, kid.needs()) {
            if have_run(site.plan.parts(), hints, at, it, plan.parts(), part) {
                return true;
            }
        }
    }
    false
}

/// Whether a step may come where it stands.
fn is_ready(site: &Site<'_>, hints: &Hints, at: Spot, step: Step) -> bool
    ensures { result ≡ true → IsReadyAt site.now.db.now.entries site.now.plans.now site.now.form.now site.now.plan.now.parts at.part at.step (step_view step) }
{
    match step {
        Step::Make { node } => is_make_ready(site, at, node),
        Step::Take { node, inst, port } => is_take_ready(site, hints, at, node, inst, port),
        Step::Pass { node, inst, port } => is_pass_ready(site, at, node, inst, port),
        Step::Run { inst, part } => is_run_ready(site, hints, at, inst, part),
    }
}

/// Whether the step at a spot may come there. Notes it.
fn is_ready_at(site: &Site<'_>, hints: &mut Hints, at: Spot) -> bool
    ensures { result ≡ true → (step : StepOf) → slice_get (steps_at site.now.plan.now.parts at.part) at.step ≡ Some step → IsReadyAt site.now.db.now.entries site.now.plans.now site.now.form.now site.now.plan.now.parts at.part at.step step }
{
    let Some(step) = step_at(site.plan.parts(), at) else {
        return false;
    };
    let ready = is_ready(site, hints, at, step);
    hints.note(step, at);
    ready
}

/// Whether each step of a part may come where it stands.
fn are_ready(site: &Site<'_>, hints: &mut Hints, part: u32) -> bool
    ensures { result ≡ true → IsPartReady site.now.db.now.entries site.now.plans.now site.now.form.now site.now.plan.now.parts part }
{
    let Some(count) = count_steps(site.plan.parts(), part) else {
        return false;
    };
    'steps: for s in 0..count {
        if is_ready_at(site, hints, Spot { part, step: s }) {} else {
            return false;
        }
    }
    true
}

/// Whether each step of each part may come where it stands.
pub(crate) fn are_parts_ready(site: &Site<'_>, hints: &mut Hints) -> bool
    ensures { result ≡ true → (j : ℕ) → IsPartReady site.now.db.now.entries site.now.plans.now site.now.form.now site.now.plan.now.parts j }
{
    let Some(count) = count_parts(site.plan.parts()) else {
        return false;
    };
    'parts: for j in 0..count {
        if are_ready(site, hints, j) {} else {
            return false;
        }
    }
    true
}
