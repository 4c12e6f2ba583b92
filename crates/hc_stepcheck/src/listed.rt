//! Whether the tables of a plan have all that they are to have.
ghost use Rattle.std.specs.Prelude.{◌≡◌, ◌<◌, true, ℕ, Some, length, slice_get, IfSome};
ghost use Rattle.hc_stepcheck.specs.Checked.{AreListedIn, AreReadersListed, IsListed, IsReaderListed};
ghost use Rattle.hc_steps.specs.Plan.{Step as StepOf, make, steps_at, take};
ghost use Rattle.hc_steps.specs.Tables.{IsState, row};
ghost use Rattle.hc_steps.specs.Views.{part_of, step_view};
ghost use Rattle.hc_signal.specs.Member.{Has};
ghost use Rattle.hc_signal.specs.Occurrences.{comb_fanin};
ghost use Rattle.hc_signal.specs.declared.signal.Node.TheVariants.{Input};

use crate::site::Site;
use hc_signal::{InstId, Node, NodeId};
use hc_steps::{
    Plan, Spot, Step, count_parts, count_steps, kid_circuit, kid_plan, output_of, row_at, spot_of,
    step_at,
};

/// A number of a row.
fn number_at(row: &[u32], at: usize) -> Option<u32>
    ensures { IfSome result (λ x. slice_get row.now at ≡ Some x) }
{
    row.get(at).copied()
}

/// Whether a row in order has a part.
fn has(row: &[u32], part: u32) -> bool
    ensures { result ≡ true → Has row.now part }
{
    let at = match row.binary_search(&part) {
        Ok(at) => at,
        Err(_) => return false,
    };
    let Some(it) = number_at(row, at) else {
        return false;
    };
    if it == part {
        return true;
    }
    false
}

/// Whether a part is listed with the readers of the input that a node is.
fn is_port_listed(plan: &Plan, part: u32, node: &Node) -> bool
    ensures { result ≡ true → (k : ℕ) → node.now ≡ Input k → Has (row plan.now.input_readers k) part }
{
    match node {
        Node::Input { port } => has(plan.input_readers(*port), part),
        _ => true,
    }
}

/// Whether a part is listed with the readers of the part that computes a node.
fn is_made_listed(plan: &Plan, part: u32, id: NodeId) -> bool
    ensures { result ≡ true → ¬ (part_of plan.now.spots id.0 ≡ part) → part_of plan.now.spots id.0 < length plan.now.parts → Has (row plan.now.readers (part_of plan.now.spots id.0)) part }
{
    let maker = spot_of(plan.spots(), id).part;
    if maker == part {
        return true;
    }
    if maker as usize >= plan.parts().len() {
        return true;
    }
    has(plan.readers(maker), part)
}

/// Whether a part is listed with those that read a node.
fn is_reader_listed(site: &Site<'_>, part: u32, id: NodeId) -> bool
    ensures { result ≡ true → IsReaderListed site.now.form.now.circuit site.now.plan.now part id.0 }
{
    let Some(row) = row_at(site.form.circuit(), id) else {
        return false;
    };
    if is_port_listed(site.plan, part, &row.node) {
        if is_made_listed(site.plan, part, id) {
            return true;
        }
    }
    false
}

/// Whether a part is listed with those that read these nodes.
fn are_readers_listed(site: &Site<'_>, part: u32, ids: &[NodeId]) -> bool
    ensures { result ≡ true → AreReadersListed site.now.form.now.circuit site.now.plan.now part ids.now }
{
    'ids: for id in ids {
        if is_reader_listed(site, part, *id) {} else {
            return false;
        }
    }
    true
}

/// Whether a part is listed with those that read the operands of a node.
fn are_operands_listed(site: &Site<'_>, part: u32, node: &Node) -> bool
    ensures { result ≡ true → AreReadersListed site.now.form.now.circuit site.now.plan.now part (comb_fanin node.now) }
{
    match node {
        Node::Wire { driver: Some(a) } => are_readers_listed(site, part, &[*a]),
        Node::Two { op: _, a, b } => are_readers_listed(site, part, &[*a, *b]),
        Node::Not { a } => are_readers_listed(site, part, &[*a]),
        Node::Mux { sel, cases } => {
            if is_reader_listed(site, part, *sel) {
                return are_readers_listed(site, part, cases.as_slice());
            }
            false
        }
        Node::Cat { parts: it } => are_readers_listed(site, part, it.as_slice()),
        Node::Select { a, hi: _, lo: _ } => are_readers_listed(site, part, &[*a]),
        Node::Read { mem: _, addr } => are_readers_listed(site, part, &[*addr]),
        Node::Op { kind: _, args } => are_readers_listed(site, part, args.as_slice()),
        Node::Reg { .. }
        | Node::Wire { driver: None }
        | Node::Input { .. }
        | Node::Const { .. }
        | Node::InstOut { .. } => true,
    }
}

/// Whether a part is listed with those that read the state, if the node does.
fn is_state_listed(plan: &Plan, part: u32, node: &Node) -> bool
    ensures { result ≡ true → IsState node.now → Has plan.now.state_parts part }
{
    match node {
        Node::Reg { .. } | Node::Read { .. } => has(plan.state_parts(), part),
        _ => true,
    }
}

/// Whether the tables have a node of the circuit itself.
fn is_make_listed(site: &Site<'_>, part: u32, id: NodeId) -> bool
    ensures { result ≡ true → IsListed site.now.db.now.entries site.now.plans.now site.now.form.now site.now.plan.now part (make id.0) }
{
    let Some(row) = row_at(site.form.circuit(), id) else {
        return false;
    };
    if are_operands_listed(site, part, &row.node) {
        if is_state_listed(site.plan, part, &row.node) {
            return true;
        }
    }
    false
}

/// Whether the tables have an output of an instance.
fn is_take_listed(site: &Site<'_>, part: u32, id: NodeId, it: InstId, port: u32) -> bool
    ensures { result ≡ true → IsListed site.now.db.now.entries site.now.plans.now site.now.form.now site.now.plan.now part (take id.0 it.0 port) }
{
    let _ = id;
    let Some(kid) = kid_circuit(site.db, site.form, it) else {
        return false;
    };
    let Some(plan) = kid_plan(site.plans, site.form, it) else {
        return false;
    };
    let Some(wire) = output_of(kid, port) else {
        return false;
    };
    let maker = site.plan.ran_in(it, spot_of(plan.spots(), wire).part);
    if maker == part {
        return true;
    }
    has(site.plan.takers(maker), part)
}

/// Whether the tables have a step.
fn is_listed(site: &Site<'_>, part: u32, step: Step) -> bool
    ensures { result ≡ true → IsListed site.now.db.now.entries site.now.plans.now site.now.form.now site.now.plan.now part (step_view step) }
{
    match step {
        Step::Make { node } => is_make_listed(site, part, node),
        Step::Take { node, inst, port } => is_take_listed(site, part, node, inst, port),
        Step::Pass {
            node,
            inst: _,
            port: _,
        } => is_reader_listed(site, part, node),
        Step::Run { inst, part: own } => {
            if part == site.plan.ran_in(inst, own) {
                return true;
            }
            false
        }
    }
}

/// Whether the tables have the step at a spot.
fn is_listed_at(site: &Site<'_>, at: Spot) -> bool
    ensures { result ≡ true → (step : StepOf) → slice_get (steps_at site.now.plan.now.parts at.part) at.step ≡ Some step → IsListed site.now.db.now.entries site.now.plans.now site.now.form.now site.now.plan.now at.part step }
{
    let Some(step) = step_at(site.plan.parts(), at) else {
        return false;
    };
    is_listed(site, at.part, step)
}

/// Whether the tables have all steps of a part.
fn are_listed_in(site: &Site<'_>, part: u32) -> bool
    ensures { result ≡ true → AreListedIn site.now.db.now.entries site.now.plans.now site.now.form.now site.now.plan.now part }
{
    let Some(count) = count_steps(site.plan.parts(), part) else {
        return false;
    };
    'steps: for s in 0..count {
        if is_listed_at(site, Spot { part, step: s }) {} else {
            return false;
        }
    }
    true
}

/// Whether the tables have all steps.
pub(crate) fn are_listed(site: &Site<'_>) -> bool
    ensures { result ≡ true → (j : ℕ) → AreListedIn site.now.db.now.entries site.now.plans.now site.now.form.now site.now.plan.now j }
{
    let Some(count) = count_parts(site.plan.parts()) else {
        return false;
    };
    'each: for j in 0..count {
        if are_listed_in(site, j) {} else {
            return false;
        }
    }
    true
}
