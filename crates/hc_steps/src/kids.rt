//! The instances of a form.
ghost use Rattle.std.specs.Prelude.{◌≡◌, IfSome, Some, slice_get};
ghost use Rattle.hc_steps.specs.Compiled.{graph_of_kid, plan_in};

use crate::compiled::Plan;
use hc_canon::Form;
use hc_dbstate::DbState;
use hc_signal::{Circuit, InstId, NodeId};

/// The circuit of an instance.
pub fn kid_circuit<'a>(db: &'a DbState, form: &Form, it: InstId) -> Option<&'a Circuit>
    ensures { IfSome result (λ c. c.now ≡ graph_of_kid db.now.entries form.now it.0) }
{
    match form.kids().get(it.0 as usize) {
        None => None,
        Some(id) => {
            if id.0 < db.len() {
                Some(db.get(*id).circuit())
            } else {
                None
            }
        }
    }
}

/// The plan of an instance.
pub fn kid_plan<'a>(plans: &'a [Plan], form: &Form, it: InstId) -> Option<&'a Plan>
    ensures { IfSome result (λ p. plan_in plans.now (slice_get form.now.kids it.0) ≡ Some p.now) }
{
    match form.kids().get(it.0 as usize) {
        None => None,
        Some(id) => plans.get(id.0),
    }
}

/// The output wire of a circuit.
pub fn output_of(circuit: &Circuit, port: u32) -> Option<NodeId>
    ensures { IfSome result (λ w. slice_get circuit.now.outputs port ≡ Some w) }
{
    circuit.outputs().get(port as usize).copied()
}
