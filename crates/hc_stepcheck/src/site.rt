//! A plan with all that it rests on.
ghost use Rattle.std.specs.Prelude.{◌≡◌, true};
ghost use Rattle.hc_signal.specs.Graph.{Reached, inst, node};

use hc_canon::Form;
use hc_dbstate::DbState;
use hc_signal::{InstId, NodeId};
use hc_steps::Plan;
use hc_trees::canonical_rows_are_reached;

/// A plan, the form that it is for, all plans and the database.
#[derive(Clone, Copy)]
pub struct Site<'a> {
    pub db: &'a DbState,
    pub plans: &'a [Plan],
    pub form: &'a Form,
    pub plan: &'a Plan,
}

/// Whether the outputs reach a node: in a form they do but for inputs, which stand first.
pub(crate) fn is_reached(form: &Form, id: NodeId) -> bool
    ensures { result ≡ true → Reached form.now.circuit (node id.0) }
{
    form.canonical();
    canonical_rows_are_reached();
    let circuit = form.circuit();
    if circuit.ports().inputs.as_slice().len() <= id.0 as usize {
        if (id.0 as usize) < circuit.nodes().len() {
            return true;
        }
    }
    false
}

/// Whether an instance is there; then the outputs reach it.
pub(crate) fn is_there(form: &Form, it: InstId) -> bool
    ensures { result ≡ true → Reached form.now.circuit (inst it.0) }
{
    form.canonical();
    canonical_rows_are_reached();
    if (it.0 as usize) < form.circuit().instances().len() {
        return true;
    }
    false
}
