//! The steps of a part, but those that run parts of instances.
ghost use Rattle.std.specs.Prelude.{◌≡◌};
ghost use Rattle.hc_canon.specs.declared.form.EntryId.{EntryId};
ghost use Rattle.hc_canon.specs.FormView.{FormView};
ghost use Rattle.hc_steps.specs.Compiled.{PlanView};
ghost use Rattle.hc_steps.specs.Plan.{make, pass, take};
ghost use Rattle.hc_signal.specs.Lawful.{HasWidth};
ghost use Rattle.hc_store.specs.Given.{IsFit, IsInstance, IsStepAt};
ghost use Rattle.hc_store.specs.Scene.{TakesStep};
ghost use Rattle.hc_store.specs.Stored.{kept_of, Advances, IsStoreOf};
ghost use Rattle.hc_values.specs.Rows.{node_widths, widths};
ghost use Rattle.hc_values.specs.Values.{IsValue};

use crate::instance::{form_at, plan_at};
use crate::put::put;
use crate::site::Site;
use crate::store::Store;
use hc_bits::Bits;
use hc_ops::OpTable;
use hc_signal::{InstId, NodeId};
use hc_values::{step_of, value_of};

/// The number of a node from those of its operands, its register or its memory.
fn number_of(
    site: &Site<'_>,
    ops: &OpTable,
    values: &[Bits],
    p: usize,
    part: u32,
    node: NodeId,
) -> Bits
    requires fit { IsFit site.now }
    requires step { IsStepAt site.now p part (make node.0) }
    requires values { (id : EntryId) (form : FormView) (plan : PlanView) → IsInstance site.now p id form plan → widths values.now ≡ node_widths form.circuit.nodes }
    ensures width { (id : EntryId) (form : FormView) (plan : PlanView) → IsInstance site.now p id form plan → HasWidth form.circuit node result.width }
    ensures value { (id : EntryId) (form : FormView) (plan : PlanView) → IsInstance site.now p id form plan → IsValue form.circuit (kept_of site.now values.now p) node.0 result.value }
{
    let circuit = form_at(site, p).circuit();
    value_of(
        circuit,
        ops,
        site.registers(p),
        site.words(p),
        values,
        step_of(circuit, node),
    )
}

/// Computes the number of a node.
pub(crate) fn make_number(
    site: &Site<'_>,
    ops: &OpTable,
    store: &mut Store,
    p: usize,
    part: u32,
    node: NodeId,
)
    requires fit { IsFit site.now }
    requires store { IsStoreOf site.now store.old }
    requires step { IsStepAt site.now p part (make node.0) }
    ensures advances { Advances site.now store.old store.new }
    ensures taken { TakesStep site.now p part (make node.0) store.old store.new }
{
    let x = number_of(site, ops, store.values.row(p), p, part, node);
    let readers = plan_at(site, p).readers(part);
    put(site, store, p, node.0, x, readers);
}

/// Takes the number of an output of an instance.
pub(crate) fn take_output(
    site: &Site<'_>,
    store: &mut Store,
    p: usize,
    part: u32,
    node: NodeId,
    inst: InstId,
    port: u32,
)
    requires fit { IsFit site.now }
    requires store { IsStoreOf site.now store.old }
    requires step { IsStepAt site.now p part (take node.0 inst.0 port) }
    ensures advances { Advances site.now store.old store.new }
    ensures taken { TakesStep site.now p part (take node.0 inst.0 port) store.old store.new }
{
    let q = site.kid(p, inst);
    let wire = form_at(site, q).circuit().outputs()[port as usize];
    let x = store.values.at(q, wire.0 as usize);
    let readers = plan_at(site, p).readers(part);
    put(site, store, p, node.0, x, readers);
}

/// Passes the number of a connection to the input of its instance.
pub(crate) fn pass_connection(
    site: &Site<'_>,
    store: &mut Store,
    p: usize,
    part: u32,
    node: NodeId,
    inst: InstId,
    port: u32,
)
    requires fit { IsFit site.now }
    requires store { IsStoreOf site.now store.old }
    requires step { IsStepAt site.now p part (pass node.0 inst.0 port) }
    ensures advances { Advances site.now store.old store.new }
    ensures taken { TakesStep site.now p part (pass node.0 inst.0 port) store.old store.new }
{
    let q = site.kid(p, inst);
    let x = store.values.at(p, node.0 as usize);
    let readers = plan_at(site, q).input_readers(port);
    put(site, store, q, port, x, readers);
}
