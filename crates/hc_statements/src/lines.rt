//! The plain statements.
ghost use Rattle.std.specs.Prelude.{◌≡◌, IfOk, IfSome, OnOk};
ghost use Rattle.hc_num.specs.Value.{value};
ghost use Rattle.hc_signal.specs.Builds.{IsNode, IsWire, MayBeNode};
ghost use Rattle.hc_unfold.specs.Names.{AreKnown, IsThere};
ghost use Rattle.hc_unfold.specs.Signals.{place, signal, number};
ghost use Rattle.hc_statements.specs.Gives.{Performs};
ghost use Rattle.hc_statements.specs.Statements as spec;

use crate::state::{Elaborating, bind, declare, define, is_new};
use hc_fault::{FaultKind, Name};
use hc_lang::{IdentText, Num, Sig};
use hc_num::{Env, eval};
use hc_signal::{BuildStop, Builder, Node, NodeId};
use hc_unfold::{Key, Target, as_width, draw, has_room, key};
use std::alloc::Global;

/// A name for a signal.
#[tactic(auto, using(crate::proofs::Known::known_still))]
pub(crate) fn let_line(
    alloc: Global,
    state: &mut Elaborating,
    env: &Env,
    to: &IdentText,
    sig: &Sig,
) -> Result<(), BuildStop>
    requires { AreKnown state.old.graph state.old.names }
    ensures done { Performs (λ x. (state.new, x)) result (spec.let_step (place env.now to.now) (signal env.now sig.now) state.old) }
    ensures known { OnOk result (AreKnown state.new.graph state.new.names) }
{
    let key = key(alloc, to, env)?;
    let id = draw(alloc, &mut state.graph, &state.names, env, sig)?;
    define(state, key, Target::Node(id))
}

/// A wire without a driver.
#[tactic(auto, using(crate::proofs::Known::known_longer))]
pub(crate) fn wire_line(
    alloc: Global,
    state: &mut Elaborating,
    env: &Env,
    line: u32,
    to: &IdentText,
    width: &Num,
) -> Result<(), BuildStop>
    requires { AreKnown state.old.graph state.old.names }
    ensures done { Performs (λ x. (state.new, x)) result (spec.wire_step line (place env.now to.now) (number env.now width.now) state.old) }
    ensures known { OnOk result (AreKnown state.new.graph state.new.names) }
{
    let key = key(alloc, to, env)?;
    let width = as_width(eval(width, env)?)?;
    is_new(state, &key)?;
    has_room(&state.graph)?;
    let id = state.graph.wire(i64::from(width))?;
    declare(state, id, line)?;
    bind(state, key, Target::Node(id))
}

/// The wire that a node is.
fn as_wire(graph: &Builder, id: Option<NodeId>) -> Option<NodeId>
    requires { MayBeNode graph.now id }
    ensures found { result ≡ spec.as_wire graph.now id }
    ensures wire { IfSome result (λ id. IsWire graph.now id) }
{
    let id = id?;
    match graph.row(id).node {
        Node::Wire { .. } => Some(id),
        _ => None,
    }
}

/// The wire or output that a name means. F13 where it means none.
#[tactic(auto, using(crate::proofs::Known::may_be_node))]
fn wire_named(state: &Elaborating, key: &Key) -> Result<NodeId, BuildStop>
    requires { AreKnown state.now.graph state.now.names }
    ensures found { Performs (λ id. (state.now, id)) result (spec.wire_named key.now state.now) }
    ensures wire { IfOk result (λ id. IsWire state.now.graph id) }
{
    match as_wire(&state.graph, state.names.node(key)) {
        Some(id) => Ok(id),
        None => Err(BuildStop::Fault(FaultKind::UnknownName)),
    }
}

/// The signal of a wire or an output.
#[tactic(auto, using(crate::proofs::Known::known_still, crate::proofs::Known::wire_still))]
pub(crate) fn assign_line(
    alloc: Global,
    state: &mut Elaborating,
    env: &Env,
    to: &IdentText,
    sig: &Sig,
) -> Result<(), BuildStop>
    requires { AreKnown state.old.graph state.old.names }
    ensures done { Performs (λ x. (state.new, x)) result (spec.assign_step (place env.now to.now) (signal env.now sig.now) state.old) }
    ensures known { OnOk result (AreKnown state.new.graph state.new.names) }
{
    let key = key(alloc, to, env)?;
    let wire = wire_named(state, &key)?;
    let from = draw(alloc, &mut state.graph, &state.names, env, sig)?;
    drive(state, wire, from)
}

/// Drives a wire from a node.
fn drive(state: &mut Elaborating, wire: NodeId, from: NodeId) -> Result<(), BuildStop>
    requires known { AreKnown state.old.graph state.old.names }
    requires wire { IsWire state.old.graph wire }
    requires from { IsNode state.old.graph from }
    ensures done { Performs (λ x. (state.new, x)) result (spec.drive wire from state.old) }
    ensures known { OnOk result (AreKnown state.new.graph state.new.names) }
{
    state.graph.drive(wire, from)?;
    Ok(())
}

/// Labels what a name means.
#[tactic(auto, using(crate::proofs::Known::known_meaning))]
pub(crate) fn label_line(
    alloc: Global,
    state: &mut Elaborating,
    env: &Env,
    to: &IdentText,
    label: &Name,
) -> Result<(), BuildStop>
    requires { AreKnown state.old.graph state.old.names }
    ensures done { Performs (λ x. (state.new, x)) result (spec.label_step (place env.now to.now) label.now state.old) }
    ensures known { OnOk result (AreKnown state.new.graph state.new.names) }
{
    let key = key(alloc, to, env)?;
    match state.names.get(&key) {
        Some(target) => put_label(state, target, label),
        None => Err(BuildStop::Fault(FaultKind::UnknownName)),
    }
}

/// F14 where it has a label, and where it is the node of a port.
fn put_label(state: &mut Elaborating, target: Target, label: &Name) -> Result<(), BuildStop>
    requires known { AreKnown state.old.graph state.old.names }
    requires there { IsThere state.old.graph target }
    ensures done { Performs (λ x. (state.new, x)) result (spec.put_label label.now target state.old) }
    ensures known { OnOk result (AreKnown state.new.graph state.new.names) }
{
    match target {
        Target::Node(id) => {
            state.graph.label_node(id, label)?;
            Ok(())
        }
        Target::Memory(id) => {
            state.graph.label_memory(id, label)?;
            Ok(())
        }
        Target::Instance(id) => {
            state.graph.label_instance(id, label)?;
            Ok(())
        }
    }
}
