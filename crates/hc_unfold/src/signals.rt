//! The node of a signal.
ghost use Rattle.std.specs.Prelude.{◌≡◌, ◌++◌, ◌∷◌, [], map, IfErr, IfOk, OnOk};
ghost use Rattle.hc_signal.specs.Builds.{AreNodes, IsNode};
ghost use Rattle.hc_signal.specs.declared.stop.BuildStop.TheVariants as stop;
ghost use Rattle.hc_unfold.specs.Gives.{Gives, Grows};
ghost use Rattle.hc_unfold.specs.Names.{AreKnown, as_instance, as_memory, as_node, meaning};
ghost use Rattle.hc_unfold.specs.Places.{meant};
ghost use Rattle.hc_unfold.specs.Signals as written;
ghost use Rattle.hc_unfold.specs.Nodes as spec;

use crate::calls::{called, operated};
use crate::names::{Key, Names};
use crate::outputs::instance_output;
use crate::places::{key, numbers};
use crate::primitives::{constant, read};
use crate::widths::literal;
use hc_bits::OpKind;
use hc_fault::{FaultKind, Name};
use hc_lang::{IdentText, Sig};
use hc_num::Env;
use hc_signal::{BuildStop, Builder, NodeId};
use std::alloc::Global;

/// The constant of a literal.
fn sized(builder: &mut Builder, width: i64, value: u128) -> Result<NodeId, BuildStop>
    ensures drawn { Gives (λ id. (builder.new, id)) result (spec.sized width value builder.old) }
    ensures grows { OnOk result (Grows builder.old builder.new) }
    ensures node { IfOk result (λ id. IsNode builder.new id) }
{
    let bits = literal(width, value)?;
    constant(builder, bits)
}

/// The node that a name means. F11 or F13 of its index, F13 where it means no node.
fn node_named(
    alloc: Global,
    builder: &Builder,
    names: &Names,
    env: &Env,
    ident: &IdentText,
) -> Result<NodeId, BuildStop>
    requires { AreKnown builder.now names.now }
    ensures found { Gives (λ id. id) result (meant names.now as_node (written.place env.now ident.now)) }
    ensures node { IfOk result (λ id. IsNode builder.now id) }
{
    let key = key(alloc, ident, env)?;
    match names.node(&key) {
        Some(id) => Ok(id),
        None => Err(BuildStop::Fault(FaultKind::UnknownName)),
    }
}

/// The node of an output of the instance that a name means. F11 or F13 of its index, F13 where it means no instance,
/// F21 where the instance has no such output.
fn output_named(
    alloc: Global,
    builder: &Builder,
    names: &Names,
    env: &Env,
    ident: &IdentText,
    port: &Name,
) -> Result<NodeId, BuildStop>
    requires { AreKnown builder.now names.now }
    ensures found { Gives (λ id. (builder.now, id)) result (spec.output_of names.now (written.place env.now ident.now) port.now builder.now) }
    ensures node { IfOk result (λ id. IsNode builder.now id) }
{
    let key = key(alloc, ident, env)?;
    match names.instance(&key) {
        Some(inst) => instance_output(builder, inst, port),
        None => Err(BuildStop::Fault(FaultKind::UnknownName)),
    }
}

/// The read of the memory that a name means. F13 where it means no memory.
fn read_from(
    builder: &mut Builder,
    names: &Names,
    key: &Key,
    addr: NodeId,
) -> Result<NodeId, BuildStop>
    requires known { AreKnown builder.old names.now }
    requires addr { IsNode builder.old addr }
    ensures drawn { Gives (λ id. (builder.new, id)) result (spec.read_from names.now key.now addr builder.old) }
    ensures grows { OnOk result (Grows builder.old builder.new) }
    ensures node { IfOk result (λ id. IsNode builder.new id) }
{
    match names.memory(key) {
        Some(mem) => read(builder, mem, addr),
        None => Err(BuildStop::Fault(FaultKind::UnknownName)),
    }
}

/// The operation of this name. F37 where there is none, or it takes another count of arguments.
fn operation_named(builder: &mut Builder, name: &Name, args: &[NodeId]) -> Result<NodeId, BuildStop>
    requires { AreNodes builder.old args.now }
    ensures drawn { Gives (λ id. (builder.new, id)) result (spec.operation_named name.now args.now builder.old) }
    ensures grows { OnOk result (Grows builder.old builder.new) }
    ensures node { IfOk result (λ id. IsNode builder.new id) }
{
    match OpKind::find(name.bytes()) {
        Some(kind) => operated(builder, kind, args),
        None => Err(BuildStop::Fault(FaultKind::UnknownOp)),
    }
}

/// Adds a node at the end.
fn push(nodes: &mut Vec<NodeId>, node: NodeId) -> Result<(), BuildStop>
    ensures ok { OnOk result (nodes.new.items ≡ nodes.old.items ++ node ∷ []) }
    ensures memory { IfErr result (λ e. e ≡ stop.NoMemory) }
{
    match nodes.push(node) {
        Ok(()) => Ok(()),
        Err(_) => Err(BuildStop::NoMemory),
    }
}

/// Draws signals in order: their nodes.
#[cycle(draw)]
#[tactic(auto, using(crate::proofs::Lists::nodes_onto_none, crate::proofs::Lists::no_nodes, crate::proofs::Growing::grows_none))]
fn draw_all(
    alloc: Global,
    builder: &mut Builder,
    names: &Names,
    env: &Env,
    sigs: &[Sig],
) -> Result<Vec<NodeId>, BuildStop>
    requires { AreKnown builder.old names.now }
    ensures drawn { Gives (λ ids. (builder.new, ids.items)) result (spec.nodes_of names.now (written.signals (map (written.signal env.now) sigs.now)) builder.old) }
    ensures grows { OnOk result (Grows builder.old builder.new) }
    ensures nodes { IfOk result (λ ids. AreNodes builder.new ids.items) }
{
    let mut nodes = Vec::new(alloc);
    'sigs: for sig in sigs {
        let node = draw(alloc, builder, names, env, sig)?;
        push(&mut nodes, node)?;
    }
    Ok(nodes)
}

/// Draws a signal: its nodes in the order of its text, each part before the whole, and the node that it is. The fault
/// is the first that is met.
#[cycle(draw)]
#[tactic(auto, using(crate::proofs::Growing::grows_on, crate::proofs::Growing::grows_none))]
pub fn draw(
    alloc: Global,
    builder: &mut Builder,
    names: &Names,
    env: &Env,
    sig: &Sig,
) -> Result<NodeId, BuildStop>
    requires { AreKnown builder.old names.now }
    ensures drawn { Gives (λ id. (builder.new, id)) result (spec.node_of names.now (written.signal env.now sig.now) builder.old) }
    ensures grows { OnOk result (Grows builder.old builder.new) }
    ensures node { IfOk result (λ id. IsNode builder.new id) }
{
    match sig {
        Sig::Sized { width, value } => sized(builder, *width, *value),
        Sig::Name { ident } => node_named(alloc, builder, names, env, ident),
        Sig::Port { inst, port } => output_named(alloc, builder, names, env, inst, port),
        Sig::Call { word, sigs, nums } => {
            let nodes = draw_all(alloc, builder, names, env, sigs.as_slice())?;
            let values = numbers(alloc, nums.as_slice(), env)?;
            called(builder, *word, nodes.as_slice(), values.as_slice())
        }
        Sig::Read { mem, addr } => {
            let key = key(alloc, mem, env)?;
            let node = draw(alloc, builder, names, env, addr.get())?;
            read_from(builder, names, &key, node)
        }
        Sig::Op { name, sigs } => {
            let args = draw_all(alloc, builder, names, env, sigs.as_slice())?;
            operation_named(builder, name, args.as_slice())
        }
    }
}
