ghost use Rattle.std.specs.Prelude.{◌≡◌, None, OnOk};
ghost use Rattle.hc_unfold.specs.Names.{AreKnown, IsThere, meaning};
ghost use Rattle.hc_statements.specs.Gives.{Performs};
ghost use Rattle.hc_statements.specs.Steps as spec;

use crate::kinds::Child;
use hc_fault::{FaultKind, ItemList};
use hc_signal::{BuildStop, Builder, NodeId};
use hc_unfold::{Key, Names, Target};
use std::alloc::Global;

/// A body under way: the graph so far, what names mean in it, the wires and outputs with the lines that declared them,
/// and the calls of its instances.
#[derive(Drop)]
pub struct Elaborating {
    pub graph: Builder,
    pub names: Names,
    pub declared: ItemList<(NodeId, u32)>,
    pub children: ItemList<Child>,
}

/// Nothing yet.
pub fn nothing(alloc: Global) -> Elaborating
    ensures { result ≡ spec.nothing }
{
    Elaborating {
        graph: Builder::new(alloc),
        names: Names::new(alloc),
        declared: ItemList::new(alloc),
        children: ItemList::new(alloc),
    }
}

/// F14 where a name is taken.
pub(crate) fn is_new(state: &Elaborating, key: &Key) -> Result<(), BuildStop>
    ensures done { Performs (λ x. (state.now, x)) result (spec.is_new key.now state.now) }
    ensures new { OnOk result (meaning state.now.names key.now ≡ None) }
{
    match state.names.get(key) {
        Some(_) => Err(BuildStop::Fault(FaultKind::RepeatedName)),
        None => Ok(()),
    }
}

/// Gives a new name its meaning.
#[tactic(auto, using(crate::proofs::Known::known_added))]
pub(crate) fn bind(state: &mut Elaborating, key: Key, target: Target) -> Result<(), BuildStop>
    requires new { meaning state.old.names key ≡ None }
    requires known { AreKnown state.old.graph state.old.names }
    requires there { IsThere state.old.graph target }
    ensures done { Performs (λ x. (state.new, x)) result (spec.bind key target state.old) }
    ensures known { OnOk result (AreKnown state.new.graph state.new.names) }
{
    state.names.add(key, target)?;
    Ok(())
}

/// Gives a name its meaning. F14 where it is taken.
pub(crate) fn define(state: &mut Elaborating, key: Key, target: Target) -> Result<(), BuildStop>
    requires known { AreKnown state.old.graph state.old.names }
    requires there { IsThere state.old.graph target }
    ensures done { Performs (λ x. (state.new, x)) result (spec.define key target state.old) }
    ensures known { OnOk result (AreKnown state.new.graph state.new.names) }
{
    is_new(state, &key)?;
    bind(state, key, target)
}

/// Notes the line that declares a wire or an output.
pub(crate) fn declare(state: &mut Elaborating, id: NodeId, line: u32) -> Result<(), BuildStop>
    ensures done { Performs (λ x. (state.new, x)) result (spec.declare id line state.old) }
{
    match state.declared.push((id, line)) {
        Ok(()) => Ok(()),
        Err(_) => Err(BuildStop::NoMemory),
    }
}
