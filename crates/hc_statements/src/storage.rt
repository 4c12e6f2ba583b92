//! Registers and memories.
ghost use Rattle.std.specs.Prelude.{◌≡◌, ◌≤◌, length, IfOk, OnOk, option_map};
ghost use Rattle.std.specs.Option.{ForSome};
ghost use Rattle.hc_bits.specs.BitVector.{IsWidth};
ghost use Rattle.hc_signal.specs.Builds.{IsMemory, IsNode, MayBeNode, clear_of, width_at};
ghost use Rattle.hc_unfold.specs.Gives.{Gives, Grows};
ghost use Rattle.hc_unfold.specs.Names.{AreKnown};
ghost use Rattle.hc_unfold.specs.Signals.{place, signal, number};
ghost use Rattle.hc_statements.specs.Gives.{Performs};
ghost use Rattle.hc_statements.specs.Steps.{given};
ghost use Rattle.hc_statements.specs.declared.state.Elaborating.{Elaborating};
ghost use Rattle.hc_signal.specs.Rules.{is_bit};
ghost use Rattle.hc_statements.specs.Unrolled.{cleared};
ghost use Rattle.hc_statements.specs.Registers as register;
ghost use Rattle.hc_statements.specs.Statements as spec;

use crate::state::{Elaborating, bind, is_new};
use hc_bits::Bits;
use hc_fault::FaultKind;
use hc_lang::{IdentText, Num, Sig};
use hc_num::{Env, eval};
use hc_signal::{BuildStop, Builder, MemId, NodeId};
use hc_unfold::{Key, Target, as_width, draw, has_room, key};
use sqlite_items::Boxed;
use std::alloc::Global;

/// The node of an optional signal.
fn optional_node(
    alloc: Global,
    state: &mut Elaborating,
    env: &Env,
    sig: &Option<Boxed<Sig>>,
) -> Result<Option<NodeId>, BuildStop>
    requires { AreKnown state.old.graph state.old.names }
    ensures done { Performs (λ id. (state.new, id)) result (spec.optional spec.signal_node (option_map (signal env.now) sig.now) state.old) }
    ensures grows { OnOk result (Grows state.old.graph state.new.graph) }
    ensures names { OnOk result (state.new.names ≡ state.old.names) }
    ensures node { IfOk result (λ id. MayBeNode state.new.graph id) }
{
    match sig {
        Some(sig) => {
            let id = draw(alloc, &mut state.graph, &state.names, env, sig.get())?;
            Ok(Some(id))
        }
        None => Ok(None),
    }
}

/// The node and the number of an optional clear.
fn optional_clear(
    alloc: Global,
    state: &mut Elaborating,
    env: &Env,
    clear: &Option<Boxed<(Sig, Num)>>,
) -> Result<Option<(NodeId, i64)>, BuildStop>
    requires { AreKnown state.old.graph state.old.names }
    ensures done { Performs (λ x. (state.new, x)) result (spec.optional spec.clear_part (option_map (cleared env.now) clear.now) state.old) }
    ensures grows { OnOk result (Grows state.old.graph state.new.graph) }
    ensures names { OnOk result (state.new.names ≡ state.old.names) }
    ensures node { IfOk result (λ x. MayBeNode state.new.graph (register.clear_node x)) }
{
    match clear {
        Some(parts) => {
            let (sig, num) = parts.get();
            let id = draw(alloc, &mut state.graph, &state.names, env, sig)?;
            let number = eval(num, env)?;
            Ok(Some((id, number)))
        }
        None => Ok(None),
    }
}

/// The value of an optional number.
fn optional_number(env: &Env, num: &Option<Num>) -> Result<Option<i64>, FaultKind>
    ensures { (e : Elaborating) → spec.optional given (option_map (number env.now) num.now) e ≡ given result e }
{
    match num {
        Some(num) => {
            let value = eval(num, env)?;
            Ok(Some(value))
        }
        None => Ok(None),
    }
}

/// Whether a node, where there is one, is one bit wide.
fn is_one_bit(graph: &Builder, id: Option<NodeId>) -> bool
    requires { MayBeNode graph.now id }
    ensures { result ≡ is_bit (option_map (width_at graph.now) id) }
{
    match id {
        Some(id) => graph.width(id) == 1,
        None => true,
    }
}

/// The bit pattern of a number. F18 where the width has none.
fn value_in(width: u32, number: i64) -> Result<Bits, FaultKind>
    requires { IsWidth width }
    ensures value { result ≡ register.value_in width number }
    ensures width { IfOk result (λ v. v.width ≡ width) }
{
    Bits::from_i64(width, number).ok_or(FaultKind::ConstRange)
}

fn clear_in(width: u32, clear: Option<(NodeId, i64)>) -> Result<Option<(NodeId, Bits)>, FaultKind>
    requires { IsWidth width }
    ensures value { result ≡ register.clear_in width clear }
    ensures width { IfOk result (λ c. ForSome c (λ x. x.1.width ≡ width)) }
    ensures node { IfOk result (λ c. clear_of c ≡ register.clear_node clear) }
{
    match clear {
        Some((id, number)) => {
            let value = value_in(width, number)?;
            Ok(Some((id, value)))
        }
        None => Ok(None),
    }
}

/// The first value of a register, 0 where none is written.
fn init_in(width: u32, number: Option<i64>) -> Result<Bits, FaultKind>
    requires { IsWidth width }
    ensures value { result ≡ register.init_in width number }
    ensures width { IfOk result (λ v. v.width ≡ width) }
{
    match number {
        Some(number) => value_in(width, number),
        None => value_in(width, 0),
    }
}

/// Adds a register. F15 where `enable` or the node of `clear` is not one bit wide; F18 where the number of `clear`,
/// then the first value, has no bit pattern in its width.
#[tactic(auto, using(crate::proofs::Known::row_added))]
fn register(
    graph: &mut Builder,
    next: NodeId,
    enable: Option<NodeId>,
    clear: Option<(NodeId, i64)>,
    first: Option<i64>,
) -> Result<NodeId, BuildStop>
    requires next_node { IsNode graph.old next }
    requires enable_node { MayBeNode graph.old enable }
    requires clear_node { MayBeNode graph.old (register.clear_node clear) }
    ensures drawn { Gives (λ id. (graph.new, id)) result (register.register next enable clear first graph.old) }
    ensures grows { OnOk result (Grows graph.old graph.new) }
    ensures node { IfOk result (λ id. IsNode graph.new id) }
{
    if !is_one_bit(graph, enable) || !is_one_bit(graph, clear.map(|c| c.0)) {
        return Err(BuildStop::Fault(FaultKind::WidthMismatch));
    }
    let width = graph.width(next);
    let clear = clear_in(width, clear)?;
    let init = init_in(width, first)?;
    has_room(graph)?;
    graph.reg(next, enable, clear, init)
}

/// A register.
#[tactic(auto, using(crate::proofs::Known::known_still, crate::proofs::Known::may_still))]
pub(crate) fn reg_line(
    alloc: Global,
    state: &mut Elaborating,
    env: &Env,
    to: &IdentText,
    next: &Sig,
    enable: &Option<Boxed<Sig>>,
    clear: &Option<Boxed<(Sig, Num)>>,
    init: &Option<Num>,
) -> Result<(), BuildStop>
    requires { AreKnown state.old.graph state.old.names }
    ensures done { Performs (λ x. (state.new, x)) result (spec.reg_step (place env.now to.now) (signal env.now next.now) (option_map (signal env.now) enable.now) (option_map (cleared env.now) clear.now) (option_map (number env.now) init.now) state.old) }
    ensures known { OnOk result (AreKnown state.new.graph state.new.names) }
{
    let key = key(alloc, to, env)?;
    let next = draw(alloc, &mut state.graph, &state.names, env, next)?;
    let enable = optional_node(alloc, state, env, enable)?;
    let clear = optional_clear(alloc, state, env, clear)?;
    let first = optional_number(env, init)?;
    is_new(state, &key)?;
    let id = register(&mut state.graph, next, enable, clear, first)?;
    bind(state, key, Target::Node(id))
}

/// Adds a memory. F19 where the size is not 1 to 65,536.
fn new_memory(graph: &mut Builder, size: i64, width: u32) -> Result<MemId, BuildStop>
    requires { IsWidth width }
    ensures drawn { Gives (λ id. (graph.new, id)) result (spec.new_memory size width graph.old) }
    ensures nodes { OnOk result (graph.new.nodes ≡ graph.old.nodes) }
    ensures instances { OnOk result (graph.new.instances ≡ graph.old.instances) }
    ensures memory { IfOk result (λ id. IsMemory graph.new id) }
    ensures longer { OnOk result (length graph.old.memories ≤ length graph.new.memories) }
{
    has_room(graph)?;
    graph.memory(size, i64::from(width))
}

/// A memory.
#[tactic(auto, using(crate::proofs::Known::known_longer))]
pub(crate) fn memory_line(
    alloc: Global,
    state: &mut Elaborating,
    env: &Env,
    to: &IdentText,
    size: &Num,
    width: &Num,
) -> Result<(), BuildStop>
    requires { AreKnown state.old.graph state.old.names }
    ensures done { Performs (λ x. (state.new, x)) result (spec.memory_step (place env.now to.now) (number env.now size.now) (number env.now width.now) state.old) }
    ensures known { OnOk result (AreKnown state.new.graph state.new.names) }
{
    let key = key(alloc, to, env)?;
    let size = eval(size, env)?;
    let width = eval(width, env)?;
    let width = as_width(width)?;
    is_new(state, &key)?;
    let id = new_memory(&mut state.graph, size, width)?;
    bind(state, key, Target::Memory(id))
}

/// The memory that a name means. F13 where it means none.
fn memory_named(state: &Elaborating, key: &Key) -> Result<MemId, BuildStop>
    requires { AreKnown state.now.graph state.now.names }
    ensures found { Performs (λ id. (state.now, id)) result (spec.memory_named key.now state.now) }
    ensures memory { IfOk result (λ id. IsMemory state.now.graph id) }
{
    match state.names.memory(key) {
        Some(id) => Ok(id),
        None => Err(BuildStop::Fault(FaultKind::UnknownName)),
    }
}

/// Adds a write port.
fn write(
    state: &mut Elaborating,
    mem: MemId,
    enable: NodeId,
    addr: NodeId,
    value: NodeId,
) -> Result<(), BuildStop>
    requires known { AreKnown state.old.graph state.old.names }
    requires mem { IsMemory state.old.graph mem }
    requires enable { IsNode state.old.graph enable }
    requires addr { IsNode state.old.graph addr }
    requires value { IsNode state.old.graph value }
    ensures done { Performs (λ x. (state.new, x)) result (spec.write mem enable addr value state.old) }
    ensures known { OnOk result (AreKnown state.new.graph state.new.names) }
{
    has_room(&state.graph)?;
    state.graph.write(mem, enable, addr, value)?;
    Ok(())
}

/// A write port of a memory.
#[tactic(auto, using(crate::proofs::Known::known_still, crate::proofs::Known::node_still, crate::proofs::Known::memory_still))]
pub(crate) fn write_line(
    alloc: Global,
    state: &mut Elaborating,
    env: &Env,
    to: &IdentText,
    enable: &Sig,
    addr: &Sig,
    value: &Sig,
) -> Result<(), BuildStop>
    requires { AreKnown state.old.graph state.old.names }
    ensures done { Performs (λ x. (state.new, x)) result (spec.write_step (place env.now to.now) (signal env.now enable.now) (signal env.now addr.now) (signal env.now value.now) state.old) }
    ensures known { OnOk result (AreKnown state.new.graph state.new.names) }
{
    let key = key(alloc, to, env)?;
    let mem = memory_named(state, &key)?;
    let enable = draw(alloc, &mut state.graph, &state.names, env, enable)?;
    let addr = draw(alloc, &mut state.graph, &state.names, env, addr)?;
    let value = draw(alloc, &mut state.graph, &state.names, env, value)?;
    write(state, mem, enable, addr, value)
}
