//! The calls that make one node.
ghost use Rattle.std.specs.Prelude.{◌≡◌, ◌≤◌, ◌<◌, ◌∷◌, [], length, IfErr, IfOk, Ok, OnOk};
ghost use Rattle.hc_bits.specs.Catalogue.{arity};
ghost use Rattle.hc_signal.specs.Builds.{AreNodes, IsMemory, IsNode};
ghost use Rattle.hc_signal.specs.Weight.{graph_weight};
ghost use Rattle.hc_signal.specs.declared.stop.BuildStop.TheVariants as stop;
ghost use Rattle.hc_unfold.specs.Gives.{Gives, Grows, HasRoom};
ghost use Rattle.hc_unfold.specs.Drawing as spec;

use hc_bits::{Bits, OpKind};
use hc_signal::{BuildStop, Builder, MemId, NodeId, Op2};

/// The weight from which on nothing more is drawn. No text of a lawful length comes near it.
const MOST_WEIGHT: u64 = 1 << 31;

/// Whether there is room for more: want of memory comes only from a weight of 2^31 on.
pub fn has_room(builder: &Builder) -> Result<(), BuildStop>
    ensures light { graph_weight builder.now < 2147483648 → result ≡ Ok tt }
    ensures ok { OnOk result (HasRoom builder.now) }
    ensures memory { IfErr result (λ e. e ≡ stop.NoMemory) }
{
    if builder.weight() < MOST_WEIGHT {
        Ok(())
    } else {
        Err(BuildStop::NoMemory)
    }
}

#[tactic(auto, using(crate::proofs::Growing::row_added))]
pub(crate) fn constant(builder: &mut Builder, value: Bits) -> Result<NodeId, BuildStop>
    ensures drawn { Gives (λ id. (builder.new, id)) result (spec.constant value builder.old) }
    ensures grows { OnOk result (Grows builder.old builder.new) }
    ensures node { IfOk result (λ id. IsNode builder.new id) }
{
    has_room(builder)?;
    builder.constant(value)
}

#[tactic(auto, using(crate::proofs::Growing::row_added))]
pub(crate) fn two(builder: &mut Builder, op: Op2, a: NodeId, b: NodeId) -> Result<NodeId, BuildStop>
    requires a_node { IsNode builder.old a }
    requires b_node { IsNode builder.old b }
    ensures drawn { Gives (λ id. (builder.new, id)) result (spec.two op a b builder.old) }
    ensures grows { OnOk result (Grows builder.old builder.new) }
    ensures node { IfOk result (λ id. IsNode builder.new id) }
{
    has_room(builder)?;
    builder.two(op, a, b)
}

#[tactic(auto, using(crate::proofs::Growing::row_added))]
pub(crate) fn invert(builder: &mut Builder, a: NodeId) -> Result<NodeId, BuildStop>
    requires { IsNode builder.old a }
    ensures drawn { Gives (λ id. (builder.new, id)) result (spec.invert a builder.old) }
    ensures grows { OnOk result (Grows builder.old builder.new) }
    ensures node { IfOk result (λ id. IsNode builder.new id) }
{
    has_room(builder)?;
    builder.not(a)
}

#[tactic(auto, using(crate::proofs::Growing::row_added))]
pub(crate) fn mux(builder: &mut Builder, sel: NodeId, cases: &[NodeId]) -> Result<NodeId, BuildStop>
    requires sel_node { IsNode builder.old sel }
    requires case_nodes { AreNodes builder.old cases.now }
    requires two { 2 ≤ length cases.now }
    ensures drawn { Gives (λ id. (builder.new, id)) result (spec.mux sel cases.now builder.old) }
    ensures grows { OnOk result (Grows builder.old builder.new) }
    ensures node { IfOk result (λ id. IsNode builder.new id) }
{
    has_room(builder)?;
    builder.mux(sel, cases)
}

/// The parts side by side; one part alone is that part.
#[tactic(auto, using(crate::proofs::Lists::node_at, crate::proofs::Growing::row_added, crate::proofs::Growing::grows_none))]
pub(crate) fn cat(builder: &mut Builder, parts: &[NodeId]) -> Result<NodeId, BuildStop>
    requires part_nodes { AreNodes builder.old parts.now }
    requires some { 1 ≤ length parts.now }
    ensures drawn { Gives (λ id. (builder.new, id)) result (spec.cat parts.now builder.old) }
    ensures grows { OnOk result (Grows builder.old builder.new) }
    ensures node { IfOk result (λ id. IsNode builder.new id) }
{
    if let [part] = parts {
        return Ok(*part);
    }
    has_room(builder)?;
    builder.cat(parts)
}

/// Two parts side by side.
#[tactic(auto, using(crate::proofs::Lists::two_nodes))]
pub(crate) fn cat_two(builder: &mut Builder, high: NodeId, low: NodeId) -> Result<NodeId, BuildStop>
    requires high_node { IsNode builder.old high }
    requires low_node { IsNode builder.old low }
    ensures drawn { Gives (λ id. (builder.new, id)) result (spec.cat (high ∷ low ∷ []) builder.old) }
    ensures grows { OnOk result (Grows builder.old builder.new) }
    ensures node { IfOk result (λ id. IsNode builder.new id) }
{
    cat(builder, &[high, low])
}

/// A choice of two.
#[tactic(auto, using(crate::proofs::Lists::two_nodes))]
pub(crate) fn mux_two(
    builder: &mut Builder,
    sel: NodeId,
    a: NodeId,
    b: NodeId,
) -> Result<NodeId, BuildStop>
    requires sel_node { IsNode builder.old sel }
    requires a_node { IsNode builder.old a }
    requires b_node { IsNode builder.old b }
    ensures drawn { Gives (λ id. (builder.new, id)) result (spec.mux sel (a ∷ b ∷ []) builder.old) }
    ensures grows { OnOk result (Grows builder.old builder.new) }
    ensures node { IfOk result (λ id. IsNode builder.new id) }
{
    mux(builder, sel, &[a, b])
}

#[tactic(auto, using(crate::proofs::Growing::row_added))]
pub(crate) fn select(
    builder: &mut Builder,
    a: NodeId,
    hi: i64,
    lo: i64,
) -> Result<NodeId, BuildStop>
    requires { IsNode builder.old a }
    ensures drawn { Gives (λ id. (builder.new, id)) result (spec.select a hi lo builder.old) }
    ensures grows { OnOk result (Grows builder.old builder.new) }
    ensures node { IfOk result (λ id. IsNode builder.new id) }
{
    has_room(builder)?;
    builder.select(a, hi, lo)
}

#[tactic(auto, using(crate::proofs::Growing::row_added))]
pub(crate) fn read(builder: &mut Builder, mem: MemId, addr: NodeId) -> Result<NodeId, BuildStop>
    requires mem { IsMemory builder.old mem }
    requires addr { IsNode builder.old addr }
    ensures drawn { Gives (λ id. (builder.new, id)) result (spec.read mem addr builder.old) }
    ensures grows { OnOk result (Grows builder.old builder.new) }
    ensures node { IfOk result (λ id. IsNode builder.new id) }
{
    has_room(builder)?;
    builder.read(mem, addr)
}

#[tactic(auto, using(crate::proofs::Growing::row_added))]
pub(crate) fn operation(
    builder: &mut Builder,
    kind: OpKind,
    args: &[NodeId],
) -> Result<NodeId, BuildStop>
    requires arg_nodes { AreNodes builder.old args.now }
    requires arity { length args.now ≡ arity kind }
    ensures drawn { Gives (λ id. (builder.new, id)) result (spec.operation kind args.now builder.old) }
    ensures grows { OnOk result (Grows builder.old builder.new) }
    ensures node { IfOk result (λ id. IsNode builder.new id) }
{
    has_room(builder)?;
    builder.op(kind, args)
}
