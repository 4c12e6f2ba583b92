//! The calls that unfold to several nodes.
ghost use Rattle.std.specs.Prelude.{◌≡◌, ◌≤◌, ◌*◌, ◌&&◌, ℕ, nat_le, replicate, take, IfOk, OnOk};
ghost use Rattle.hc_bits.specs.BitVector.{IsWidth};
ghost use Rattle.hc_signal.specs.Builds.{IsNode};
ghost use Rattle.hc_unfold.specs.Gives.{Gives, Grows};
ghost use Rattle.hc_unfold.specs.Derived as spec;

use crate::primitives::{cat, cat_two, constant, invert, mux_two, select, two};
use crate::widths::{as_width, sign_bit, zero};
use hc_fault::FaultKind;
use hc_signal::{BuildStop, Builder, NodeId, Op2};

/// The bits from `hi` down to `lo`.
pub(crate) fn part(builder: &mut Builder, x: NodeId, hi: u32, lo: u32) -> Result<NodeId, BuildStop>
    requires { IsNode builder.old x }
    ensures drawn { Gives (λ id. (builder.new, id)) result (spec.part x hi lo builder.old) }
    ensures grows { OnOk result (Grows builder.old builder.new) }
    ensures node { IfOk result (λ id. IsNode builder.new id) }
{
    select(builder, x, i64::from(hi), i64::from(lo))
}

pub(crate) fn zeros(builder: &mut Builder, width: u32) -> Result<NodeId, BuildStop>
    requires { IsWidth width }
    ensures drawn { Gives (λ id. (builder.new, id)) result (spec.zeros width builder.old) }
    ensures grows { OnOk result (Grows builder.old builder.new) }
    ensures node { IfOk result (λ id. IsNode builder.new id) }
{
    constant(builder, zero(width))
}

#[tactic(auto, using(crate::proofs::Growing::grows_on, crate::proofs::Growing::grows_none))]
pub(crate) fn ne(builder: &mut Builder, x: NodeId, y: NodeId) -> Result<NodeId, BuildStop>
    requires x_node { IsNode builder.old x }
    requires y_node { IsNode builder.old y }
    ensures drawn { Gives (λ id. (builder.new, id)) result (spec.ne x y builder.old) }
    ensures grows { OnOk result (Grows builder.old builder.new) }
    ensures node { IfOk result (λ id. IsNode builder.new id) }
{
    let equal = two(builder, Op2::Eq, x, y)?;
    invert(builder, equal)
}

#[tactic(auto, using(crate::proofs::Growing::grows_on, crate::proofs::Growing::grows_none))]
pub(crate) fn not_lt(builder: &mut Builder, x: NodeId, y: NodeId) -> Result<NodeId, BuildStop>
    requires x_node { IsNode builder.old x }
    requires y_node { IsNode builder.old y }
    ensures drawn { Gives (λ id. (builder.new, id)) result (spec.not_lt x y builder.old) }
    ensures grows { OnOk result (Grows builder.old builder.new) }
    ensures node { IfOk result (λ id. IsNode builder.new id) }
{
    let below = two(builder, Op2::Lt, x, y)?;
    invert(builder, below)
}

/// Less-than of two's complement numbers: unsigned, with both sign bits turned.
#[tactic(auto, using(crate::proofs::Growing::grows_on, crate::proofs::Growing::grows_none))]
pub(crate) fn lts(builder: &mut Builder, x: NodeId, y: NodeId) -> Result<NodeId, BuildStop>
    requires x_node { IsNode builder.old x }
    requires y_node { IsNode builder.old y }
    ensures drawn { Gives (λ id. (builder.new, id)) result (spec.lts x y builder.old) }
    ensures grows { OnOk result (Grows builder.old builder.new) }
    ensures node { IfOk result (λ id. IsNode builder.new id) }
{
    let width = builder.width(y);
    if builder.width(x) != width {
        return Err(BuildStop::Fault(FaultKind::WidthMismatch));
    }
    let sign = constant(builder, sign_bit(width))?;
    let a = two(builder, Op2::Xor, x, sign)?;
    let b = two(builder, Op2::Xor, y, sign)?;
    two(builder, Op2::Lt, a, b)
}

/// `a` where the one bit `sel` is 1, else `b`.
pub(crate) fn mux2(
    builder: &mut Builder,
    sel: NodeId,
    a: NodeId,
    b: NodeId,
) -> Result<NodeId, BuildStop>
    requires sel_node { IsNode builder.old sel }
    requires a_node { IsNode builder.old a }
    requires b_node { IsNode builder.old b }
    ensures drawn { Gives (λ id. (builder.new, id)) result (spec.mux2 sel a b builder.old) }
    ensures grows { OnOk result (Grows builder.old builder.new) }
    ensures node { IfOk result (λ id. IsNode builder.new id) }
{
    if builder.width(sel) != 1 || builder.width(a) != builder.width(b) {
        return Err(BuildStop::Fault(FaultKind::WidthMismatch));
    }
    mux_two(builder, sel, b, a)
}

/// The highest bit.
pub(crate) fn msb(builder: &mut Builder, x: NodeId) -> Result<NodeId, BuildStop>
    requires { IsNode builder.old x }
    ensures drawn { Gives (λ id. (builder.new, id)) result (spec.msb x builder.old) }
    ensures grows { OnOk result (Grows builder.old builder.new) }
    ensures node { IfOk result (λ id. IsNode builder.new id) }
{
    let width = builder.width(x);
    part(builder, x, width - 1, width - 1)
}

/// Whether `count` nodes of `width` bits are a node of 1 to 128 bits.
fn copies_fit(width: u32, count: u64) -> bool
    ensures { result ≡ (nat_le 1 count && nat_le (count * width) 128) }
{
    match count.checked_mul(u64::from(width)) {
        Some(bits) => count >= 1 && bits <= 128,
        None => false,
    }
}

/// A node as often as it can stand side by side.
fn filled(x: NodeId) -> [NodeId; 128]
    ensures { (n : ℕ) → n ≤ 128 → take n result ≡ replicate n x }
{
    [x; 128]
}

/// A node `count` times side by side. F12 where that is none, or wider than 128 bits.
pub(crate) fn copies(builder: &mut Builder, x: NodeId, count: u64) -> Result<NodeId, BuildStop>
    requires { IsNode builder.old x }
    ensures drawn { Gives (λ id. (builder.new, id)) result (spec.copies x count builder.old) }
    ensures grows { OnOk result (Grows builder.old builder.new) }
    ensures node { IfOk result (λ id. IsNode builder.new id) }
{
    if !copies_fit(builder.width(x), count) {
        return Err(BuildStop::Fault(FaultKind::Width));
    }
    let nodes = filled(x);
    cat(builder, &nodes[..count as usize])
}

pub(crate) fn repeat(builder: &mut Builder, x: NodeId, count: i64) -> Result<NodeId, BuildStop>
    requires { IsNode builder.old x }
    ensures drawn { Gives (λ id. (builder.new, id)) result (spec.repeat x count builder.old) }
    ensures grows { OnOk result (Grows builder.old builder.new) }
    ensures node { IfOk result (λ id. IsNode builder.new id) }
{
    if count < 0 {
        return Err(BuildStop::Fault(FaultKind::Width));
    }
    copies(builder, x, count as u64)
}

/// A node of `width` bits in `wanted` bits: as it is, cut, or with zeros above.
#[tactic(auto, using(crate::proofs::Growing::grows_on, crate::proofs::Growing::grows_none))]
pub(crate) fn zero_extended(
    builder: &mut Builder,
    x: NodeId,
    width: u32,
    wanted: u32,
) -> Result<NodeId, BuildStop>
    requires x_node { IsNode builder.old x }
    requires width { IsWidth width }
    requires wanted { IsWidth wanted }
    ensures drawn { Gives (λ id. (builder.new, id)) result (spec.zero_extended x width wanted builder.old) }
    ensures grows { OnOk result (Grows builder.old builder.new) }
    ensures node { IfOk result (λ id. IsNode builder.new id) }
{
    if wanted == width {
        return Ok(x);
    }
    if wanted < width {
        return part(builder, x, wanted - 1, 0);
    }
    let above = zeros(builder, wanted - width)?;
    cat_two(builder, above, x)
}

/// The same with copies of the highest bit above.
#[tactic(auto, using(crate::proofs::Growing::grows_on, crate::proofs::Growing::grows_none))]
pub(crate) fn sign_extended(
    builder: &mut Builder,
    x: NodeId,
    width: u32,
    wanted: u32,
) -> Result<NodeId, BuildStop>
    requires x_node { IsNode builder.old x }
    requires width { IsWidth width }
    requires wanted { IsWidth wanted }
    ensures drawn { Gives (λ id. (builder.new, id)) result (spec.sign_extended x width wanted builder.old) }
    ensures grows { OnOk result (Grows builder.old builder.new) }
    ensures node { IfOk result (λ id. IsNode builder.new id) }
{
    if wanted <= width {
        return zero_extended(builder, x, width, wanted);
    }
    let sign = msb(builder, x)?;
    let above = copies(builder, sign, u64::from(wanted - width))?;
    cat_two(builder, above, x)
}

pub(crate) fn uresize(builder: &mut Builder, x: NodeId, wanted: i64) -> Result<NodeId, BuildStop>
    requires { IsNode builder.old x }
    ensures drawn { Gives (λ id. (builder.new, id)) result (spec.uresize x wanted builder.old) }
    ensures grows { OnOk result (Grows builder.old builder.new) }
    ensures node { IfOk result (λ id. IsNode builder.new id) }
{
    let wanted = as_width(wanted)?;
    let width = builder.width(x);
    zero_extended(builder, x, width, wanted)
}

pub(crate) fn sresize(builder: &mut Builder, x: NodeId, wanted: i64) -> Result<NodeId, BuildStop>
    requires { IsNode builder.old x }
    ensures drawn { Gives (λ id. (builder.new, id)) result (spec.sresize x wanted builder.old) }
    ensures grows { OnOk result (Grows builder.old builder.new) }
    ensures node { IfOk result (λ id. IsNode builder.new id) }
{
    let wanted = as_width(wanted)?;
    let width = builder.width(x);
    sign_extended(builder, x, width, wanted)
}
