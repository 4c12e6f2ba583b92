//! Shifts by a number of bits.
ghost use Rattle.std.specs.Prelude.{IfOk, OnOk};
ghost use Rattle.hc_bits.specs.BitVector.{IsWidth};
ghost use Rattle.hc_signal.specs.Builds.{IsNode};
ghost use Rattle.hc_unfold.specs.Gives.{Gives, Grows};
ghost use Rattle.hc_unfold.specs.Derived as spec;

use crate::derived::{copies, msb, part, zeros};
use crate::primitives::cat_two;
use hc_fault::FaultKind;
use hc_signal::{BuildStop, Builder, NodeId};

/// A node of `width` bits with `bits` zeros below, cut to its width.
#[tactic(auto, using(crate::proofs::Growing::grows_on, crate::proofs::Growing::grows_none))]
fn left(builder: &mut Builder, x: NodeId, width: u32, bits: u64) -> Result<NodeId, BuildStop>
    requires x_node { IsNode builder.old x }
    requires width { IsWidth width }
    ensures drawn { Gives (λ id. (builder.new, id)) result (spec.left x width bits builder.old) }
    ensures grows { OnOk result (Grows builder.old builder.new) }
    ensures node { IfOk result (λ id. IsNode builder.new id) }
{
    if bits == 0 {
        return Ok(x);
    }
    if bits >= u64::from(width) {
        return zeros(builder, width);
    }
    let bits = bits as u32;
    let kept = part(builder, x, width - 1 - bits, 0)?;
    let below = zeros(builder, bits)?;
    cat_two(builder, kept, below)
}

/// A node of `width` bits without the `bits` lowest, with zeros above.
#[tactic(auto, using(crate::proofs::Growing::grows_on, crate::proofs::Growing::grows_none))]
fn right(builder: &mut Builder, x: NodeId, width: u32, bits: u64) -> Result<NodeId, BuildStop>
    requires x_node { IsNode builder.old x }
    requires width { IsWidth width }
    ensures drawn { Gives (λ id. (builder.new, id)) result (spec.right x width bits builder.old) }
    ensures grows { OnOk result (Grows builder.old builder.new) }
    ensures node { IfOk result (λ id. IsNode builder.new id) }
{
    if bits == 0 {
        return Ok(x);
    }
    if bits >= u64::from(width) {
        return zeros(builder, width);
    }
    let bits = bits as u32;
    let above = zeros(builder, bits)?;
    let kept = part(builder, x, width - 1, bits)?;
    cat_two(builder, above, kept)
}

/// The same with copies of the highest bit above.
#[tactic(auto, using(crate::proofs::Growing::grows_on, crate::proofs::Growing::grows_none))]
fn right_signed(
    builder: &mut Builder,
    x: NodeId,
    width: u32,
    bits: u64,
) -> Result<NodeId, BuildStop>
    requires x_node { IsNode builder.old x }
    requires width { IsWidth width }
    ensures drawn { Gives (λ id. (builder.new, id)) result (spec.right_signed x width bits builder.old) }
    ensures grows { OnOk result (Grows builder.old builder.new) }
    ensures node { IfOk result (λ id. IsNode builder.new id) }
{
    if bits == 0 {
        return Ok(x);
    }
    let sign = msb(builder, x)?;
    if bits >= u64::from(width) {
        return copies(builder, sign, u64::from(width));
    }
    let above = copies(builder, sign, bits)?;
    let kept = part(builder, x, width - 1, bits as u32)?;
    cat_two(builder, above, kept)
}

pub(crate) fn sll(builder: &mut Builder, x: NodeId, bits: i64) -> Result<NodeId, BuildStop>
    requires { IsNode builder.old x }
    ensures drawn { Gives (λ id. (builder.new, id)) result (spec.sll x bits builder.old) }
    ensures grows { OnOk result (Grows builder.old builder.new) }
    ensures node { IfOk result (λ id. IsNode builder.new id) }
{
    if bits < 0 {
        return Err(BuildStop::Fault(FaultKind::SelectRange));
    }
    let width = builder.width(x);
    left(builder, x, width, bits as u64)
}

pub(crate) fn srl(builder: &mut Builder, x: NodeId, bits: i64) -> Result<NodeId, BuildStop>
    requires { IsNode builder.old x }
    ensures drawn { Gives (λ id. (builder.new, id)) result (spec.srl x bits builder.old) }
    ensures grows { OnOk result (Grows builder.old builder.new) }
    ensures node { IfOk result (λ id. IsNode builder.new id) }
{
    if bits < 0 {
        return Err(BuildStop::Fault(FaultKind::SelectRange));
    }
    let width = builder.width(x);
    right(builder, x, width, bits as u64)
}

pub(crate) fn sra(builder: &mut Builder, x: NodeId, bits: i64) -> Result<NodeId, BuildStop>
    requires { IsNode builder.old x }
    ensures drawn { Gives (λ id. (builder.new, id)) result (spec.sra x bits builder.old) }
    ensures grows { OnOk result (Grows builder.old builder.new) }
    ensures node { IfOk result (λ id. IsNode builder.new id) }
{
    if bits < 0 {
        return Err(BuildStop::Fault(FaultKind::SelectRange));
    }
    let width = builder.width(x);
    right_signed(builder, x, width, bits as u64)
}
