//! The calls of the design text over nodes and numbers. A form that the line grammar does not have is F3.
ghost use Rattle.std.specs.Prelude.{IfOk, OnOk};
ghost use Rattle.hc_signal.specs.Builds.{AreNodes, IsNode};
ghost use Rattle.hc_unfold.specs.Gives.{Gives, Grows};
ghost use Rattle.hc_unfold.specs.Calls as spec;

use crate::derived::{lts, msb, mux2, ne, not_lt, part, repeat, sresize, uresize};
use crate::primitives::{cat, constant, invert, mux, operation, select, two};
use crate::shifts::{sll, sra, srl};
use crate::widths::number_bits;
use hc_bits::OpKind;
use hc_fault::FaultKind;
use hc_lang::CallWord;
use hc_signal::{BuildStop, Builder, NodeId, Op2};

fn unary(builder: &mut Builder, word: CallWord, x: NodeId) -> Result<NodeId, BuildStop>
    requires { IsNode builder.old x }
    ensures drawn { Gives (λ id. (builder.new, id)) result (spec.unary word x builder.old) }
    ensures grows { OnOk result (Grows builder.old builder.new) }
    ensures node { IfOk result (λ id. IsNode builder.new id) }
{
    match word {
        CallWord::Not => invert(builder, x),
        CallWord::Msb => msb(builder, x),
        CallWord::Lsb => part(builder, x, 0, 0),
        _ => Err(BuildStop::Fault(FaultKind::Syntax)),
    }
}

fn binary(builder: &mut Builder, word: CallWord, x: NodeId, y: NodeId) -> Result<NodeId, BuildStop>
    requires x_node { IsNode builder.old x }
    requires y_node { IsNode builder.old y }
    ensures drawn { Gives (λ id. (builder.new, id)) result (spec.binary word x y builder.old) }
    ensures grows { OnOk result (Grows builder.old builder.new) }
    ensures node { IfOk result (λ id. IsNode builder.new id) }
{
    match word {
        CallWord::Add => two(builder, Op2::Add, x, y),
        CallWord::Sub => two(builder, Op2::Sub, x, y),
        CallWord::Mulu => two(builder, Op2::Mulu, x, y),
        CallWord::Muls => two(builder, Op2::Muls, x, y),
        CallWord::And => two(builder, Op2::And, x, y),
        CallWord::Or => two(builder, Op2::Or, x, y),
        CallWord::Xor => two(builder, Op2::Xor, x, y),
        CallWord::Eq => two(builder, Op2::Eq, x, y),
        CallWord::Lt => two(builder, Op2::Lt, x, y),
        CallWord::Ne => ne(builder, x, y),
        CallWord::Gt => two(builder, Op2::Lt, y, x),
        CallWord::Le => not_lt(builder, y, x),
        CallWord::Ge => not_lt(builder, x, y),
        CallWord::Lts => lts(builder, x, y),
        _ => Err(BuildStop::Fault(FaultKind::Syntax)),
    }
}

fn ternary(
    builder: &mut Builder,
    word: CallWord,
    sel: NodeId,
    x: NodeId,
    y: NodeId,
) -> Result<NodeId, BuildStop>
    requires sel_node { IsNode builder.old sel }
    requires x_node { IsNode builder.old x }
    requires y_node { IsNode builder.old y }
    ensures drawn { Gives (λ id. (builder.new, id)) result (spec.ternary word sel x y builder.old) }
    ensures grows { OnOk result (Grows builder.old builder.new) }
    ensures node { IfOk result (λ id. IsNode builder.new id) }
{
    match word {
        CallWord::Mux2 => mux2(builder, sel, x, y),
        _ => Err(BuildStop::Fault(FaultKind::Syntax)),
    }
}

fn adjusted(
    builder: &mut Builder,
    word: CallWord,
    x: NodeId,
    number: i64,
) -> Result<NodeId, BuildStop>
    requires { IsNode builder.old x }
    ensures drawn { Gives (λ id. (builder.new, id)) result (spec.adjusted word x number builder.old) }
    ensures grows { OnOk result (Grows builder.old builder.new) }
    ensures node { IfOk result (λ id. IsNode builder.new id) }
{
    match word {
        CallWord::Uresize => uresize(builder, x, number),
        CallWord::Sresize => sresize(builder, x, number),
        CallWord::Sll => sll(builder, x, number),
        CallWord::Srl => srl(builder, x, number),
        CallWord::Sra => sra(builder, x, number),
        CallWord::Repeat => repeat(builder, x, number),
        _ => Err(BuildStop::Fault(FaultKind::Syntax)),
    }
}

/// The constant of a number.
fn number_constant(builder: &mut Builder, width: i64, number: i64) -> Result<NodeId, BuildStop>
    ensures drawn { Gives (λ id. (builder.new, id)) result (spec.const width number builder.old) }
    ensures grows { OnOk result (Grows builder.old builder.new) }
    ensures node { IfOk result (λ id. IsNode builder.new id) }
{
    let bits = number_bits(width, number)?;
    constant(builder, bits)
}

/// A selector and two cases or more.
#[tactic(auto, using(crate::proofs::Lists::node_at, crate::proofs::Lists::nodes_past))]
fn choice(builder: &mut Builder, sigs: &[NodeId]) -> Result<NodeId, BuildStop>
    requires { AreNodes builder.old sigs.now }
    ensures drawn { Gives (λ id. (builder.new, id)) result (spec.choice sigs.now builder.old) }
    ensures grows { OnOk result (Grows builder.old builder.new) }
    ensures node { IfOk result (λ id. IsNode builder.new id) }
{
    match sigs {
        [sel, cases @ ..] if cases.len() >= 2 => mux(builder, *sel, cases),
        _ => Err(BuildStop::Fault(FaultKind::Syntax)),
    }
}

/// One part or more, the most significant first.
fn concatenation(builder: &mut Builder, sigs: &[NodeId]) -> Result<NodeId, BuildStop>
    requires { AreNodes builder.old sigs.now }
    ensures drawn { Gives (λ id. (builder.new, id)) result (spec.concatenation sigs.now builder.old) }
    ensures grows { OnOk result (Grows builder.old builder.new) }
    ensures node { IfOk result (λ id. IsNode builder.new id) }
{
    if sigs.is_empty() {
        return Err(BuildStop::Fault(FaultKind::Syntax));
    }
    cat(builder, sigs)
}

#[tactic(auto, using(crate::proofs::Lists::node_at))]
fn plain(builder: &mut Builder, word: CallWord, sigs: &[NodeId]) -> Result<NodeId, BuildStop>
    requires { AreNodes builder.old sigs.now }
    ensures drawn { Gives (λ id. (builder.new, id)) result (spec.plain word sigs.now builder.old) }
    ensures grows { OnOk result (Grows builder.old builder.new) }
    ensures node { IfOk result (λ id. IsNode builder.new id) }
{
    match sigs {
        [x] => unary(builder, word, *x),
        [x, y] => binary(builder, word, *x, *y),
        [sel, x, y] => ternary(builder, word, *sel, *x, *y),
        _ => Err(BuildStop::Fault(FaultKind::Syntax)),
    }
}

fn of_signals(builder: &mut Builder, word: CallWord, sigs: &[NodeId]) -> Result<NodeId, BuildStop>
    requires { AreNodes builder.old sigs.now }
    ensures drawn { Gives (λ id. (builder.new, id)) result (spec.of_signals word sigs.now builder.old) }
    ensures grows { OnOk result (Grows builder.old builder.new) }
    ensures node { IfOk result (λ id. IsNode builder.new id) }
{
    match word {
        CallWord::Mux => choice(builder, sigs),
        CallWord::Cat => concatenation(builder, sigs),
        _ => plain(builder, word, sigs),
    }
}

#[tactic(auto, using(crate::proofs::Lists::node_at))]
fn with_number(
    builder: &mut Builder,
    word: CallWord,
    sigs: &[NodeId],
    number: i64,
) -> Result<NodeId, BuildStop>
    requires { AreNodes builder.old sigs.now }
    ensures drawn { Gives (λ id. (builder.new, id)) result (spec.with_number word sigs.now number builder.old) }
    ensures grows { OnOk result (Grows builder.old builder.new) }
    ensures node { IfOk result (λ id. IsNode builder.new id) }
{
    match sigs {
        [x] => adjusted(builder, word, *x, number),
        _ => Err(BuildStop::Fault(FaultKind::Syntax)),
    }
}

fn const_alone(
    builder: &mut Builder,
    sigs: &[NodeId],
    width: i64,
    number: i64,
) -> Result<NodeId, BuildStop>
    ensures drawn { Gives (λ id. (builder.new, id)) result (spec.const_alone sigs.now width number builder.old) }
    ensures grows { OnOk result (Grows builder.old builder.new) }
    ensures node { IfOk result (λ id. IsNode builder.new id) }
{
    match sigs {
        [] => number_constant(builder, width, number),
        _ => Err(BuildStop::Fault(FaultKind::Syntax)),
    }
}

#[tactic(auto, using(crate::proofs::Lists::node_at))]
fn select_from(
    builder: &mut Builder,
    sigs: &[NodeId],
    hi: i64,
    lo: i64,
) -> Result<NodeId, BuildStop>
    requires { AreNodes builder.old sigs.now }
    ensures drawn { Gives (λ id. (builder.new, id)) result (spec.select_from sigs.now hi lo builder.old) }
    ensures grows { OnOk result (Grows builder.old builder.new) }
    ensures node { IfOk result (λ id. IsNode builder.new id) }
{
    match sigs {
        [x] => select(builder, *x, hi, lo),
        _ => Err(BuildStop::Fault(FaultKind::Syntax)),
    }
}

fn with_numbers(
    builder: &mut Builder,
    word: CallWord,
    sigs: &[NodeId],
    first: i64,
    second: i64,
) -> Result<NodeId, BuildStop>
    requires { AreNodes builder.old sigs.now }
    ensures drawn { Gives (λ id. (builder.new, id)) result (spec.with_numbers word sigs.now first second builder.old) }
    ensures grows { OnOk result (Grows builder.old builder.new) }
    ensures node { IfOk result (λ id. IsNode builder.new id) }
{
    match word {
        CallWord::Const => const_alone(builder, sigs, first, second),
        CallWord::Select => select_from(builder, sigs, first, second),
        _ => Err(BuildStop::Fault(FaultKind::Syntax)),
    }
}

/// What a call draws.
pub(crate) fn called(
    builder: &mut Builder,
    word: CallWord,
    sigs: &[NodeId],
    nums: &[i64],
) -> Result<NodeId, BuildStop>
    requires { AreNodes builder.old sigs.now }
    ensures drawn { Gives (λ id. (builder.new, id)) result (spec.called word sigs.now nums.now builder.old) }
    ensures grows { OnOk result (Grows builder.old builder.new) }
    ensures node { IfOk result (λ id. IsNode builder.new id) }
{
    match nums {
        [] => of_signals(builder, word, sigs),
        [number] => with_number(builder, word, sigs, *number),
        [first, second] => with_numbers(builder, word, sigs, *first, *second),
        _ => Err(BuildStop::Fault(FaultKind::Syntax)),
    }
}

/// An operation of the catalogue. F37 where its kind takes another count of arguments.
pub(crate) fn operated(
    builder: &mut Builder,
    kind: OpKind,
    args: &[NodeId],
) -> Result<NodeId, BuildStop>
    requires { AreNodes builder.old args.now }
    ensures drawn { Gives (λ id. (builder.new, id)) result (spec.operated kind args.now builder.old) }
    ensures grows { OnOk result (Grows builder.old builder.new) }
    ensures node { IfOk result (λ id. IsNode builder.new id) }
{
    if args.len() != kind.arity() as usize {
        return Err(BuildStop::Fault(FaultKind::UnknownOp));
    }
    operation(builder, kind, args)
}
