//! Operators of 64 bits with a sign.
ghost use Rattle.std.specs.Prelude.{◌≡◌, ◌+ℤ◌, ◌-ℤ◌, ◌*ℤ◌, neg_ℤ, int_div, int_rem};
ghost use Rattle.std.specs.Ordering.{int_eq};
ghost use Rattle.hc_num.specs.Value as spec;

use hc_bits::bits_of;
use hc_fault::FaultKind;
use hc_lang::NumOp;

/// The value of an operator. F11 where the result is out of range or the divisor is 0.
pub(crate) fn operate(op: NumOp, x: i64, y: i64) -> Result<i64, FaultKind>
    ensures { result ≡ spec.operate op x y }
{
    match op {
        NumOp::Add => sum(x, y),
        NumOp::Sub => difference(x, y),
        NumOp::Mul => product(x, y),
        NumOp::Div => quotient(x, y),
        NumOp::Rem => remainder(x, y),
        NumOp::Eq => Ok(i64::from(x == y)),
        NumOp::Ne => Ok(i64::from(x != y)),
        NumOp::Lt => Ok(i64::from(x < y)),
        NumOp::Le => Ok(i64::from(x <= y)),
        NumOp::Gt => Ok(i64::from(x > y)),
        NumOp::Ge => Ok(i64::from(x >= y)),
    }
}

fn sum(x: i64, y: i64) -> Result<i64, FaultKind>
    ensures { result ≡ spec.within (x +ℤ y) }
{
    x.checked_add(y).ok_or(FaultKind::Number)
}

fn difference(x: i64, y: i64) -> Result<i64, FaultKind>
    ensures { result ≡ spec.within (x -ℤ y) }
{
    x.checked_sub(y).ok_or(FaultKind::Number)
}

fn product(x: i64, y: i64) -> Result<i64, FaultKind>
    ensures { result ≡ spec.within (x *ℤ y) }
{
    x.checked_mul(y).ok_or(FaultKind::Number)
}

/// Rounded toward zero.
fn quotient(x: i64, y: i64) -> Result<i64, FaultKind>
    ensures { result ≡ spec.divided_by y (int_div x y) }
{
    x.checked_div(y).ok_or(FaultKind::Number)
}

/// With the sign of the dividend. The most negative number has one by -1: it is 0.
fn remainder(x: i64, y: i64) -> Result<i64, FaultKind>
    ensures { result ≡ spec.divided_by y (int_rem x y) }
{
    if y == 0 {
        return Err(FaultKind::Number);
    }
    Ok(x.wrapping_rem(y))
}

/// F11 where the result is out of range.
pub(crate) fn negated(x: i64) -> Result<i64, FaultKind>
    ensures { result ≡ spec.within (neg_ℤ x) }
{
    x.checked_neg().ok_or(FaultKind::Number)
}

/// The least number of bits, at least one, that a number fits. F11 where it is negative.
pub(crate) fn bits(x: i64) -> Result<i64, FaultKind>
    ensures { result ≡ spec.bits x }
{
    if x < 0 {
        return Err(FaultKind::Number);
    }
    Ok(i64::from(bits_of(x as u64)))
}
