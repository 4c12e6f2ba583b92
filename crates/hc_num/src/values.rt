ghost use Rattle.std.specs.Prelude.{◌≡◌};
ghost use Rattle.hc_num.specs.Value.{value};

use crate::arithmetic::{bits, negated, operate};
use crate::bindings::Env;
use hc_fault::FaultKind;
use hc_lang::Num;

/// The value of a number under bindings. F11 where a result is out of range, a divisor is 0 or `bits` has a negative
/// number; F13 where a name has no binding: the first that is met, operands from left to right before their operator.
pub fn eval(num: &Num, env: &Env) -> Result<i64, FaultKind>
    ensures { result ≡ value num.now env.now }
{
    match num {
        Num::Int(value) => Ok(*value),
        Num::Name(name) => env.get(name).ok_or(FaultKind::UnknownName),
        Num::Neg(a) => negated(eval(a.get(), env)?),
        Num::Two { op, a, b } => {
            let x = eval(a.get(), env)?;
            let y = eval(b.get(), env)?;
            operate(*op, x, y)
        }
        Num::Bits(a) => bits(eval(a.get(), env)?),
    }
}
