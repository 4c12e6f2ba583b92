use hc_fault::{FaultKind, Name};
use hc_lang::{Num, NumOp};
use hc_num::{Env, eval};
use sqlite_items::Boxed;
use std::alloc::Global;
use std::test::Fail;

fn int(alloc: Global, value: i64) -> Result<Boxed<Num>, Fail> {
    Ok(Boxed::new(alloc, Num::Int(value))?)
}

fn two(alloc: Global, op: NumOp, a: i64, b: i64) -> Result<Num, Fail> {
    Ok(Num::Two {
        op,
        a: int(alloc, a)?,
        b: int(alloc, b)?,
    })
}

#[test]
fn operators_of_64_bits(rt: HostRuntime) -> Result<(), Fail> {
    let alloc = rt.alloc();
    let env = Env::new(alloc);
    let most = i64::MAX;
    let least = i64::MIN;
    let table = [
        (NumOp::Add, 1, 32, Ok(33)),
        (NumOp::Add, most, 1, Err(FaultKind::Number)),
        (NumOp::Sub, 0, most, Ok(-most)),
        (NumOp::Sub, -most, 1, Ok(least)),
        (NumOp::Sub, least, 1, Err(FaultKind::Number)),
        (NumOp::Mul, -3, 5, Ok(-15)),
        (NumOp::Mul, 4294967296, 2147483648, Err(FaultKind::Number)),
        (NumOp::Mul, 4294967296, -2147483648, Ok(least)),
        (NumOp::Div, -7, 2, Ok(-3)),
        (NumOp::Div, 7, -2, Ok(-3)),
        (NumOp::Div, 7, 0, Err(FaultKind::Number)),
        (NumOp::Div, least, -1, Err(FaultKind::Number)),
        (NumOp::Rem, -7, 2, Ok(-1)),
        (NumOp::Rem, 7, -2, Ok(1)),
        (NumOp::Rem, 7, 0, Err(FaultKind::Number)),
        (NumOp::Rem, least, -1, Ok(0)),
        (NumOp::Eq, 2, 2, Ok(1)),
        (NumOp::Ne, 2, 2, Ok(0)),
        (NumOp::Lt, -1, 0, Ok(1)),
        (NumOp::Le, 0, 0, Ok(1)),
        (NumOp::Gt, 0, -1, Ok(1)),
        (NumOp::Ge, -1, 0, Ok(0)),
    ];
    for (op, a, b, want) in table {
        assert_eq!(rt;
            eval(&two(alloc, op, a, b)?, &env),
            want,
            "{op:?} of {a} and {b}"
        );
    }
    Ok(())
}

#[test]
fn signs_and_bits(rt: HostRuntime) -> Result<(), Fail> {
    let alloc = rt.alloc();
    let env = Env::new(alloc);
    let bits = [
        (0, Ok(1)),
        (1, Ok(1)),
        (2, Ok(2)),
        (255, Ok(8)),
        (256, Ok(9)),
        (i64::MAX, Ok(63)),
        (-1, Err(FaultKind::Number)),
    ];
    for (n, want) in bits {
        assert_eq!(rt; eval(&Num::Bits(int(alloc, n)?), &env), want, "bits({n})");
    }
    let signs = [
        (7, Ok(-7)),
        (-i64::MAX, Ok(i64::MAX)),
        (i64::MIN, Err(FaultKind::Number)),
    ];
    for (n, want) in signs {
        assert_eq!(rt; eval(&Num::Neg(int(alloc, n)?), &env), want, "-({n})");
    }
    Ok(())
}

#[test]
fn the_innermost_binding_counts(rt: HostRuntime) -> Result<(), Fail> {
    let alloc = rt.alloc();
    let name = Name::new(alloc, b"n")?;
    let num = Num::Name(Name::new(alloc, b"n")?);
    let mut env = Env::new(alloc);
    assert_eq!(rt; eval(&num, &env), Err(FaultKind::UnknownName));
    env.bind(&name, 3)?;
    env.bind(&name, 4)?;
    env.bind(&Name::new(alloc, b"k")?, 5)?;
    assert_eq!(rt; eval(&num, &env), Ok(4));
    env.unbind();
    env.unbind();
    assert_eq!(rt; eval(&num, &env), Ok(3));
    Ok(())
}

#[test]
fn the_first_fault_from_the_left(rt: HostRuntime) -> Result<(), Fail> {
    let alloc = rt.alloc();
    let env = Env::new(alloc);
    let unknown = Num::Name(Name::new(alloc, b"n")?);
    let zero = two(alloc, NumOp::Div, 1, 0)?;
    let sum = Num::Two {
        op: NumOp::Add,
        a: Boxed::new(alloc, unknown)?,
        b: Boxed::new(alloc, zero)?,
    };
    assert_eq!(rt; eval(&sum, &env), Err(FaultKind::UnknownName));
    Ok(())
}
