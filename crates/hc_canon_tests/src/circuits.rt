//! Two circuits whose forms are equal.
ghost use Rattle.std.specs.Prelude.{◌≡◌};
ghost use Rattle.hc_signal.specs.Tree.{empty};

use hc_fault::Name;
use hc_signal::{Builder, Circuit, Op2};
use std::alloc::Global;
use std::test::Fail;

/// An `and` and an `or` of the inputs drive the output by a `xor`.
fn build_and_first(alloc: Global, builder: &mut Builder) -> Result<(), Fail>
    requires { builder.old ≡ empty }
{
    let x = builder.input(&Name::new(alloc, b"x")?, 1)?;
    let z = builder.input(&Name::new(alloc, b"z")?, 1)?;
    let p = builder.two(Op2::And, x, z)?;
    let q = builder.two(Op2::Or, x, z)?;
    let sum = builder.two(Op2::Xor, p, q)?;
    let y = builder.output(&Name::new(alloc, b"y")?, 1)?;
    builder.drive(y, sum)?;
    Ok(())
}

/// The same in another order, beside two nodes that no output reaches. The `and` may have a label.
fn build_or_first(alloc: Global, builder: &mut Builder, label: Option<&Name>) -> Result<(), Fail>
    requires { builder.old ≡ empty }
{
    let x = builder.input(&Name::new(alloc, b"x")?, 1)?;
    builder.two(Op2::Xor, x, x)?;
    let z = builder.input(&Name::new(alloc, b"z")?, 1)?;
    builder.not(x)?;
    let q = builder.two(Op2::Or, x, z)?;
    let p = builder.two(Op2::And, x, z)?;
    let sum = builder.two(Op2::Xor, p, q)?;
    let y = builder.output(&Name::new(alloc, b"y")?, 1)?;
    builder.drive(y, sum)?;
    if let Some(label) = label {
        builder.label_node(p, label)?;
    }
    Ok(())
}

/// The circuit of `build_and_first`.
pub(crate) fn and_first(alloc: Global) -> Result<Circuit, Fail> {
    let mut builder = Builder::new(alloc);
    build_and_first(alloc, &mut builder)?;
    Ok(builder.finish())
}

/// The circuit of `build_or_first`.
pub(crate) fn or_first(alloc: Global, label: Option<&Name>) -> Result<Circuit, Fail> {
    let mut builder = Builder::new(alloc);
    build_or_first(alloc, &mut builder, label)?;
    Ok(builder.finish())
}
