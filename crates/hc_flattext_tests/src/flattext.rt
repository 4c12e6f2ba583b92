ghost use Rattle.std.specs.Prelude.{◌≡◌};
ghost use Rattle.hc_signal.specs.Tree.{empty};

use hc_check::check;
use hc_fault::Name;
use hc_flattext::flat_text;
use hc_signal::{Builder, Circuit};
use std::alloc::Global;
use std::process::Abort;
use std::test::Fail;

const TEXT: &str =
    "module t (\n  input clock,\n  input [7:0] a,\n  output [7:0] q\n);\n  assign q = a;\nendmodule\n";

/// An input drives the output.
fn build_wire(alloc: Global, builder: &mut Builder) -> Result<(), Fail>
    requires { builder.old ≡ empty }
{
    let a = builder.input(&Name::new(alloc, b"a")?, 8)?;
    let q = builder.output(&Name::new(alloc, b"q")?, 8)?;
    builder.drive(q, a)?;
    Ok(())
}

/// Whether the flat module `t` of a circuit without instances is this text.
fn is_written(
    rt: &impl Abort,
    alloc: Global,
    circuit: &Circuit,
    expected: &str,
) -> Result<bool, Fail> {
    check(alloc, circuit)?;
    assert_eq!(rt; circuit.instances().len(), 0);
    let name = Name::new(alloc, b"t")?;
    let text = flat_text(alloc, circuit, &name)?;
    Ok(text.as_slice() == expected.as_bytes())
}

#[test]
fn a_circuit_is_one_module(rt: HostRuntime) -> Result<(), Fail> {
    let mut builder = Builder::new(rt.alloc());
    build_wire(rt.alloc(), &mut builder)?;
    let circuit = builder.finish();
    assert!(rt; is_written(&rt, rt.alloc(), &circuit, TEXT)?);
    Ok(())
}
