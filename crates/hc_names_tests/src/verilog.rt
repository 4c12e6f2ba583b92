ghost use Rattle.std.specs.Prelude.{◌≡◌, [], IfOk};
ghost use Rattle.hc_signal.specs.Tree.{empty};

use hc_bits::Bits;
use hc_canon::{Form, canon};
use hc_check::check;
use hc_fault::Name;
use hc_names::Names;
use hc_signal::{Builder, Circuit};
use hc_verilog::module_text;
use std::alloc::Global;
use std::process::Abort;
use std::test::Fail;

/// The form of a circuit without instances.
fn form_of(rt: &impl Abort, alloc: Global, circuit: &Circuit) -> Result<Form, Fail>
    ensures { IfOk result (λ form. form.kids ≡ []) }
{
    check(alloc, circuit)?;
    assert_eq!(rt; circuit.instances().len(), 0);
    let form = canon(alloc, circuit, &[])?;
    assert!(rt; form.kids().is_empty());
    Ok(form)
}

/// The module `t` of a form without instances.
fn text_of(alloc: Global, form: &Form) -> Result<Vec<u8>, Fail>
    requires { form.now.kids ≡ [] }
{
    let name = Name::new(alloc, b"t")?;
    Ok(module_text(alloc, form, &name, &Names::new(alloc))?)
}

/// Whether the module of a circuit without instances is this text.
fn is_written(
    rt: &impl Abort,
    alloc: Global,
    circuit: &Circuit,
    expected: &str,
) -> Result<bool, Fail> {
    let form = form_of(rt, alloc, circuit)?;
    let text = text_of(alloc, &form)?;
    Ok(text.as_slice() == expected.as_bytes())
}

/// A value of some width.
fn bits(rt: &impl Abort, width: u32, value: u128) -> Bits
    ensures { result.width ≡ width }
{
    Bits::new(width, value).expect(rt, "the value fits")
}

const REGISTER: &str =
    "module t (\n  input clock,\n  input [7:0] d,\n  input [0:0] en,\n  input [0:0] clr,\n  output [7:0] q\n);\n  reg [7:0] n1 = 8'h00;\n  assign q = n1;\n  always @(posedge clock) begin\n    if (clr) n1 <= 8'h07;\n    else if (en) n1 <= d;\n  end\nendmodule\n";

/// The inputs `d`, `en` and `clr`, and a register that drives the output `q`.
fn build_register(rt: &impl Abort, alloc: Global, builder: &mut Builder) -> Result<(), Fail>
    requires { builder.old ≡ empty }
{
    let d = builder.input(&Name::new(alloc, b"d")?, 8)?;
    let en = builder.input(&Name::new(alloc, b"en")?, 1)?;
    let clr = builder.input(&Name::new(alloc, b"clr")?, 1)?;
    let q = builder.output(&Name::new(alloc, b"q")?, 8)?;
    let seven = bits(rt, 8, 7);
    let zero = bits(rt, 8, 0);
    let r = builder.reg(d, Some(en), Some((clr, seven)), zero)?;
    builder.drive(q, r)?;
    Ok(())
}

#[test]
fn a_clear_comes_before_an_enable(rt: HostRuntime) -> Result<(), Fail> {
    let mut builder = Builder::new(rt.alloc());
    build_register(&rt, rt.alloc(), &mut builder)?;
    let circuit = builder.finish();
    assert!(rt; is_written(&rt, rt.alloc(), &circuit, REGISTER)?);
    Ok(())
}

const MEMORY: &str =
    "module t (\n  input clock,\n  input [2:0] a,\n  output [3:0] q\n);\n  wire [3:0] n1;\n  wire [0:0] n2;\n  wire [3:0] n3;\n  reg [3:0] m0 [0:3];\n  assign q = n1;\n  assign n1 = a < 3'h4 ? m0[a] : 4'h0;\n  assign n2 = 1'h1;\n  assign n3 = 4'h9;\n  always @(posedge clock) begin\n    if (n2) m0[a] <= n3;\n  end\nendmodule\n";

/// A memory that is written and read at the input `a`. The word drives the output `q`.
fn build_memory(rt: &impl Abort, alloc: Global, builder: &mut Builder) -> Result<(), Fail>
    requires { builder.old ≡ empty }
{
    let a = builder.input(&Name::new(alloc, b"a")?, 3)?;
    let q = builder.output(&Name::new(alloc, b"q")?, 4)?;
    let m = builder.memory(4, 4)?;
    let one = builder.constant(bits(rt, 1, 1))?;
    let nine = builder.constant(bits(rt, 4, 9))?;
    builder.write(m, one, a, nine)?;
    let read = builder.read(m, a)?;
    builder.drive(q, read)?;
    Ok(())
}

#[test]
fn a_read_is_bounded(rt: HostRuntime) -> Result<(), Fail> {
    let mut builder = Builder::new(rt.alloc());
    build_memory(&rt, rt.alloc(), &mut builder)?;
    let circuit = builder.finish();
    assert!(rt; is_written(&rt, rt.alloc(), &circuit, MEMORY)?);
    Ok(())
}
