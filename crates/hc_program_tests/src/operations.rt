use crate::cli::run;
use std::test::Fail;

const ONES: &str =
    "circuit t\ninput x 8\noutput y 4\nassign y op.popcount(x)\ntop t\nbench\nset x 255\ncycle\nend\n";

const ONES_BOTH: &str =
    "module t (\n  input clock,\n  input [7:0] x,\n  output [3:0] y\n);\n  wire [3:0] n1;\n  assign y = n1;\n  op_popcount #(.W(8)) o1 (.a(x), .y(n1));\nendmodule\n\n0 y=8 | y=8\n";

const UNKNOWN: &str = "circuit t\ninput x 8\noutput y 4\nassign y op.nope(x)\ntop t\n";

/// An operation of a name that the catalogue does not have, in a part that no elaboration runs.
const UNKNOWN_ASIDE: &str =
    "circuit t\ninput x 8\noutput y 4\nif 0\nassign y op.nope(x)\nelse\nassign y op.clz(x)\nend\ntop t\nbench\nset x 1\ncycle\nend\n";

/// Operations of operations, of a register and in an instance.
const WITHIN: &str =
    "circuit c\ninput i 8\noutput o 8\nassign o op.rev(op.satadd(i,const(8,200)))\ncircuit t\ninput a 8\noutput q 8\noutput p 4\nwire n 8\nreg r n init 6\ninst u c : i=op.max(a,r)\nassign n u.o\nassign q op.min(u.o,r)\nassign p op.popcount(r)\ntop t\nbench\nset a 3\ncycle 2\nend\n";

/// Each operation at the ends of widths.
const ENDS: &str =
    "circuit ends\ninput a 128\ninput b 128\ninput c 128\ninput d 1\ninput e 4\ninput f 4\ninput g 4\ninput h 8\ninput i 8\noutput z 8\noutput y 128\noutput x 8\noutput w 128\noutput v 4\noutput u 4\noutput t 4\noutput s 8\noutput r 1\noutput q 1\noutput p 1\nassign z op.clz(a)\nassign y op.satadd(c,b)\nassign x op.popcount(c)\nassign w op.rev(b)\nassign v op.rev(e)\nassign u op.min(f,g)\nassign t op.max(f,g)\nassign s op.satadd(h,i)\nassign r op.clz(d)\nassign q op.popcount(d)\nassign p op.rev(d)\ntop ends\nbench\nset b 1\nset c -1\nset d 1\nset e 1\nset f 3\nset g 12\nset h 255\nset i 1\ncycle\nend\n";

const ENDS_ROW: &str =
    "0 z=80 y=ffffffffffffffffffffffffffffffff x=80 w=80000000000000000000000000000000 v=8 u=3 t=c s=ff r=0 q=1 p=1 | z=80 y=ffffffffffffffffffffffffffffffff x=80 w=80000000000000000000000000000000 v=8 u=3 t=c s=ff r=0 q=1 p=1\n";

#[test]
fn operations_end_as_told(rt: HostRuntime) -> Result<(), Fail> {
    let rows = [
        ("sim", ONES, 0, "0 y=8 | y=8\n"),
        ("sim --flat", ONES, 0, "0 y=8 | y=8\n"),
        ("both", ONES, 0, ONES_BOTH),
        ("verilog", UNKNOWN, 1, "F37 UnknownOp line 4 path /\n"),
        ("sim", UNKNOWN_ASIDE, 0, "0 y=7 | y=7\n"),
        (
            "sim",
            WITHIN,
            0,
            "0 q=06 p=2 | q=73 p=5\n1 q=73 p=5 | q=ff p=8\n",
        ),
        ("sim", ENDS, 0, ENDS_ROW),
        ("sim --flat", ENDS, 0, ENDS_ROW),
    ];
    for (words, text, status, written) in rows {
        let ran = run(&rt, rt.alloc(), words, text.as_bytes(), None, 2000)?;
        assert!(rt;
            ran.status == status && ran.written.as_slice() == written.as_bytes(),
            "{words}: {text}"
        );
    }
    Ok(())
}
