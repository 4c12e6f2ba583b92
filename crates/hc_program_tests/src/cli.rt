use hc_bits::OpKind;
use hc_cli::run_one;
use hc_ops::functions::{greatest, leading_zeros, least, popcount, reverse, saturating_sum};
use hc_ops::{CombOp, OpTable};
use hc_outside::{Failed, MemSink, MemSource, Source, read_all};
use std::alloc::Global;
use std::process::Abort;
use std::test::Fail;

const USAGE: &str = "usage: hardcaml COMMAND [--workers N] [--flat] [--seed N]\n";

pub(crate) const ADDER: &str =
    "circuit add8\ninput a 8\ninput b 8\noutput s 8\nassign s add(a,b)\ntop add8\n";

const ADDER_VERILOG: &str =
    "module add8 (\n  input clock,\n  input [7:0] a,\n  input [7:0] b,\n  output [7:0] s\n);\n  wire [7:0] n1;\n  assign s = n1;\n  assign n1 = a + b;\nendmodule\n";

pub(crate) const SHARED: &str =
    "circuit a\ninput x 1\noutput y 1\nassign y not(x)\ncircuit b\ninput x 1\noutput y 1\nassign y not(x)\ncircuit t\ninput x 1\noutput y 1\ninst u a : x=x\ninst v b : x=u.y\nassign y v.y\ntop t\n";

const TWO_WIDTHS: &str =
    "circuit add8\ninput a 8\ninput b 4\noutput s 8\nassign s add(a,b)\ntop add8\n";

pub(crate) const MUX: &str =
    "circuit t\ninput s 2\ninput a 4\noutput y 4\nassign y mux(s,a,const(4,2),const(4,9))\ntop t\nbench\nset s 3\nset a 5\ncycle\nend\n";

const MUX_NEGATIVE: &str =
    "circuit t\ninput s 2\ninput a 4\noutput y 4\nassign y mux(s,a,const(4,2),const(4,9))\ntop t\nbench\nset s -1\nset a 5\ncycle\nend\n";

pub(crate) const NO_PORT: &str =
    "circuit t\ninput s 2\ninput a 4\noutput y 4\nassign y mux(s,a,const(4,2),const(4,9))\ntop t\nbench\nset z 1\nset a 5\ncycle\nend\n";

const NO_VALUE: &str =
    "circuit t\ninput s 2\ninput a 4\noutput y 4\nassign y mux(s,a,const(4,2),const(4,9))\ntop t\nbench\nset s 4\nset a 5\ncycle\nend\n";

const MUX_BOTH: &str =
    "module t (\n  input clock,\n  input [1:0] s,\n  input [3:0] a,\n  output [3:0] y\n);\n  wire [3:0] n1;\n  wire [3:0] n2;\n  wire [3:0] n3;\n  assign y = n1;\n  assign n1 = s == 2'h0 ? a : s == 2'h1 ? n2 : n3;\n  assign n2 = 4'h2;\n  assign n3 = 4'h9;\nendmodule\n\n0 y=9 | y=9\n";

const SHARED_FLAT: &str =
    "module t (\n  input clock,\n  input [0:0] x,\n  output [0:0] y\n);\n  wire [0:0] n1;\n  wire [0:0] n2;\n  wire [0:0] n3;\n  wire [0:0] n4;\n  assign y = n1;\n  assign n1 = n2;\n  assign n2 = ~n3;\n  assign n3 = n4;\n  assign n4 = ~x;\nendmodule\n";

const UNREACHED: &str =
    "circuit f n\noutput y n\nassign y const(n,1)\ncircuit t\noutput c 8\ninst q f 4 :\ninst r f 8 :\nassign c r.y\ntop t\n";

pub(crate) const TREE: &str =
    "circuit tree n\ninput a 16\noutput s 16\nif n==1\n  assign s a\nelse\n  inst p tree (n/2) : a=a\n  inst q tree (n-n/2) : a=a\n  assign s add(p.s,q.s)\nend\ntop tree 64\nbench\nset a 3\ncycle\nend\n";

pub(crate) const FULL: &str =
    "circuit leaf\noutput y 1\nassign y const(1,0)\ncircuit mid k\noutput y 1\nfor i 0 k\ninst u[i] leaf :\nend\nassign y u[0].y\ncircuit t\noutput y 1\nfor i 0 255\ninst u[i] mid 256 :\nend\nassign y u[0].y\ntop t\n";

const OVERFULL: &str =
    "circuit leaf\noutput y 1\nassign y const(1,0)\ncircuit mid k\noutput y 1\nfor i 0 k\ninst u[i] leaf :\nend\nassign y u[0].y\ncircuit t\noutput y 1\nfor i 0 255\ninst u[i] mid 256 :\nend\ninst x leaf :\nassign y u[0].y\ntop t\n";

pub(crate) const FIRST_IN_ORDER: &str =
    "circuit bad1\noutput y 8\nassign y const(4,1)\ncircuit mid\noutput y 8\ninst g bad1 :\nassign y g.y\ncircuit bad2\noutput y 8\nassign y const(8,300)\ncircuit t\noutput y 8\ninst u mid :\ninst v bad2 :\nassign y add(u.y,v.y)\ntop t\n";

const REGISTER: &str =
    "circuit t\ninput d 8\ninput en 1\ninput clr 1\noutput q 8\nreg r d enable en clear clr 7\nassign q r\ntop t\nbench\nset d 3\nset en 1\ncycle\nset clr 1\ncycle\nend\n";

const MEMORY: &str =
    "circuit t\ninput a 3\noutput q 4\nmemory m 4 4\nwrite m const(1,1) a const(4,9)\nwrite m const(1,1) a const(4,5)\nassign q read(m,a)\ntop t\nbench\nset a 2\ncycle\nset a 6\ncycle\nend\n";

const CROSSING: &str =
    "circuit c\ninput i 1\ninput j 1\noutput o 1\noutput p 1\nassign o not(i)\nassign p not(j)\ncircuit t\ninput x 1\noutput y 1\nwire w 1\ninst u c : i=x j=w\nassign w u.o\nassign y u.p\ntop t\nbench\nset x 1\ncycle\nend\n";

const LOOP: &str =
    "circuit c\ninput i 1\ninput j 1\noutput o 1\noutput p 1\nassign o xor(i,j)\nassign p not(j)\ncircuit t\ninput x 1\noutput y 1\nwire w 1\ninst u c : i=x j=w\nassign w u.o\nassign y u.p\ntop t\nbench\nset x 1\ncycle\nend\n";

const COUNTER: &str =
    "circuit t\noutput q 8\nwire n 8\nreg r n init 5\nassign n add(r,const(8,1))\nassign q r\ntop t\nbench\ncycle 3\nreset\ncycle\nend\n";

const MILLION: &str =
    "circuit t\noutput q 8\nwire n 8\nreg r n init 5\nassign n add(r,const(8,1))\nassign q r\ntop t\nbench\ncycle 1000000\nend\n";

const TOO_MANY: &str =
    "circuit t\noutput q 8\nwire n 8\nreg r n init 5\nassign n add(r,const(8,1))\nassign q r\ntop t\nbench\ncycle 1000001\nend\n";

const WIDTHS: &str =
    "circuit t\ninput a 14\ninput b 1\ninput c 5\ninput d 65\ninput e 128\noutput p 14\noutput q 1\noutput r 5\noutput s 65\noutput u 128\nassign p a\nassign q b\nassign r c\nassign s d\nassign u e\ntop t\nbench\nset a 192\nset b 1\nset c 17\nset d 65'h10000000000000001\nset e -1\ncycle\nend\n";

const WIDTHS_ROW: &str =
    "0 p=00c0 q=1 r=11 s=10000000000000001 u=ffffffffffffffffffffffffffffffff | p=00c0 q=1 r=11 s=10000000000000001 u=ffffffffffffffffffffffffffffffff\n";

const TOO_DEEP: &str =
    "circuit d n\noutput y 1\nif n>1\ninst u d (n-1) :\nassign y u.y\nelse\nassign y const(1,1)\nend\ntop d 65\n";

const TOO_DEEP_LINE: &str =
    "F29 TooDeep line 4 path /u/u/u/u/u/u/u/u/u/u/u/u/u/u/u/u/u/u/u/u/u/u/u/u/u/u/u/u/u/u/u/u/u/u/u/u/u/u/u/u/u/u/u/u/u/u/u/u/u/u/u/u/u/u/u/u/u/u/u/u/u/u/u\n";

const DEEP: &str =
    "circuit d n\noutput y 1\nif n>1\ninst u d (n-1) :\nassign y u.y\nelse\nassign y const(1,1)\nend\ntop d 64\n";

/// A chain of 63 calls that fits where it is met first, and not one level deeper.
pub(crate) const DEEPER: &str =
    "circuit d n\noutput y 1\nif n>1\ninst u d (n-1) :\nassign y u.y\nelse\nassign y const(1,1)\nend\ncircuit w\noutput y 1\ninst v d 63 :\nassign y v.y\ncircuit t\noutput y 1\ninst a d 63 :\ninst b w :\nassign y and(a.y,b.y)\ntop t\n";

pub(crate) const DEEPER_LINE: &str =
    "F29 TooDeep line 4 path /b/v/u/u/u/u/u/u/u/u/u/u/u/u/u/u/u/u/u/u/u/u/u/u/u/u/u/u/u/u/u/u/u/u/u/u/u/u/u/u/u/u/u/u/u/u/u/u/u/u/u/u/u/u/u/u/u/u/u/u/u/u/u\n";

const WORKLOAD_0: &str =
    "instances 5461\nentries 29\nmodules 29\nweight 221170\nwords 0\ncycles 64\nverilog 16386 6548113323378600556\nrows 1718 12090323094012470521\n";

pub(crate) const WORKLOAD_1: &str =
    "instances 5461\nentries 33\nmodules 33\nweight 221170\nwords 0\ncycles 64\nverilog 18462 4795901074464886120\nrows 1718 14578946725786945232\n";

const WORKLOAD_1_FLAT: &str =
    "instances 5461\nentries 33\nmodules 33\nweight 221170\nwords 0\ncycles 64\nverilog 2538966 9908302887742958331\nrows 1718 14578946725786945232\n";

/// The status and the bytes of a run, how many turns and entries were handed out.
#[derive(Drop)]
pub(crate) struct Ran {
    pub(crate) status: u8,
    pub(crate) written: Vec<u8>,
    pub(crate) turns: usize,
    pub(crate) entries: usize,
}

/// The words of a line, which stand between spaces.
pub(crate) fn words_of(alloc: Global, line: &str) -> Result<Vec<String>, Fail> {
    let mut words = Vec::new(alloc);
    for word in line.split(' ') {
        words.push(String::from_str(alloc, word)?)?;
    }
    Ok(words)
}

/// The operations of the catalogue.
pub(crate) fn operations(alloc: Global) -> Result<OpTable, Fail> {
    Ok(OpTable::new(vec![in alloc;
        CombOp::new(OpKind::Popcount, Box::new(alloc, popcount)?),
        CombOp::new(OpKind::Clz, Box::new(alloc, leading_zeros)?),
        CombOp::new(OpKind::Rev, Box::new(alloc, reverse)?),
        CombOp::new(OpKind::Min, Box::new(alloc, least)?),
        CombOp::new(OpKind::Max, Box::new(alloc, greatest)?),
        CombOp::new(OpKind::SatAdd, Box::new(alloc, saturating_sum)?),
    ]?))
}

/// A sink with this room.
pub(crate) fn sink_of<R: Abort>(rt: &R, alloc: Global, room: usize) -> MemSink {
    match MemSink::new(alloc, room, Vec::new(alloc), 4096) {
        Ok(sink) => sink,
        Err(_) => panic!(rt; "no sink"),
    }
}

/// A run by one worker, whose source fails at the call `failing`, and whose sink has this room.
pub(crate) fn run<R: Abort>(
    rt: &R,
    alloc: Global,
    line: &str,
    text: &[u8],
    failing: Option<u64>,
    room: usize,
) -> Result<Ran, Fail> {
    let words = words_of(alloc, line)?;
    let mut fails = Vec::new(alloc);
    if let Some(call) = failing {
        fails.push(call)?;
    }
    let text = Vec::from_slice(alloc, text)?;
    let mut source = MemSource::new(text, fails, 8);
    let mut sink = sink_of(rt, alloc, room);
    let ops = operations(alloc)?;
    let outcome = run_one(alloc, &words, &ops, &mut source, &mut sink);
    Ok(Ran {
        status: outcome.status,
        written: Vec::from_slice(alloc, sink.bytes())?,
        turns: outcome.turns.len(),
        entries: outcome.entries.len(),
    })
}

#[test]
fn texts_end_as_told(rt: HostRuntime) -> Result<(), Fail> {
    let rows = [
        ("verilog", ADDER, 0, ADDER_VERILOG),
        (
            "verilog",
            TWO_WIDTHS,
            1,
            "F15 WidthMismatch line 5 path /\n",
        ),
        ("vhdl", ADDER, 2, USAGE),
    ];
    for (word, text, status, written) in rows {
        let ran = run(&rt, rt.alloc(), word, text.as_bytes(), None, 1000)?;
        assert!(rt;
            ran.status == status && ran.written.as_slice() == written.as_bytes(),
            "{text}"
        );
    }
    Ok(())
}

#[test]
fn benches_end_as_told(rt: HostRuntime) -> Result<(), Fail> {
    let rows = [
        ("sim", "", 1, "F8 NoTop line 0 path -\n"),
        ("both", "", 1, "F8 NoTop line 0 path -\n"),
        ("stat", "", 1, "F8 NoTop line 0 path -\n"),
        ("sim", ADDER, 0, ""),
        ("sim", MUX, 0, "0 y=9 | y=9\n"),
        ("both", MUX, 0, MUX_BOTH),
        ("sim", MUX_NEGATIVE, 0, "0 y=9 | y=9\n"),
        ("sim", NO_PORT, 1, "F34 BenchPort line 8 path -\n"),
        ("verilog", NO_PORT, 1, "F34 BenchPort line 8 path -\n"),
        ("stat --flat", NO_VALUE, 1, "F35 BenchValue line 8 path -\n"),
        ("verilog --flat", SHARED, 0, SHARED_FLAT),
        (
            "stat",
            UNREACHED,
            0,
            "instances 3\nentries 3\nmodules 2\nweight 17\nwords 0\ncycles 0\n",
        ),
        ("sim", CROSSING, 0, "0 y=1 | y=1\n"),
        ("sim", LOOP, 1, "F33 CombLoop line 0 path /\n"),
        ("sim", REGISTER, 0, "0 q=00 | q=03\n1 q=03 | q=07\n"),
        ("sim --flat", REGISTER, 0, "0 q=00 | q=03\n1 q=03 | q=07\n"),
        ("sim", MEMORY, 0, "0 q=0 | q=5\n1 q=0 | q=0\n"),
        ("sim", TREE, 0, "0 s=00c0 | s=00c0\n"),
        ("sim", WIDTHS, 0, WIDTHS_ROW),
        (
            "stat",
            TREE,
            0,
            "instances 127\nentries 7\nmodules 7\nweight 1454\nwords 0\ncycles 1\n",
        ),
        (
            "sim",
            COUNTER,
            0,
            "0 q=05 | q=06\n1 q=06 | q=07\n2 q=07 | q=08\n3 q=05 | q=06\n",
        ),
        (
            "stat",
            MILLION,
            0,
            "instances 1\nentries 1\nmodules 1\nweight 14\nwords 0\ncycles 1000000\n",
        ),
        ("sim", TOO_MANY, 1, "F36 TooManyCycles line 9 path -\n"),
        ("both", TOO_DEEP, 1, TOO_DEEP_LINE),
        (
            "stat",
            DEEP,
            0,
            "instances 64\nentries 64\nmodules 64\nweight 446\nwords 0\ncycles 0\n",
        ),
        ("verilog", DEEPER, 1, DEEPER_LINE),
        ("verilog --workers 64", DEEPER, 1, DEEPER_LINE),
        (
            "verilog --workers 64",
            FIRST_IN_ORDER,
            1,
            "F15 WidthMismatch line 3 path /u/g\n",
        ),
        (
            "stat",
            FULL,
            0,
            "instances 65536\nentries 3\nmodules 3\nweight 524284\nwords 0\ncycles 0\n",
        ),
        ("stat", OVERFULL, 1, "F30 TooManyInstances line 15 path /\n"),
        // The text that is given is not read.
        ("gen", TWO_WIDTHS, 0, WORKLOAD_0),
        ("gen --seed 1", "", 0, WORKLOAD_1),
        ("--flat --seed=1 gen", "", 0, WORKLOAD_1_FLAT),
        ("gen --seed -1", "", 2, USAGE),
    ];
    for (words, text, status, written) in rows {
        let ran = run(&rt, rt.alloc(), words, text.as_bytes(), None, 2000)?;
        assert!(rt;
            ran.status == status && ran.written.as_slice() == written.as_bytes(),
            "{words}: {text}"
        );
    }
    Ok(())
}

#[test]
fn ends_outside(rt: HostRuntime) -> Result<(), Fail> {
    let adder = ADDER.as_bytes();
    let read = run(&rt, rt.alloc(), "verilog", adder, Some(1), 1000)?;
    assert!(rt; read.status == 3 && read.written.is_empty() && read.turns == 0);
    let write = run(&rt, rt.alloc(), "verilog", adder, None, 10)?;
    assert!(rt; write.status == 4 && write.written.as_slice() == b"module add".as_slice());
    assert!(rt; write.turns == 1 && write.entries == 1);
    let listing = run(&rt, rt.alloc(), "sim", MILLION.as_bytes(), None, 10_000)?;
    assert!(rt; listing.status == 4 && listing.written.len() == 10_000);
    assert!(rt;
        listing
            .written
            .as_slice()
            .starts_with(b"0 q=05 | q=06\n1 q=06 | q=07\n")
    );
    let long = vec![in rt.alloc(); b' '; 4_194_305]?;
    let long = run(&rt, rt.alloc(), "verilog", &long, None, 1000)?;
    assert!(rt;
        long.status == 1 && long.written.as_slice() == b"F1 TooLong line 0 path -\n".as_slice()
    );
    Ok(())
}

#[test]
fn refused_words_and_gen_leave_the_source_alone(rt: HostRuntime) -> Result<(), Fail> {
    let alloc = rt.alloc();
    for (line, status) in [("vhdl", 2), ("gen sim", 2), ("gen --seed 1", 0)] {
        let words = words_of(alloc, line)?;
        let text = Vec::from_slice(alloc, ADDER.as_bytes())?;
        let failing = Vec::from_slice(alloc, &[0])?;
        let mut source = MemSource::new(text, failing, 8);
        let mut sink = sink_of(&rt, alloc, 1000);
        let ops = operations(alloc)?;
        let outcome = run_one(alloc, &words, &ops, &mut source, &mut sink);
        assert_eq!(rt; outcome.status, status);
        // The first call is still to come, and it fails.
        let mut buf = [b'-'; 8];
        assert_eq!(rt; source.read(&mut buf), Err(Failed));
        let left = read_all(alloc, &mut source, 1000)?;
        assert_eq!(rt; left.as_slice(), ADDER.as_bytes());
    }
    Ok(())
}

#[test]
fn histories_are_handed_out(rt: HostRuntime) -> Result<(), Fail> {
    // A turn for each distinct call, and an entry for each tree.
    let rows = [
        ("verilog", SHARED, 3, 2),
        ("stat", TREE, 7, 7),
        ("stat", FULL, 3, 3),
    ];
    for (words, text, turns, entries) in rows {
        let ran = run(&rt, rt.alloc(), words, text.as_bytes(), None, 1000)?;
        assert!(rt;
            ran.status == 0 && ran.turns == turns && ran.entries == entries,
            "{words}: {text}"
        );
    }
    let refused = run(&rt, rt.alloc(), "sim", NO_PORT.as_bytes(), None, 1000)?;
    assert!(rt; refused.turns == 1 && refused.entries == 1);
    let cut = run(&rt, rt.alloc(), "sim", COUNTER.as_bytes(), None, 20)?;
    assert!(rt; cut.status == 4 && cut.written.as_slice() == b"0 q=05 | q=06\n1 q=06".as_slice());
    let faulty = run(
        &rt,
        rt.alloc(),
        "verilog",
        TWO_WIDTHS.as_bytes(),
        None,
        1000,
    )?;
    assert!(rt; faulty.turns == 0 && faulty.entries == 0);
    Ok(())
}
