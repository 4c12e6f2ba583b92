use crate::cli::{ADDER, Ran, operations, run, words_of};
use hc_cli::run_one;
use hc_outside::{MemSink, MemSource};
use std::alloc::Global;
use std::process::Abort;
use std::test::Fail;

/// 40,000 turns of a loop with one line.
const TURNS: &str =
    "circuit t\ninput a 1\noutput y 1\nfor i 0 40000\nlet x[i] a\nend\nassign y a\ntop t\n";

/// A chain of 30,000 nodes.
const CHAIN: &str =
    "circuit t\ninput a 1\noutput y 1\nlet x[0] a\nfor i 0 30000\nlet x[i+1] not(x[i])\nend\nassign y x[30000]\ntop t\nbench\nset a 1\ncycle\nend\n";

/// A circuit that calls itself once.
const ENDLESS: &str = "circuit d\noutput y 1\ninst u d :\nassign y u.y\ntop d\n";

/// A circuit that calls itself twice.
const ENDLESS_TWICE: &str = "circuit d\noutput y 1\ninst u d :\ninst v d :\nassign y u.y\ntop d\n";

/// The line of the fault, for so many of the first bytes of the adder.
const CUT: [(usize, &str); 19] = [
    (0, "F8 NoTop line 0 path -\n"),
    (1, "F3 Syntax line 1 path -\n"),
    (9, "F8 NoTop line 0 path -\n"),
    (11, "F3 Syntax line 1 path -\n"),
    (12, "F8 NoTop line 0 path -\n"),
    (14, "F3 Syntax line 2 path -\n"),
    (22, "F8 NoTop line 0 path -\n"),
    (24, "F3 Syntax line 3 path -\n"),
    (32, "F8 NoTop line 0 path -\n"),
    (34, "F3 Syntax line 4 path -\n"),
    (43, "F8 NoTop line 0 path -\n"),
    (45, "F3 Syntax line 5 path -\n"),
    (54, "F8 NoTop line 0 path -\n"),
    (56, "F3 Syntax line 5 path -\n"),
    (61, "F8 NoTop line 0 path -\n"),
    (63, "F3 Syntax line 6 path -\n"),
    (67, "F9 UnknownCircuit line 6 path /\n"),
    (69, "F3 Syntax line 6 path -\n"),
    (70, ""),
];

/// A run that reads and writes a byte a call, whose source fails at the call `failing`, and whose sink has this room.
fn run_by_bytes<R: Abort>(
    rt: &R,
    alloc: Global,
    text: &[u8],
    failing: Option<u64>,
    room: usize,
) -> Result<Ran, Fail> {
    let words = words_of(alloc, "verilog")?;
    let mut fails = Vec::new(alloc);
    if let Some(call) = failing {
        fails.push(call)?;
    }
    let text = Vec::from_slice(alloc, text)?;
    let mut source = MemSource::new(text, fails, 1);
    let Ok(mut sink) = MemSink::new(alloc, room, Vec::new(alloc), 1) else {
        panic!(rt; "no sink")
    };
    let ops = operations(alloc)?;
    let outcome = run_one(alloc, &words, &ops, &mut source, &mut sink);
    Ok(Ran {
        status: outcome.status,
        written: Vec::from_slice(alloc, sink.bytes())?,
        turns: outcome.turns.len(),
        entries: outcome.entries.len(),
    })
}

/// An output that is so many nots of an input.
fn nots(alloc: Global, count: u32) -> Result<String, Fail> {
    let mut text = String::from_str(alloc, "circuit t\ninput a 1\noutput y 1\nassign y ")?;
    for _ in 0..count {
        text.push_str("not(")?;
    }
    text.push_str("a")?;
    for _ in 0..count {
        text.push_str(")")?;
    }
    text.push_str("\ntop t\n")?;
    Ok(text)
}

/// The line of the fault of a call below 63 others.
fn too_deep(alloc: Global, line: &str) -> Result<String, Fail> {
    let mut told = String::from_str(alloc, line)?;
    for _ in 0..63 {
        told.push_str("/u")?;
    }
    told.push_str("\n")?;
    Ok(told)
}

#[test]
fn each_failed_read_ends_the_run(rt: HostRuntime) -> Result<(), Fail> {
    for call in 0..6 {
        let ran = run_by_bytes(&rt, rt.alloc(), ADDER.as_bytes(), Some(call), 1000)?;
        assert!(rt; ran.status == 3 && ran.written.is_empty(), "{call}");
        assert!(rt; ran.turns == 0 && ran.entries == 0, "{call}");
    }
    Ok(())
}

#[test]
fn each_room_takes_what_it_holds(rt: HostRuntime) -> Result<(), Fail> {
    let whole = run(&rt, rt.alloc(), "verilog", ADDER.as_bytes(), None, 1000)?;
    assert!(rt; whole.status == 0);
    for room in 0..whole.written.len() {
        let ran = run_by_bytes(&rt, rt.alloc(), ADDER.as_bytes(), None, room)?;
        assert!(rt; ran.status == 4 && ran.written.len() == room, "{room}");
        assert!(rt;
            whole.written.as_slice().starts_with(ran.written.as_slice()),
            "{room}"
        );
        assert!(rt; ran.turns == 1 && ran.entries == 1, "{room}");
    }
    let room = whole.written.len();
    let ran = run_by_bytes(&rt, rt.alloc(), ADDER.as_bytes(), None, room)?;
    assert!(rt; ran.status == 0 && ran.written.as_slice() == whole.written.as_slice());
    Ok(())
}

#[test]
fn cut_texts_end_as_told(rt: HostRuntime) -> Result<(), Fail> {
    let adder = ADDER.as_bytes();
    let mut wanted = "";
    for count in 0..adder.len() + 1 {
        for (from, line) in CUT {
            if from == count {
                wanted = line;
            }
        }
        let text = adder.split_at(count.min(adder.len())).0;
        let ran = run(&rt, rt.alloc(), "verilog", text, None, 1000)?;
        if wanted.is_empty() {
            assert!(rt; ran.status == 0 && ran.turns == 1, "{count}");
        } else {
            assert!(rt; ran.status == 1 && ran.turns == 0, "{count}");
            assert!(rt; ran.written.as_slice() == wanted.as_bytes(), "{count}");
        }
    }
    Ok(())
}

#[test]
fn texts_at_the_limits_end_as_told(rt: HostRuntime) -> Result<(), Fail> {
    let alloc = rt.alloc();
    let line_3 = too_deep(alloc, "F29 TooDeep line 3 path ")?;
    let rows = [
        ("verilog", TURNS, 1, "F26 TooManyStatements line 5 path /\n"),
        ("verilog", ENDLESS, 1, line_3.as_str()),
        ("verilog", ENDLESS_TWICE, 1, line_3.as_str()),
        ("sim", CHAIN, 0, "0 y=1 | y=1\n"),
        ("sim --flat", CHAIN, 0, "0 y=1 | y=1\n"),
    ];
    for (words, text, status, written) in rows {
        let ran = run(&rt, alloc, words, text.as_bytes(), None, 1000)?;
        assert!(rt;
            ran.status == status && ran.written.as_slice() == written.as_bytes(),
            "{words}: {text}"
        );
    }
    let most = run(
        &rt,
        alloc,
        "stat",
        nots(alloc, 64)?.as_str().as_bytes(),
        None,
        1000,
    )?;
    assert!(rt; most.status == 0);
    let more = run(
        &rt,
        alloc,
        "stat",
        nots(alloc, 65)?.as_str().as_bytes(),
        None,
        1000,
    )?;
    assert!(rt;
        more.status == 1 && more.written.as_slice() == b"F3 Syntax line 4 path -\n".as_slice()
    );
    Ok(())
}

#[test]
fn a_byte_past_ascii_is_refused(rt: HostRuntime) -> Result<(), Fail> {
    let mut text = Vec::from_slice(rt.alloc(), b"circuit add8\ninput a ")?;
    text.push(200)?;
    text.extend_from_slice(b"\ninput b 8\noutput s 8\nassign s add(a,b)\ntop add8\n")?;
    let ran = run(&rt, rt.alloc(), "verilog", text.as_slice(), None, 1000)?;
    assert!(rt;
        ran.status == 1 && ran.written.as_slice() == b"F2 NotAscii line 2 path -\n".as_slice()
    );
    Ok(())
}
