use crate::cli::{
    ADDER, DEEPER, DEEPER_LINE, FIRST_IN_ORDER, FULL, MUX, NO_PORT, Ran, SHARED, TREE, WORKLOAD_1,
    operations, run, sink_of, words_of,
};
use hc_cli::Outcome;
use hc_outside::MemSource;
use hc_workers::{Gate, NoGate};
use std::alloc::Global;
use std::process::Abort;
use std::sync::Wait;
use std::sync::atomic::{AtomicU64, Ordering};
use std::test::Fail;
use std::thread::{Threads, yield_now};

/// How often a wait looks before it gives up.
const LOOKS: u32 = 20_000_000;

/// Two circuits of one height, with forms of 3 and of 2 nodes.
const TWO_FORMS: &str =
    "circuit a\ninput x 1\noutput y 1\nassign y not(x)\ncircuit b\ninput x 1\noutput y 1\nassign y x\ncircuit t\ninput x 1\noutput y 1\ninst u a : x=x\ninst v b : x=u.y\nassign y v.y\ntop t\n";

/// A hundred circuits of one height.
const WIDE: &str =
    "circuit leaf n\noutput y 8\nassign y const(8,n)\ncircuit t\noutput y 8\nfor i 0 100\ninst u[i] leaf i :\nend\nassign y u[0].y\ntop t\n";

const TREE_STAT: &str = "instances 127\nentries 7\nmodules 7\nweight 1454\nwords 0\ncycles 1\n";

const FULL_STAT: &str = "instances 65536\nentries 3\nmodules 3\nweight 524284\nwords 0\ncycles 0\n";

/// Lets a half go on when both have come, and the half `last` when the other is done.
#[derive(Drop)]
struct InTurn {
    last: u32,
    first_came: AtomicU64,
    second_came: AtomicU64,
    first_done: AtomicU64,
    second_done: AtomicU64,
    given_up: AtomicU64,
}

impl InTurn {
    fn new(last: u32) -> InTurn {
        InTurn {
            last,
            first_came: AtomicU64::new(0),
            second_came: AtomicU64::new(0),
            first_done: AtomicU64::new(0),
            second_done: AtomicU64::new(0),
            given_up: AtomicU64::new(0),
        }
    }

    /// Waits until this was told.
    fn wait_for(&self, told: &AtomicU64) {
        for _ in 0..LOOKS {
            if told.load(Ordering::SeqCst) != 0 {
                return;
            }
            yield_now();
        }
        self.given_up.fetch_add(1, Ordering::SeqCst);
    }

    /// How often each half came, how often each was done, and how many waits gave up.
    fn counts(&self) -> (u64, u64, u64, u64, u64) {
        (
            self.first_came.load(Ordering::SeqCst),
            self.second_came.load(Ordering::SeqCst),
            self.first_done.load(Ordering::SeqCst),
            self.second_done.load(Ordering::SeqCst),
            self.given_up.load(Ordering::SeqCst),
        )
    }
}

impl Gate for InTurn {
    fn arrive(&self, half: u32) {
        let (own, other, other_done) = if half == 1 {
            (&self.first_came, &self.second_came, &self.second_done)
        } else {
            (&self.second_came, &self.first_came, &self.first_done)
        };
        own.fetch_add(1, Ordering::SeqCst);
        self.wait_for(other);
        if half == self.last {
            self.wait_for(other_done);
        }
    }

    fn done(&self, half: u32) {
        let done = if half == 1 {
            &self.first_done
        } else {
            &self.second_done
        };
        done.fetch_add(1, Ordering::SeqCst);
    }
}

/// Counts the halves that come and those that are done.
#[derive(Drop)]
struct Counted {
    came: AtomicU64,
    done: AtomicU64,
}

impl Gate for Counted {
    fn arrive(&self, _half: u32) {
        self.came.fetch_add(1, Ordering::SeqCst);
    }

    fn done(&self, _half: u32) {
        self.done.fetch_add(1, Ordering::SeqCst);
    }
}

/// How a run by the workers of its words ends, and what it writes.
fn run_many<R: Abort + Threads + Wait + Sync, G: Gate + Sync>(
    rt: &R,
    alloc: Global,
    line: &str,
    text: &str,
    gate: &G,
) -> Result<(Outcome, Vec<u8>), Fail> {
    let words = words_of(alloc, line)?;
    let text = Vec::from_slice(alloc, text.as_bytes())?;
    let mut source = MemSource::new(text, Vec::new(alloc), 8);
    let mut sink = sink_of(rt, alloc, 100_000);
    let ops = operations(alloc)?;
    let outcome = hc_cli::run(rt, alloc, &words, &ops, &mut source, &mut sink, gate);
    Ok((outcome, Vec::from_slice(alloc, sink.bytes())?))
}

/// Whether many workers end a run as one does: with the same status and bytes, and as many turns and entries.
fn is_as_alone(ran: &Ran, outcome: &Outcome, written: &[u8]) -> bool {
    ran.status == outcome.status
        && ran.written.as_slice() == written
        && ran.turns == outcome.turns.len()
        && ran.entries == outcome.entries.len()
}

#[test]
fn many_workers_end_as_one(rt: HostRuntime) -> Result<(), Fail> {
    let rows = [
        ("verilog", ADDER),
        ("verilog", SHARED),
        ("verilog --flat", SHARED),
        ("verilog", FIRST_IN_ORDER),
        ("verilog", DEEPER),
        ("verilog", TREE),
        ("both", TREE),
        ("stat", FULL),
        ("verilog", WIDE),
        ("both", MUX),
        ("sim", NO_PORT),
        ("vhdl", TREE),
        ("gen --seed 7", TREE),
    ];
    for (word, text) in rows {
        let alone = run(&rt, rt.alloc(), word, text.as_bytes(), None, 100_000)?;
        for workers in [
            " --workers 1",
            " --workers 2",
            " --workers 8",
            " --workers=64",
        ] {
            let mut line = String::from_str(rt.alloc(), word)?;
            line.push_str(workers)?;
            let (outcome, written) = run_many(&rt, rt.alloc(), &line, text, &NoGate)?;
            assert!(rt; is_as_alone(&alone, &outcome, &written), "{line}: {text}");
        }
    }
    Ok(())
}

#[test]
fn many_workers_end_as_told(rt: HostRuntime) -> Result<(), Fail> {
    let rows = [
        (
            "verilog --workers 64",
            FIRST_IN_ORDER,
            1,
            "F15 WidthMismatch line 3 path /u/g\n",
            0,
            0,
        ),
        ("verilog --workers 64", DEEPER, 1, DEEPER_LINE, 0, 0),
        ("sim --workers 2", TREE, 0, "0 s=00c0 | s=00c0\n", 7, 7),
        ("stat --workers 64", TREE, 0, TREE_STAT, 7, 7),
        ("stat --workers 64", FULL, 0, FULL_STAT, 3, 3),
        ("sim --workers 8", SHARED, 0, "", 3, 2),
        (
            "sim --workers 8",
            NO_PORT,
            1,
            "F34 BenchPort line 8 path -\n",
            1,
            1,
        ),
        ("gen --seed 1 --workers 1", TREE, 0, WORKLOAD_1, 33, 33),
        ("gen --seed 1 --workers 8", TREE, 0, WORKLOAD_1, 33, 33),
    ];
    for (line, text, status, wanted, turns, entries) in rows {
        let (outcome, written) = run_many(&rt, rt.alloc(), line, text, &NoGate)?;
        assert!(rt;
            outcome.status == status && written.as_slice() == wanted.as_bytes(),
            "{line}: {text}"
        );
        assert!(rt;
            outcome.turns.len() == turns && outcome.entries.len() == entries,
            "{line}: {text}"
        );
    }
    Ok(())
}

#[test]
fn halves_run_beside_each_other(rt: HostRuntime) -> Result<(), Fail> {
    // The half that is done first has the first entry: that of `b` has 2 nodes, and that of `a` has 3.
    let alone = run(
        &rt,
        rt.alloc(),
        "verilog",
        TWO_FORMS.as_bytes(),
        None,
        10_000,
    )?;
    assert!(rt; alone.status == 0 && alone.written.starts_with(b"module a ("));
    for (last, nodes) in [(1, 2), (2, 3)] {
        let gate = InTurn::new(last);
        let (outcome, written) = run_many(
            &rt,
            rt.alloc(),
            "verilog --workers 2",
            TWO_FORMS,
            &gate,
        )?;
        assert_eq!(rt; gate.counts(), (1, 1, 1, 1, 0));
        assert!(rt; is_as_alone(&alone, &outcome, &written));
        assert_eq!(rt; outcome.entries.len(), 3);
        assert_eq!(rt; outcome.entries[0].circuit().nodes().len(), nodes);
    }
    Ok(())
}

#[test]
fn sixty_four_passes(rt: HostRuntime) -> Result<(), Fail> {
    // 63 joins make 64 passes, and each join has two halves.
    let gate = Counted {
        came: AtomicU64::new(0),
        done: AtomicU64::new(0),
    };
    let (outcome, _) = run_many(&rt, rt.alloc(), "stat --workers 64", WIDE, &gate)?;
    assert_eq!(rt; outcome.status, 0);
    assert!(rt; outcome.turns.len() == 101 && outcome.entries.len() == 101);
    assert_eq!(rt; gate.came.load(Ordering::SeqCst), 126);
    assert_eq!(rt; gate.done.load(Ordering::SeqCst), 126);
    Ok(())
}
