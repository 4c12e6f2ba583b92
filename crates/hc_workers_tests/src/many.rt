use hc_db::Db;
use hc_fault::{FaultKind, NoMemory, Refused};
use hc_lang::parse;
use hc_workers::{NoGate, elab_many};
use std::alloc::Global;
use std::process::Abort;
use std::sync::Wait;
use std::test::Fail;
use std::thread::Threads;

/// What a text elaborates to with as many workers: the number of its instances, entries and turns, or the kind and the line
/// of its first fault.
fn elaborated<R: Abort + Threads + Wait + Sync>(
    rt: &R,
    alloc: Global,
    text: &str,
    workers: u32,
) -> Result<Result<(u32, usize, usize), (FaultKind, u32)>, NoMemory> {
    let bytes = text.as_bytes();
    assert!(rt; bytes.len() <= 4_194_304);
    assert!(rt; 1 <= workers && workers <= 64);
    let design = match parse(alloc, bytes) {
        Ok(design) => design,
        Err(Refused::Fault(fault)) => return Ok(Err((fault.kind, fault.line))),
        Err(Refused::NoMemory) => return Err(NoMemory),
    };
    let (db, pass) = Db::new(rt, alloc)?;
    let (pass, answer) = elab_many(rt, alloc, &design, &db, pass, workers, &NoGate);
    let (entries, turns) = db.finish(rt, pass).into_parts();
    match answer {
        Ok(hier) => Ok(Ok((hier.instances, entries.len(), turns.len()))),
        Err(Refused::Fault(fault)) => Ok(Err((fault.kind, fault.line))),
        Err(Refused::NoMemory) => Err(NoMemory),
    }
}

#[test]
fn as_one_worker_does(rt: HostRuntime) -> Result<(), Fail> {
    let tree =
        "circuit tree n\ninput a 16\noutput s 16\nif n==1\nassign s a\nelse\ninst p tree (n/2) : a=a\n\
        inst q tree (n-n/2) : a=a\nassign s add(p.s,q.s)\nend\ntop tree 64\n";
    let bad =
        "circuit bad1\noutput y 8\nassign y const(4,1)\ncircuit mid\noutput y 8\ninst g bad1 :\nassign y g.y\n\
        circuit bad2\noutput y 8\nassign y const(8,300)\ncircuit t\noutput y 8\ninst u mid :\ninst v bad2 :\n\
        assign y add(u.y,v.y)\ntop t\n";
    let wide =
        "circuit leaf n\noutput y 8\nassign y const(8,n)\ncircuit t\noutput y 8\nfor i 0 100\ninst u[i] leaf i :\nend\n\
        assign y u[0].y\ntop t\n";
    let rows = [
        (tree, Ok((127, 7, 7))),
        (bad, Err((FaultKind::WidthMismatch, 3))),
        (wide, Ok((101, 101, 101))),
    ];
    for (text, wanted) in rows {
        for workers in [1, 2, 64] {
            let got = elaborated(&rt, rt.alloc(), text, workers)?;
            assert!(rt; got == wanted, "{workers} workers: {text}");
        }
    }
    Ok(())
}
