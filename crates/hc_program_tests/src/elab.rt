use hc_dbstate::{DbState, Hier};
use hc_elab::elab_one;
use hc_fault::{FaultKind, NoMemory, Refused};
use hc_lang::parse;
use std::alloc::Global;
use std::process::Abort;
use std::test::Fail;

/// The hierarchy of a text, or the kind and the line of its first fault.
fn elaborated<R: Abort>(
    rt: &R,
    alloc: Global,
    db: &mut DbState,
    text: &str,
) -> Result<Result<Hier, (FaultKind, u32)>, NoMemory> {
    let bytes = text.as_bytes();
    assert!(rt; bytes.len() <= 4_194_304);
    let answer = match parse(alloc, bytes) {
        Ok(design) => elab_one(alloc, &design, db),
        Err(refused) => Err(refused),
    };
    match answer {
        Ok(hier) => Ok(Ok(hier)),
        Err(Refused::Fault(fault)) => Ok(Err((fault.kind, fault.line))),
        Err(Refused::NoMemory) => Err(NoMemory),
    }
}

#[test]
fn two_levels(rt: HostRuntime) -> Result<(), Fail> {
    let alloc = rt.alloc();
    let mut db = DbState::new(alloc);
    let text = "circuit inv\ninput a 1\noutput y 1\nassign y not(a)\n\
        circuit twice\ninput a 1\noutput y 1\ninst p inv : a=a\ninst q inv : a=p.y\nassign y q.y\n\
        top twice\n";
    let Ok(hier) = elaborated(&rt, alloc, &mut db, text)? else {
        panic!(rt; "a fault");
    };
    let (entries, turns) = db.into_parts();
    assert_eq!(rt; hier.instances, 3);
    assert_eq!(rt; hier.kids.as_slice().len(), 2);
    assert!(rt; hier.name.bytes() == b"twice".as_slice());
    assert!(rt; hier.paths.masks.as_slice() == [1_u128].as_slice());
    assert_eq!(rt; entries.len(), 2);
    assert_eq!(rt; turns.len(), 2);
    Ok(())
}

#[test]
fn faults(rt: HostRuntime) -> Result<(), Fail> {
    let rows = [
        (
            "circuit c\noutput y 1\nassign y y\ntop c\n",
            FaultKind::CombLoop,
            0,
        ),
        (
            "circuit c\noutput y 1\ninst p c :\nassign y p.y\ntop c\n",
            FaultKind::TooDeep,
            3,
        ),
        (
            "circuit c\noutput y 1\nfor i 0 65\nmemory m[i] 65536 1\nend\nassign y 1'b0\ntop c\n",
            FaultKind::DesignWords,
            1,
        ),
    ];
    for (text, kind, line) in rows {
        let mut db = DbState::new(rt.alloc());
        match elaborated(&rt, rt.alloc(), &mut db, text)? {
            Ok(_) => panic!(rt; "no fault: {text}"),
            Err(fault) => assert!(rt; fault == (kind, line), "{text}"),
        }
    }
    Ok(())
}
