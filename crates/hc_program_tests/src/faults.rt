use hc_cli::write_fault;
use hc_fault::{Fault, FaultKind, Ident, ItemList, Name, Path};
use hc_outside::{Failed, MemSink};
use std::alloc::Global;
use std::test::Fail;

/// Whether a fault is told by this line, and by its front where the sink has less room.
fn is_told(alloc: Global, fault: &Fault, line: &[u8]) -> Result<bool, Fail> {
    let Ok(mut sink) = MemSink::new(alloc, line.len(), Vec::new(alloc), 3) else {
        return Ok(false);
    };
    let Ok(mut small) = MemSink::new(alloc, 7, Vec::new(alloc), 3) else {
        return Ok(false);
    };
    let all = write_fault(fault, &mut sink) == Ok(()) && sink.bytes() == line;
    let front = write_fault(fault, &mut small) == Err(Failed);
    Ok(all && front && small.bytes() == line.split_at(7.min(line.len())).0)
}

#[test]
fn faults_are_told(rt: HostRuntime) -> Result<(), Fail> {
    let alloc = rt.alloc();
    let mut steps = Vec::new(alloc);
    for (name, index) in [("u", Some(-3)), ("v", None)] {
        let Ok(name) = Name::new(alloc, name.as_bytes()) else {
            return Ok(());
        };
        steps.push(Ident { name, index })?;
    }
    let in_text = Fault {
        kind: FaultKind::NoTop,
        line: 0,
        path: None,
    };
    assert!(rt; is_told(alloc, &in_text, b"F8 NoTop line 0 path -\n")?);
    let at_top = Fault {
        kind: FaultKind::WidthMismatch,
        line: 5,
        path: Some(Path {
            steps: ItemList::new(alloc),
        }),
    };
    assert!(rt; is_told(alloc, &at_top, b"F15 WidthMismatch line 5 path /\n")?);
    let below = Fault {
        kind: FaultKind::UnknownOp,
        line: 70_000,
        path: Some(Path {
            steps: ItemList::from_vec(steps),
        }),
    };
    assert!(rt; is_told(alloc, &below, b"F37 UnknownOp line 70000 path /u[-3]/v\n")?);
    Ok(())
}
