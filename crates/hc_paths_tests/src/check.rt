use hc_check::{CheckStop, check};
use hc_fault::{FaultKind, Name};
use hc_signal::{Builder, Circuit};
use std::alloc::Global;
use std::process::Abort;
use std::test::Fail;

fn broken(kind: FaultKind, which: u32) -> Result<(), CheckStop> {
    Err(CheckStop::Broken { kind, which })
}

/// A circuit of so many ports of one bit, and nothing else.
fn ports(rt: &impl Abort, alloc: Global, inputs: u32, outputs: u32) -> Result<Circuit, Fail> {
    let name = Name::new(alloc, b"p")?;
    let mut builder = Builder::new(alloc);
    for _ in 0..inputs {
        assert!(rt; builder.weight() < 1_000_000);
        builder.input(&name, 1)?;
    }
    for _ in 0..outputs {
        assert!(rt; builder.weight() < 1_000_000);
        builder.output(&name, 1)?;
    }
    Ok(builder.finish())
}

/// An output that an input drives, and a wire that nothing drives and no output reaches.
fn unreached_wire(alloc: Global) -> Result<Circuit, Fail> {
    let name = Name::new(alloc, b"p")?;
    let mut builder = Builder::new(alloc);
    let output = builder.output(&name, 1)?;
    let input = builder.input(&name, 1)?;
    builder.wire(1)?;
    builder.drive(output, input)?;
    Ok(builder.finish())
}

/// The first output reaches the wire 2, which nothing drives, as nothing drives the outputs 1 and 3.
fn three_undriven(alloc: Global) -> Result<Circuit, Fail> {
    let name = Name::new(alloc, b"p")?;
    let mut builder = Builder::new(alloc);
    let first = builder.output(&name, 1)?;
    builder.output(&name, 1)?;
    let wire = builder.wire(1)?;
    builder.output(&name, 1)?;
    builder.drive(first, wire)?;
    Ok(builder.finish())
}

#[test]
fn tells_the_first_broken_rule(rt: HostRuntime) -> Result<(), Fail> {
    let alloc = rt.alloc();
    for (inputs, outputs, expected) in [
        (0, 0, broken(FaultKind::NoOutputs, 0)),
        (129, 0, broken(FaultKind::NoOutputs, 0)),
        (129, 1, broken(FaultKind::PortCount, 128)),
        (1, 129, broken(FaultKind::PortCount, 128)),
        (128, 128, broken(FaultKind::Undriven, 128)),
    ] {
        let circuit = ports(&rt, alloc, inputs, outputs)?;
        assert!(rt;
            check(alloc, &circuit) == expected,
            "{inputs} inputs, {outputs} outputs"
        );
    }
    Ok(())
}

#[test]
fn looks_at_reached_wires_alone(rt: HostRuntime) -> Result<(), Fail> {
    let alloc = rt.alloc();
    let expected = broken(FaultKind::Undriven, 1);
    assert!(rt; check(alloc, &three_undriven(alloc)?) == expected);
    assert!(rt; check(alloc, &unreached_wire(alloc)?) == Ok(()));
    Ok(())
}
