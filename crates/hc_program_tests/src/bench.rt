ghost use Rattle.std.specs.Prelude.{◌≡◌, ◌≤◌, ◌++◌, ◌∷◌, [], length, IfOk, OnOk};
ghost use Rattle.hc_bits.specs.BitVector.{IsWidth};
ghost use Rattle.hc_signal.specs.Lawful.{ArePorts};

use hc_bench::kinds::{Bench, Step};
use hc_bench::make::bench;
use hc_bits::Bits;
use hc_fault::{FaultKind, ItemList, Name, NoMemory, Refused};
use hc_lang::parse;
use hc_signal::{Port, Ports};
use std::alloc::Global;
use std::process::Abort;
use std::test::Fail;

/// A port of this name and width.
fn port(alloc: Global, name: &str, width: u32) -> Result<Port, NoMemory>
    requires { IsWidth width }
    ensures given { IfOk result (λ port. port.width ≡ width) }
    ensures lawful { IfOk result (λ port. IsWidth port.width) }
{
    let name = Name::new(alloc, name.as_bytes())?;
    Ok(Port { name, width })
}

/// Adds a port at the end.
fn add(ports: &mut ItemList<Port>, port: Port) -> Result<(), NoMemory>
    ensures { OnOk result (ports.new ≡ ports.old ++ port ∷ []) }
{
    match ports.push(port) {
        Ok(()) => Ok(()),
        Err((_, refused)) => Err(refused),
    }
}

/// The inputs `s` of two bits and `a` of four.
fn ports(alloc: Global) -> Result<Ports, NoMemory>
    ensures few { IfOk result (λ ports. length ports.inputs ≤ 128) }
    ensures lawful { IfOk result (λ ports. ArePorts ports) }
{
    let mut inputs = ItemList::new(alloc);
    add(&mut inputs, port(alloc, "s", 2)?)?;
    add(&mut inputs, port(alloc, "a", 4)?)?;
    Ok(Ports {
        inputs,
        outputs: ItemList::new(alloc),
    })
}

/// The bench of a design with these lines, the first of which is line 8.
fn bench_of(rt: &impl Abort, alloc: Global, lines: &str) -> Result<Result<Bench, Refused>, Fail> {
    let mut text = String::from_str(
        alloc,
        "circuit t\ninput s 2\ninput a 4\noutput y 4\nassign y mux(s,a,const(4,2),const(4,9))\ntop t\nbench\n",
    )?;
    text.push_str(lines)?;
    text.push_str("\nend\n")?;
    let bytes = text.as_bytes();
    assert!(rt; bytes.len() <= 4_194_304);
    let ports = ports(alloc)?;
    match parse(alloc, bytes) {
        Ok(design) => Ok(bench(alloc, &design, &ports)),
        Err(refused) => Ok(Err(refused)),
    }
}

/// The kind and the line of the fault, or none where there are steps. A fault of a bench has no path.
fn fault_of(rt: &impl Abort, alloc: Global, lines: &str) -> Result<Option<(FaultKind, u32)>, Fail> {
    match bench_of(rt, alloc, lines)? {
        Ok(_) => Ok(None),
        Err(Refused::Fault(fault)) => {
            assert!(rt; fault.path.is_none());
            Ok(Some((fault.kind, fault.line)))
        }
        Err(Refused::NoMemory) => Err(Fail::from(NoMemory)),
    }
}

#[test]
fn first_faults(rt: HostRuntime) -> Result<(), Fail> {
    let rows = [
        ("set s 3\nset a 5\ncycle", None),
        ("set z 1\nset a 5\ncycle", Some((FaultKind::BenchPort, 8))),
        ("set y 1", Some((FaultKind::BenchPort, 8))),
        ("set s 4\nset a 5\ncycle", Some((FaultKind::BenchValue, 8))),
        ("set s -1\nset a -8", None),
        ("set a -9\nset z 1", Some((FaultKind::BenchValue, 8))),
        ("set a 4'hf\nset a 04'b0", None),
        ("set a 3'h3", Some((FaultKind::BenchValue, 8))),
        ("set s 2'h4", Some((FaultKind::BenchValue, 8))),
        ("cycle 1000000\ncycle 0", None),
        ("cycle 1000001", Some((FaultKind::TooManyCycles, 8))),
        (
            "cycle 1000000\nreset\ncycle\nset z 1",
            Some((FaultKind::TooManyCycles, 10)),
        ),
        (
            "cycle 9223372036854775807",
            Some((FaultKind::TooManyCycles, 8)),
        ),
    ];
    for (lines, fault) in rows {
        assert_eq!(rt; fault_of(&rt, rt.alloc(), lines)?, fault, "{lines}");
    }
    Ok(())
}

#[test]
fn steps_in_order(rt: HostRuntime) -> Result<(), Fail> {
    let alloc = rt.alloc();
    let lines = "set s -1\nset a 4'h5\ncycle 3\nreset\ncycle";
    let (Ok(bench), Some(three), Some(five)) = (
        bench_of(&rt, alloc, lines)?,
        Bits::new(2, 3),
        Bits::new(4, 5),
    ) else {
        return Err(Fail::from(NoMemory));
    };
    let steps = [
        Step::Set {
            port: 0,
            value: three,
        },
        Step::Set {
            port: 1,
            value: five,
        },
        Step::Cycle { times: 3 },
        Step::Reset,
        Step::Cycle { times: 1 },
    ];
    assert!(rt; bench.steps.as_slice() == steps.as_slice());
    Ok(())
}
