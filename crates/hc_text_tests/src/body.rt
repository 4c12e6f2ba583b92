use hc_body::kinds::Body;
use hc_body::laws::calls_of_the_top;
use hc_body::make::{body, ports_of, top_call};
use hc_fault::{FaultKind, ItemList, NoMemory, Path, Refused};
use hc_lang::{Design, parse};
use std::alloc::{AllocError, Global};
use std::process::Abort;
use std::test::Fail;

/// The body of the top circuit.
fn top_body(alloc: Global, design: &Design) -> Result<Body, Refused> {
    let path = Path {
        steps: ItemList::new(alloc),
    };
    match top_call(alloc, design) {
        Ok(call) => {
            calls_of_the_top();
            match ports_of(alloc, design, &call, &path) {
                Ok(_) => body(alloc, design, &call, &path),
                Err(stop) => Err(stop),
            }
        }
        Err(stop) => Err(stop),
    }
}

/// The kind and the line of the first fault of a text or of its top circuit.
fn first_fault<R: Abort>(
    rt: &R,
    alloc: Global,
    text: &str,
) -> Result<Option<(FaultKind, u32)>, NoMemory> {
    let bytes = text.as_bytes();
    assert!(rt; bytes.len() <= 4_194_304);
    let answer = match parse(alloc, bytes) {
        Ok(design) => top_body(alloc, &design),
        Err(stop) => Err(stop),
    };
    match answer {
        Ok(_) => Ok(None),
        Err(Refused::Fault(fault)) => Ok(Some((fault.kind, fault.line))),
        Err(Refused::NoMemory) => Err(NoMemory),
    }
}

/// A loop of so many turns, each with one statement.
fn turns(alloc: Global, count: u32) -> Result<String, AllocError> {
    format!(in alloc;
        "circuit t\ninput a 1\noutput y 1\nfor i 0 {count}\nlet x[i] a\nend\nassign y a\ntop t\n"
    )
}

#[test]
fn faults_of_bodies(rt: HostRuntime) -> Result<(), Fail> {
    let rows = [
        (
            "circuit add8\ninput a 8\ninput b 8\noutput s 8\nassign s add(a,b)\ntop add8\n",
            None,
        ),
        (
            "circuit add8\ninput a 8\ninput b 4\noutput s 8\nassign s add(a,b)\ntop add8\n",
            Some((FaultKind::WidthMismatch, 5)),
        ),
        (
            "circuit add8\ninput a 8\ninput b 8\noutput s 8\nassign s add(a,b)\ntop add9\n",
            Some((FaultKind::UnknownCircuit, 6)),
        ),
        (
            "circuit add8\ninput a 8\ninput b 8\noutput s 8\ntop add8\n",
            Some((FaultKind::Undriven, 4)),
        ),
        (
            "circuit add8\ninput a 8\ninput b 8\noutput s 8\nassign s 8'h1ff\ntop add8\n",
            Some((FaultKind::ConstRange, 5)),
        ),
        (
            "circuit add8\ninput a 8\ninput b 8\noutput s 8\nassign s add(a b)\ntop add8\n",
            Some((FaultKind::Syntax, 5)),
        ),
        (
            "circuit t\ninput a 64\ninput b 64\noutput p 128\nassign p mulu(a,b)\ntop t\n",
            None,
        ),
        (
            "circuit t\ninput a 64\ninput b 65\noutput p 128\nassign p mulu(a,b)\ntop t\n",
            Some((FaultKind::Width, 5)),
        ),
        (
            "circuit t\ninput s 2\ninput a 4\noutput y 4\nassign y mux(s,a,const(4,2),const(4,9))\ntop t\n",
            None,
        ),
        (
            "circuit t\ninput s 2\ninput a 4\noutput y 4\nassign y mux(s,a,a,a,a,a)\ntop t\n",
            Some((FaultKind::MuxCount, 5)),
        ),
        (
            "circuit t\ninput x 8\noutput y 4\nassign y op.nope(x)\ntop t\n",
            Some((FaultKind::UnknownOp, 4)),
        ),
        ("", Some((FaultKind::NoTop, 0))),
    ];
    for (text, fault) in rows {
        assert!(rt; first_fault(&rt, rt.alloc(), text)? == fault, "{text}");
    }
    Ok(())
}

#[test]
fn counted_lines(rt: HostRuntime) -> Result<(), Fail> {
    let many = turns(rt.alloc(), 40_000)?;
    assert!(rt; first_fault(&rt, rt.alloc(), &many)? == Some((FaultKind::TooManyStatements, 5)));
    let most = turns(rt.alloc(), 32_767)?;
    assert!(rt; first_fault(&rt, rt.alloc(), &most)?.is_none());
    Ok(())
}
