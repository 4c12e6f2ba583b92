use hc_fault::{FaultKind, NoMemory, Refused};
use hc_lang::parse;
use std::alloc::{AllocError, Global};
use std::process::Abort;
use std::test::Fail;

/// The kind and the line of the fault, or none where the text has a design.
fn fault_of(
    rt: &impl Abort,
    alloc: Global,
    text: &str,
) -> Result<Option<(FaultKind, u32)>, NoMemory> {
    let bytes = text.as_bytes();
    assert!(rt; bytes.len() <= 4_194_304);
    match parse(alloc, bytes) {
        Ok(_) => Ok(None),
        Err(Refused::Fault(fault)) => Ok(Some((fault.kind, fault.line))),
        Err(Refused::NoMemory) => Err(NoMemory),
    }
}

/// A circuit whose output is so many sums inside one another.
fn nested(alloc: Global, depth: u32) -> Result<String, AllocError> {
    let mut text = String::from_str(alloc, "circuit n\ninput a 8\noutput s 8\nassign s ")?;
    for _ in 0..depth {
        text.push_str("add(")?;
    }
    text.push_str("a")?;
    for _ in 0..depth {
        text.push_str(",a)")?;
    }
    text.push_str("\ntop n\n")?;
    Ok(text)
}

/// A circuit of so many blocks inside one another.
fn blocks(alloc: Global, depth: u32) -> Result<String, AllocError> {
    let mut text = String::from_str(alloc, "circuit c\n")?;
    for _ in 0..depth {
        text.push_str("if 1\n")?;
    }
    for _ in 0..depth {
        text.push_str("end\n")?;
    }
    text.push_str("top c\n")?;
    Ok(text)
}

/// A circuit with a port whose width is a sum of so many operators.
fn wide(alloc: Global, operators: u32) -> Result<String, AllocError> {
    let mut text = String::from_str(alloc, "circuit c\ninput a 1")?;
    for _ in 0..operators {
        text.push_str("+1")?;
    }
    text.push_str("\ntop c\n")?;
    Ok(text)
}

#[test]
fn texts_with_a_design(rt: HostRuntime) -> Result<(), Fail> {
    let texts = [
        "circuit add8\ninput a 8\ninput b 8\noutput s 8\nassign s add(a,b)\ntop add8\n",
        "circuit t\ninput a 8\noutput s 8\nassign s 8'h1ff\ntop add9\nbench\nset a -1\ncycle\nend",
        "top t",
        "circuit c\nfor i 0 4 # turns\nif i == 1\nlet x[i] a\nelse\nend\nend\ncircuit d\n\ntop d 1 2\n",
    ];
    for text in texts {
        assert!(rt; fault_of(&rt, rt.alloc(), text)?.is_none(), "{text}");
    }
    assert!(rt; fault_of(&rt, rt.alloc(), blocks(rt.alloc(), 64)?.as_str())?.is_none());
    assert!(rt; fault_of(&rt, rt.alloc(), nested(rt.alloc(), 64)?.as_str())?.is_none());
    assert!(rt; fault_of(&rt, rt.alloc(), wide(rt.alloc(), 32)?.as_str())?.is_none());
    Ok(())
}

#[test]
fn texts_with_a_fault(rt: HostRuntime) -> Result<(), Fail> {
    let texts = [
        ("", FaultKind::NoTop, 0),
        ("circuit c\n", FaultKind::NoTop, 0),
        (
            "circuit c d(\nlet x \u{7f}\ntop c\n",
            FaultKind::NotAscii,
            2,
        ),
        ("circuit c # \u{7f}\ntop c\n", FaultKind::NotAscii, 1),
        (
            "circuit c\nend\nassign s add(a b)\ntop c\n",
            FaultKind::Syntax,
            3,
        ),
        ("circuit c c:\ntop c\n", FaultKind::Syntax, 1),
        ("circuit c\ninput a 1'b1a\ntop c\n", FaultKind::Syntax, 2),
        ("circuit c\ntop c\nlet x a\n", FaultKind::Misplaced, 3),
        (
            "circuit c\nlet x a\ninput a 1\ntop c\n",
            FaultKind::Misplaced,
            3,
        ),
        ("circuit c\nfor i 0 1\ncircuit d\n", FaultKind::Misplaced, 3),
        ("circuit c\nif 1\nelse\nelse\n", FaultKind::Misplaced, 4),
        ("bench\n", FaultKind::Misplaced, 1),
        ("top t\ncircuit t\n", FaultKind::Misplaced, 2),
        ("top t\nbench\nend\nbench\n", FaultKind::Misplaced, 4),
        ("circuit c\nfor i 0 1\nif 1\nelse\n", FaultKind::Unclosed, 3),
        ("top t\nbench\ncycle 3\n", FaultKind::Unclosed, 2),
        (
            "circuit wire\ncircuit c\ncircuit c\ntop c\n",
            FaultKind::RepeatedCircuit,
            3,
        ),
        ("circuit wire\ntop wire\n", FaultKind::ReservedName, 1),
        (
            "circuit c\nif 0\nlabel x reg\nend\n",
            FaultKind::ReservedName,
            3,
        ),
        ("circuit op_c\n", FaultKind::ReservedName, 1),
    ];
    for (text, kind, line) in texts {
        assert_eq!(rt;
            fault_of(&rt, rt.alloc(), text)?,
            Some((kind, line)),
            "{text}"
        );
    }
    let deep = fault_of(&rt, rt.alloc(), blocks(rt.alloc(), 65)?.as_str())?;
    assert_eq!(rt; deep, Some((FaultKind::Misplaced, 66)));
    let open = fault_of(&rt, rt.alloc(), nested(rt.alloc(), 65)?.as_str())?;
    assert_eq!(rt; open, Some((FaultKind::Syntax, 4)));
    let long = fault_of(&rt, rt.alloc(), wide(rt.alloc(), 33)?.as_str())?;
    assert_eq!(rt; long, Some((FaultKind::Syntax, 2)));
    Ok(())
}
