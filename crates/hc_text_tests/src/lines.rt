use hc_lines::{What, read_line};
use hc_tokens::{Stop, tokens};
use std::alloc::Global;
use std::test::Fail;

/// Whether something was read. What was read is let go.
fn is_found<T: Drop>(read: Result<T, Stop>) -> Result<bool, Stop> {
    match read {
        Ok(_) => Ok(true),
        Err(Stop::Syntax) => Ok(false),
        Err(Stop::Memory) => Err(Stop::Memory),
    }
}

/// Whether the line is read.
fn is_read(alloc: Global, line: &str) -> Result<bool, Stop> {
    let tokens = tokens(alloc, line.as_bytes())?;
    is_found(read_line(alloc, tokens.as_slice(), 64))
}

#[test]
fn each_form_of_line(rt: HostRuntime) -> Result<(), Fail> {
    let lines = [
        "circuit c n m",
        "input a n + 1",
        "let x[1] mux(s,a,b,c)",
        "reg r add(r,x) enable e clear c 0 init 1",
        "inst u c 8 (n) : a=x b=u.y",
        "for i 0 8",
        "if i == 3",
        "top t 8",
        "set a -1",
        "cycle 3",
    ];
    for line in lines {
        assert!(rt; is_read(rt.alloc(), line)?, "{line}");
    }
    Ok(())
}

#[test]
fn other_lines(rt: HostRuntime) -> Result<(), Fail> {
    let lines = [
        "Circuit c",
        "end x",
        "let x mux(s,a)",
        "input add 8",
        "reg r x init 1 enable e",
        "assign s 8",
        "set a 1 2",
    ];
    for line in lines {
        assert!(rt; !is_read(rt.alloc(), line)?, "{line}");
    }
    Ok(())
}
