use hc_tokens::{Stop, number, tokens};
use std::test::Fail;

#[test]
fn lines_and_their_tokens(rt: HostRuntime) -> Result<(), Fail> {
    let lines = [
        ("", 0),
        ("# a comment (", 0),
        ("let x y", 3),
        ("a#b", 1),
        ("a<=b", 3),
        ("8'hFf 1'b12", 3),
        ("x[1].y", 6),
    ];
    for (line, count) in lines {
        assert_eq!(rt;
            tokens(rt.alloc(), line.as_bytes())?.as_slice().len(),
            count,
            "{line}"
        );
    }
    let stuck = ["12a", "8'hfg", "1'b", "!", "9223372036854775808"];
    for line in stuck {
        assert!(rt;
            matches!(&tokens(rt.alloc(), line.as_bytes()), Err(Stop::Syntax)),
            "{line}"
        );
    }
    Ok(())
}

#[test]
fn numbers_at_the_front(rt: HostRuntime) -> Result<(), Fail> {
    let lines = [("1 + 2 * bits(n) == 7", 0), ("-x y", 1), ("(1) (2)", 3)];
    for (line, left) in lines {
        let tokens = tokens(rt.alloc(), line.as_bytes())?;
        let (_, rest) = number(rt.alloc(), tokens.as_slice(), 64)?;
        assert_eq!(rt; rest.len(), left, "{line}");
    }
    Ok(())
}
