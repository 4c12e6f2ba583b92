//! Lists of words with and without a job.
use hc_words::{Job, Verb, WordStop, read_words};
use std::alloc::{AllocError, Global};
use std::test::Fail;

fn words(alloc: Global, list: &[&str]) -> Result<Vec<String>, AllocError> {
    let mut words = Vec::new(alloc);
    for word in list {
        words.push(String::from_str(alloc, *word)?)?;
    }
    Ok(words)
}

/// Lists of words, each with the command, the number of workers, the flag and the seed of its job, or none where it is refused.
const CASES: [(&[&str], Option<(Verb, u32, bool, u64)>); 31] = [
    (&["verilog"], Some((Verb::Verilog, 1, false, 0))),
    (&["sim"], Some((Verb::Sim, 1, false, 0))),
    (&["both"], Some((Verb::Both, 1, false, 0))),
    (&["stat"], Some((Verb::Stat, 1, false, 0))),
    (
        &["verilog", "--workers=64"],
        Some((Verb::Verilog, 64, false, 0)),
    ),
    (
        &["--workers", "08", "verilog"],
        Some((Verb::Verilog, 8, false, 0)),
    ),
    (&["--flat", "verilog"], Some((Verb::Verilog, 1, true, 0))),
    (
        &["verilog", "--flat", "--workers", "8"],
        Some((Verb::Verilog, 8, true, 0)),
    ),
    (&["sim", "--flat", "--flat"], None),
    (&["--flat"], None),
    (&["verilog", "--flat=true"], None),
    (&["verilog", "--workers", "0"], None),
    (&["verilog", "--workers", "65"], None),
    (&["verilog", "--workers", "-1"], None),
    (&["verilog", "--workers"], None),
    (&["verilog", "--workers", "--flat"], None),
    (&["--workers", "2", "verilog", "--workers=2"], None),
    (
        &["verilog", "--seed", "5"],
        Some((Verb::Verilog, 1, false, 5)),
    ),
    (&["verilog", "sim"], None),
    (&["gen"], Some((Verb::Gen, 1, false, 0))),
    (
        &["--seed", "007", "--flat", "gen", "--workers=64"],
        Some((Verb::Gen, 64, true, 7)),
    ),
    (
        &["gen", "--seed=18446744073709551615"],
        Some((Verb::Gen, 1, false, u64::MAX)),
    ),
    (&["gen", "--seed=18446744073709551616"], None),
    (&["gen", "--seed", "-1"], None),
    (&["gen", "--seed"], None),
    (&["gen", "--seed", "1", "--seed=1"], None),
    (&["--", "verilog"], None),
    (&["--help"], None),
    (&["build"], None),
    (&["stats"], None),
    (&[], None),
];

#[test]
fn words_are_read_as_told(rt: HostRuntime) -> Result<(), Fail> {
    for (list, job) in &CASES {
        let list = words(rt.alloc(), *list)?;
        let told = match *job {
            Some((verb, workers, flat, seed)) => Ok(Job {
                verb,
                workers,
                flat,
                seed,
            }),
            None => Err(WordStop::Words),
        };
        assert!(rt; read_words(rt.alloc(), &list) == told);
    }
    Ok(())
}
