//! The program: the standard streams, the operations of the catalogue, and the top call.
#![tactic(auto)]

use hc_bits::OpKind;
use hc_cli::run;
use hc_ops::functions::{greatest, leading_zeros, least, popcount, reverse, saturating_sum};
use hc_ops::{CombOp, OpTable};
use hc_outside::{Sink, Source, StdSink, StdSource};
use hc_workers::NoGate;
use std::alloc::Global;
use std::io::LineWriter;
use std::process::ExitCode;
use std::sync::Wait;
use std::thread::Threads;
use std::{env, io};

/// The command line, without the program's own name.
fn words(rt: &HostRuntime) -> io::Result<Vec<String>> {
    let mut words = Vec::new(rt.alloc());
    for word in env::args(rt)?.skip(1) {
        words.push(word)?;
    }
    Ok(words)
}

/// The status of the top call, with the operations of the catalogue.
fn status<R: Threads + Wait + Sync, S: Source, K: Sink>(
    rt: &R,
    alloc: Global,
    words: &[String],
    input: &mut S,
    output: &mut K,
) -> io::Result<u8> {
    let ops = OpTable::new(vec![in alloc;
        CombOp::new(OpKind::Popcount, Box::new(alloc, popcount)?),
        CombOp::new(OpKind::Clz, Box::new(alloc, leading_zeros)?),
        CombOp::new(OpKind::Rev, Box::new(alloc, reverse)?),
        CombOp::new(OpKind::Min, Box::new(alloc, least)?),
        CombOp::new(OpKind::Max, Box::new(alloc, greatest)?),
        CombOp::new(OpKind::SatAdd, Box::new(alloc, saturating_sum)?),
    ]?);
    Ok(run(rt, alloc, words, &ops, input, output, &NoGate).status)
}

fn main(rt: HostRuntime) -> ExitCode {
    let alloc = rt.alloc();
    let (Ok(words), Ok(writer)) = (words(&rt), LineWriter::new(alloc, rt.stdout())) else {
        return ExitCode::from(5);
    };
    let mut input = StdSource::new(rt.stdin());
    let mut output = StdSink::new(writer);
    let status = status(&rt, alloc, &words, &mut input, &mut output);
    ExitCode::from(status.unwrap_or(5))
}
