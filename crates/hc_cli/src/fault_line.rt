//! The line that tells a fault.
ghost use Rattle.std.specs.Prelude.{◌≡◌, ◌++◌, OnOk, OnErr, Some, codes, decimal, flat_map};
ghost use Rattle.std.specs.Io.KnownBytes.{Appends};
ghost use Rattle.hc_outside.specs.Causes.{HasCause};
ghost use Rattle.hc_outside.specs.Moves.{AppendsFront};
ghost use Rattle.hc_cli.specs.FaultLine.{fault_line, index_text, kind_text, path_text, step_text, steps_text};
ghost use Rattle.hc_cli.specs.Sent.{IsSent};

use hc_fault::{Fault, FaultKind, Ident, Name, Path};
use hc_outside::{Failed, Sink, write_all};
use itoa::Buffer;

/// The number and the name of a kind.
fn kind_text(kind: FaultKind) -> &'static str
    ensures { result.now ≡ kind_text kind }
{
    match kind {
        FaultKind::TooLong => "F1 TooLong",
        FaultKind::NotAscii => "F2 NotAscii",
        FaultKind::Syntax => "F3 Syntax",
        FaultKind::Misplaced => "F4 Misplaced",
        FaultKind::Unclosed => "F5 Unclosed",
        FaultKind::RepeatedCircuit => "F6 RepeatedCircuit",
        FaultKind::ReservedName => "F7 ReservedName",
        FaultKind::NoTop => "F8 NoTop",
        FaultKind::UnknownCircuit => "F9 UnknownCircuit",
        FaultKind::ArgCount => "F10 ArgCount",
        FaultKind::Number => "F11 Number",
        FaultKind::Width => "F12 Width",
        FaultKind::UnknownName => "F13 UnknownName",
        FaultKind::RepeatedName => "F14 RepeatedName",
        FaultKind::WidthMismatch => "F15 WidthMismatch",
        FaultKind::SelectRange => "F16 SelectRange",
        FaultKind::MuxCount => "F17 MuxCount",
        FaultKind::ConstRange => "F18 ConstRange",
        FaultKind::MemorySize => "F19 MemorySize",
        FaultKind::DrivenTwice => "F20 DrivenTwice",
        FaultKind::UnknownPort => "F21 UnknownPort",
        FaultKind::RepeatedPort => "F22 RepeatedPort",
        FaultKind::MissingPort => "F23 MissingPort",
        FaultKind::NoOutputs => "F24 NoOutputs",
        FaultKind::PortCount => "F25 PortCount",
        FaultKind::TooManyStatements => "F26 TooManyStatements",
        FaultKind::CircuitWeight => "F27 CircuitWeight",
        FaultKind::Undriven => "F28 Undriven",
        FaultKind::TooDeep => "F29 TooDeep",
        FaultKind::TooManyInstances => "F30 TooManyInstances",
        FaultKind::DesignWeight => "F31 DesignWeight",
        FaultKind::DesignWords => "F32 DesignWords",
        FaultKind::CombLoop => "F33 CombLoop",
        FaultKind::BenchPort => "F34 BenchPort",
        FaultKind::BenchValue => "F35 BenchValue",
        FaultKind::TooManyCycles => "F36 TooManyCycles",
        FaultKind::UnknownOp => "F37 UnknownOp",
    }
}

/// Writes pieces one after another.
fn write_pieces<K: Sink>(to: &mut K, pieces: &[&[u8]]) -> Result<(), Failed>
    ensures { IsSent (K.taken to.old) (K.taken to.new) (K.faults to.old) (K.faults to.new) result (flat_map (λ p. p.now) pieces.now) }
{
    'pieces: for piece in pieces {
        write_all(to, piece)?;
    }
    Ok(())
}

/// Writes an instance that has an index.
fn write_indexed<K: Sink>(to: &mut K, name: &Name, index: i64) -> Result<(), Failed>
    ensures { IsSent (K.taken to.old) (K.taken to.new) (K.faults to.old) (K.faults to.new) result (codes "/" ++ name.now ++ index_text (Some index)) }
{
    let mut digits = Buffer::new();
    let index = digits.format(index).as_bytes();
    write_pieces(to, &[b"/", name.bytes(), b"[", index, b"]"])
}

/// Writes an instance on a path.
fn write_step<K: Sink>(to: &mut K, step: &Ident) -> Result<(), Failed>
    ensures { IsSent (K.taken to.old) (K.taken to.new) (K.faults to.old) (K.faults to.new) result (step_text step.now) }
{
    match step.index {
        Some(index) => write_indexed(to, &step.name, index),
        None => write_pieces(to, &[b"/", step.name.bytes()]),
    }
}

/// Writes instances one after another.
fn write_steps<K: Sink>(to: &mut K, steps: &[Ident]) -> Result<(), Failed>
    ensures { IsSent (K.taken to.old) (K.taken to.new) (K.faults to.old) (K.faults to.new) result (flat_map step_text steps.now) }
{
    'steps: for step in steps {
        write_step(to, step)?;
    }
    Ok(())
}

/// Writes a path.
fn write_path<K: Sink>(to: &mut K, path: &Option<Path>) -> Result<(), Failed>
    ensures { IsSent (K.taken to.old) (K.taken to.new) (K.faults to.old) (K.faults to.new) result (path_text path.now) }
{
    match path {
        None => write_all(to, b"-"),
        Some(path) => {
            let steps = path.steps.as_slice();
            if steps.is_empty() {
                write_all(to, b"/")
            } else {
                write_steps(to, steps)
            }
        }
    }
}

/// Writes a line's front, up to its path.
fn write_front<K: Sink>(to: &mut K, fault: &Fault) -> Result<(), Failed>
    ensures { IsSent (K.taken to.old) (K.taken to.new) (K.faults to.old) (K.faults to.new) result (kind_text fault.now.kind ++ codes " line " ++ decimal fault.now.line ++ codes " path ") }
{
    let mut digits = Buffer::new();
    let line = digits.format(fault.line).as_bytes();
    write_pieces(
        to,
        &[kind_text(fault.kind).as_bytes(), b" line ", line, b" path "],
    )
}

/// Writes the line that tells a fault: its number and name, the line of the text, and the path of the call, `-` where it
/// has none. It fails only where the sink's count of faults rose, and a front of the line was taken then. It takes no
/// memory.
pub fn write_fault<K: Sink>(fault: &Fault, to: &mut K) -> Result<(), Failed>
    ensures all { OnOk result (Appends (K.taken to.old) (K.taken to.new) (fault_line fault.now)) }
    ensures front { OnErr result (AppendsFront (K.taken to.old) (K.taken to.new) (fault_line fault.now)) }
    ensures cause { HasCause (K.faults to.old) (K.faults to.new) result }
{
    write_front(to, fault)?;
    write_path(to, &fault.path)?;
    write_all(to, b"\n")
}
