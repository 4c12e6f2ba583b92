ghost use Rattle.std.specs.Prelude.{◌≡◌, ◌≤◌, ◌<◌, ◌^◌, length};
ghost use Rattle.hc_tokens.specs.Tokens.{is_allowed};
ghost use Rattle.hc_lang.specs.Reads.{Answers};
ghost use Rattle.hc_lang.specs.Found as f;
ghost use Rattle.hc_lang.specs.Found.{Gives};
ghost use Rattle.hc_lang.specs.Structure as s;
ghost use Rattle.hc_lang.specs.TextReading as t;

use crate::circuit_places::placed;
use crate::names::{first_repeated, first_reserved};
use crate::outline::{Block, Outline, Place};
use crate::row::{NumberedLine, rows};
use crate::stack::Stack;
use crate::structure::outlined;
use crate::text_stop::TextStop;
use crate::tree::Design;
use hc_fault::{Fault, FaultKind, ItemList, Refused};
use std::alloc::Global;

/// Whether a text may have the byte.
fn is_allowed(byte: u8) -> bool
    ensures { result ≡ is_allowed byte }
{
    byte == b'\t' || byte == b'\n' || byte == b'\r' || (32 <= byte && byte <= 126)
}

/// The line of the first byte that is not allowed.
fn bad_line(text: &[u8]) -> Option<u32>
    requires { length text.now < 2 ^ 31 }
    ensures { result ≡ t.bad_line 1 text.now }
{
    let mut line: u32 = 1;
    'byte: for byte in text {
        if !is_allowed(*byte) {
            return Some(line);
        }
        if *byte == b'\n' {
            line += 1;
        }
    }
    None
}

/// A fault of this kind, where there is a line for it.
fn pass(kind: FaultKind, line: Option<u32>) -> Result<(), TextStop>
    ensures { Gives (λ x. x) result (f.pass kind line) }
{
    match line {
        None => Ok(()),
        Some(line) => Err(TextStop::Fault(kind, line)),
    }
}

/// The line of the innermost block.
fn innermost(blocks: &Stack<Block>) -> Option<u32>
    ensures { result ≡ s.innermost blocks.now }
{
    match blocks.top() {
        None => None,
        Some(block) => Some(block.line),
    }
}

/// The line of the innermost block, or of the bench, that is open.
fn open_line(place: &Place) -> Option<u32>
    ensures { result ≡ s.open_line place.now }
{
    match place {
        Place::Circuit(circuit) => innermost(&circuit.blocks),
        Place::Bench { line, .. } => Some(*line),
        _ => None,
    }
}

/// The design, where a `top` line came and no bench is open.
fn finished(alloc: Global, outline: Outline) -> Result<Design, TextStop>
    ensures { Gives (λ x. x) result (t.finished (s.design_at outline.circuits outline.place)) }
{
    let Outline { circuits, place } = outline;
    match place {
        Place::Top(top) => Ok(Design {
            circuits: placed(alloc, circuits)?,
            top,
            bench: ItemList::new(alloc),
        }),
        Place::End { top, steps } => Ok(Design {
            circuits: placed(alloc, circuits)?,
            top,
            bench: steps,
        }),
        _ => Err(TextStop::Fault(FaultKind::NoTop, 0)),
    }
}

/// The design of the rows, or the first fault after the line grammar's.
#[tactic(auto, unfolding(crate::specs::TextReading::of_rows))]
fn of_rows(alloc: Global, rows: ItemList<NumberedLine>, most: usize) -> Result<Design, TextStop>
    ensures { Gives (λ x. x) result (t.of_rows most rows) }
{
    let repeated = first_repeated(alloc, rows.as_slice())?;
    let reserved = first_reserved(rows.as_slice());
    let outline = outlined(alloc, rows, most)?;
    pass(FaultKind::Unclosed, open_line(&outline.place))?;
    pass(FaultKind::RepeatedCircuit, repeated)?;
    pass(FaultKind::ReservedName, reserved)?;
    finished(alloc, outline)
}

/// The design of a text, with at most `depth` brackets open in a line and at most `most` blocks.
#[tactic(auto, unfolding(crate::specs::TextReading::parsed))]
fn parsed(alloc: Global, text: &[u8], depth: usize, most: usize) -> Result<Design, TextStop>
    requires { length text.now < 2 ^ 31 }
    ensures { Gives (λ x. x) result (t.parsed depth most text.now) }
{
    pass(FaultKind::NotAscii, bad_line(text))?;
    let rows = rows(alloc, text, depth)?;
    of_rows(alloc, rows, most)
}

/// The tree that the grammar gives to a text of at most 4 MiB.
///
/// A `Fault` is the first of `NotAscii`, `Syntax`, `Misplaced`, `Unclosed`, `RepeatedCircuit`, `ReservedName` and
/// `NoTop`, each at its first line, counted from 1; `NoTop` has line 0. It has no path.
pub fn parse(alloc: Global, text: &[u8]) -> Result<Design, Refused>
    requires { length text.now ≤ 4194304 }
    ensures { Answers text.now result }
{
    match parsed(alloc, text, 64, 64) {
        Ok(design) => Ok(design),
        Err(TextStop::Fault(kind, line)) => Err(Refused::Fault(Fault {
            kind,
            line,
            path: None,
        })),
        Err(TextStop::Memory) => Err(Refused::NoMemory),
    }
}
