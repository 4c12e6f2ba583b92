ghost use Rattle.std.specs.Prelude.{◌≡◌, [], IfOk};
ghost use Rattle.hc_lang.specs.Reads as reads;

use crate::reserved::{is_barred, is_reserved};
use crate::row::NumberedLine;
use hc_fault::NoMemory;
use hc_lines::{Line, What};
use std::alloc::Global;
use std::collections::HashSet;

/// The line of the first circuit whose name an earlier one has.
pub(crate) fn first_repeated(alloc: Global, rows: &[NumberedLine]) -> Result<Option<u32>, NoMemory>
    ensures { IfOk result (λ line. line ≡ reads.first_repeated [] rows.now) }
{
    let mut seen: HashSet<&[u8]> = HashSet::new(alloc);
    'row: for (number, line) in rows {
        if let Line::Circuit { name, .. } = line {
            if !seen.insert(name.bytes())? {
                return Ok(Some(*number));
            }
        }
    }
    Ok(None)
}

fn label_is_reserved(what: &What) -> bool
    ensures { result ≡ reads.has_reserved_label what.now }
{
    match what {
        What::Label { label, .. } => is_reserved(label.bytes()),
        _ => false,
    }
}

/// Whether the line gives a name that is kept.
fn has_reserved(line: &Line) -> bool
    ensures { result ≡ reads.has_reserved line.now }
{
    match line {
        Line::Circuit { name, .. } => is_barred(name.bytes()),
        Line::Port { name, .. } => is_reserved(name.bytes()),
        Line::Simple(what) => label_is_reserved(what),
        _ => false,
    }
}

/// The first line that gives a name that is kept.
pub(crate) fn first_reserved(rows: &[NumberedLine]) -> Option<u32>
    ensures { result ≡ reads.first_reserved rows.now }
{
    'row: for (number, line) in rows {
        if has_reserved(line) {
            return Some(*number);
        }
    }
    None
}
