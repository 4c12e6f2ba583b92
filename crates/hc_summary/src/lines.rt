//! The lines of a summary.
ghost use Rattle.std.specs.Prelude.{◌≡◌, ◌++◌, ◌∷◌, [], IfOk, OnOk};
ghost use Rattle.hc_dbstate.specs.Elaboration.{hier_view};
ghost use Rattle.hc_summary.specs.Summary.{count_line, summary_text};

use hc_dbstate::Hier;
use hc_fault::NoMemory;
use itoa::Buffer;
use std::alloc::Global;

/// Adds a line: a title with a number behind it.
fn push_line(text: &mut Vec<u8>, title: &[u8], number: u128) -> Result<(), NoMemory>
    ensures { OnOk result (text.new.items ≡ text.old.items ++ (count_line title.now number ++ 10 ∷ [])) }
{
    let mut digits = Buffer::new();
    text.extend_from_slice(title)?;
    text.extend_from_slice(digits.format(number).as_bytes())?;
    text.push(b'\n')?;
    Ok(())
}

/// The six lines for a hierarchy, with how many entries, modules and cycles there are.
pub(crate) fn text_of(
    alloc: Global,
    hier: &Hier,
    entries: usize,
    modules: usize,
    cycles: u128,
) -> Result<Vec<u8>, NoMemory>
    ensures { IfOk result (λ text. text.items ≡ summary_text (record {
      instances = (hier_view hier.now).own.instances;
      entries = entries;
      modules = modules;
      weight = (hier_view hier.now).own.weight;
      words = (hier_view hier.now).own.words;
      cycles = cycles;
    })) }
{
    let mut text = Vec::new(alloc);
    push_line(&mut text, b"instances ", hier.instances as u128)?;
    push_line(&mut text, b"entries ", entries as u128)?;
    push_line(&mut text, b"modules ", modules as u128)?;
    push_line(&mut text, b"weight ", hier.weight as u128)?;
    push_line(&mut text, b"words ", hier.words as u128)?;
    push_line(&mut text, b"cycles ", cycles)?;
    Ok(text)
}
