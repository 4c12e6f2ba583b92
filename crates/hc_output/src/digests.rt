//! Lines with digests.
ghost use Rattle.std.specs.Prelude.{◌≡◌, ◌++◌, ◌∷◌, [], OnOk, decimal};
ghost use Rattle.hc_output.specs.Digests.{digest_line};

use hc_fault::NoMemory;
use hc_workload::digest_of;
use itoa::Buffer;

/// Adds a title with a number behind it.
fn push_number(text: &mut Vec<u8>, title: &[u8], number: u64) -> Result<(), NoMemory>
    ensures { OnOk result (text.new.items ≡ text.old.items ++ (title.now ++ decimal number)) }
{
    let mut digits = Buffer::new();
    text.extend_from_slice(title)?;
    text.extend_from_slice(digits.format(number).as_bytes())?;
    Ok(())
}

/// Adds a line: a title, how many bytes there are, and their digest.
pub(crate) fn push_digest_line(
    text: &mut Vec<u8>,
    title: &[u8],
    bytes: &[u8],
) -> Result<(), NoMemory>
    ensures { OnOk result (text.new.items ≡ text.old.items ++ (digest_line title.now bytes.now ++ 10 ∷ [])) }
{
    push_number(text, title, bytes.len() as u64)?;
    push_number(text, b" ", digest_of(bytes))?;
    text.push(b'\n')?;
    Ok(())
}
