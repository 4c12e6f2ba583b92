//! Bytes, numbers and ranges at the end of a text.
ghost use Rattle.std.specs.Prelude.{◌≡◌, ◌+◌, ◌/◌, ◌<◌, ◌++◌, ◌∷◌, [], OnOk, codes, decimal};
ghost use Rattle.hc_bits.specs.Digits.{digit, hex, hex_of};
ghost use Rattle.hc_verilog.specs.Templates.{range, literal};

use hc_fault::NoMemory;
use itoa::Buffer;

/// Adds these bytes.
pub(crate) fn push(out: &mut Vec<u8>, bytes: &[u8]) -> Result<(), NoMemory>
    ensures { OnOk result (out.new.items ≡ out.old.items ++ bytes.now) }
{
    out.extend_from_slice(bytes)?;
    Ok(())
}

/// Adds a number in decimal digits.
pub(crate) fn push_decimal(out: &mut Vec<u8>, number: u32) -> Result<(), NoMemory>
    ensures { OnOk result (out.new.items ≡ out.old.items ++ decimal number) }
{
    let mut digits = Buffer::new();
    push(out, digits.format(number).as_bytes())
}

/// A lower-case hexadecimal digit.
fn digit_of(value: u8) -> u8
    requires { value < 16 }
    ensures { result ≡ digit value }
{
    if value < 10 {
        b'0' + value
    } else {
        b'a' - 10 + value
    }
}

/// Adds this many hexadecimal digits, the lowest ones of the value.
fn push_hex(out: &mut Vec<u8>, digits: u32, value: u128) -> Result<(), NoMemory>
    ensures { OnOk result (out.new.items ≡ out.old.items ++ hex digits value) }
{
    if digits > 0 {
        push_hex(out, digits - 1, value / 16)?;
        push(out, &[digit_of((value % 16) as u8)])?;
    }
    Ok(())
}

#[tactic(auto, unfolding(crate::specs::Templates::range))]
/// Adds the range of a signal of this width.
pub(crate) fn push_range(out: &mut Vec<u8>, width: u32) -> Result<(), NoMemory>
    ensures { OnOk result (out.new.items ≡ out.old.items ++ range width) }
{
    push(out, b"[")?;
    push_decimal(out, width.saturating_sub(1))?;
    push(out, b":0]")
}

/// Adds a number of this width.
#[tactic(auto, unfolding(crate::specs::Templates::literal))]
pub(crate) fn push_literal(out: &mut Vec<u8>, width: u32, value: u128) -> Result<(), NoMemory>
    ensures { OnOk result (out.new.items ≡ out.old.items ++ literal width value) }
{
    push_decimal(out, width)?;
    push(out, b"'h")?;
    push_hex(out, width.div_ceil(4), value)
}
