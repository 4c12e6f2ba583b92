//! Widths and constants of written numbers.
ghost use Rattle.std.specs.Prelude.{◌≡◌, ◌≤◌, ◌<◌, ◌-◌, ◌^◌, IfOk};
ghost use Rattle.hc_bits.specs.BitVector.{IsWidth};
ghost use Rattle.hc_unfold.specs.Drawing as spec;
ghost use Rattle.hc_unfold.specs.Derived.{sign_bit};

use hc_bits::Bits;
use hc_fault::FaultKind;

/// A width in bits. F12 where the number is not 1 to 128.
pub fn as_width(width: i64) -> Result<u32, FaultKind>
    ensures value { result ≡ spec.as_width width }
    ensures range { IfOk result (λ w. IsWidth w) }
{
    if (1..=128).contains(&width) {
        Ok(width as u32)
    } else {
        Err(FaultKind::Width)
    }
}

/// The constant of a literal. F12, or F18 where the value has more bits.
pub(crate) fn literal(width: i64, value: u128) -> Result<Bits, FaultKind>
    ensures { result ≡ spec.literal width value }
{
    let width = as_width(width)?;
    Bits::new(width, value).ok_or(FaultKind::ConstRange)
}

/// The constant of a number. F12, or F18 where the width has no bit pattern for it.
pub(crate) fn number_bits(width: i64, number: i64) -> Result<Bits, FaultKind>
    ensures { result ≡ spec.number_bits width number }
{
    let width = as_width(width)?;
    Bits::from_i64(width, number).ok_or(FaultKind::ConstRange)
}

/// Zero.
pub(crate) fn zero(width: u32) -> Bits
    requires { IsWidth width }
    ensures { result ≡ record { width = width; value = 0 } }
{
    match Bits::new(width, 0) {
        Some(bits) => bits,
        None => unreachable!(),
    }
}

/// The highest bit alone.
pub(crate) fn sign_bit(width: u32) -> Bits
    requires { IsWidth width }
    ensures { result ≡ sign_bit width }
{
    match Bits::new(width, 1 << (width - 1)) {
        Some(bits) => bits,
        None => unreachable!(),
    }
}
