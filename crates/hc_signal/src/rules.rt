ghost use Rattle.std.specs.Prelude.{◌≡◌, ◌<◌, ◌≤◌, ◌^◌, pos, nat_le, IfOk};
ghost use Rattle.hc_bits.specs.BitVector.{IsWidth};
ghost use Rattle.hc_signal.specs.Rules.{IsVerdict, width_rule, two_rule, two_width, select_rule, memory_rule, write_rule, label_rule, drive_rule};

use crate::signal::Op2;
use hc_fault::FaultKind;

/// The number as a width from 1 to 128, else F12.
pub fn as_width(width: i64) -> Result<u32, FaultKind>
    ensures value { IfOk result (λ w. (width ≡ pos w) × IsWidth w) }
    ensures rule { IsVerdict result (width_rule width) }
{
    if (1..=128).contains(&width) {
        Ok(width as u32)
    } else {
        Err(FaultKind::Width)
    }
}

/// The width that an operator gives operands of these widths. F12 where a product is wider than 128 bits; F15 where
/// operands of another operator differ in width.
pub fn width_of_two(op: Op2, a: u32, b: u32) -> Result<u32, FaultKind>
    requires a_width { a ≤ 128 }
    requires b_width { b ≤ 128 }
    ensures value { IfOk result (λ w. w ≡ two_width op a b) }
    ensures rule { IsVerdict result (two_rule op a b) }
{
    match op {
        Op2::Mulu | Op2::Muls => {
            if a + b <= 128 {
                Ok(a + b)
            } else {
                Err(FaultKind::Width)
            }
        }
        _ if a != b => Err(FaultKind::WidthMismatch),
        Op2::Eq | Op2::Lt => Ok(1),
        Op2::Add | Op2::Sub | Op2::And | Op2::Or | Op2::Xor => Ok(a),
    }
}

/// Whether a selector of this width has so many numbers.
pub fn fits_selector(count: usize, width: u32) -> bool
    ensures { result ≡ nat_le count (2 ^ width) }
{
    width >= 64 || count as u64 <= 1 << width
}

/// The range as places of bits. F16 unless `0 <= lo <= hi` and `hi` is below the width.
pub fn range_of_select(width: u32, hi: i64, lo: i64) -> Result<(u32, u32), FaultKind>
    ensures value { IfOk result (λ r. (hi ≡ pos r.0) × (lo ≡ pos r.1) × (r.1 ≤ r.0) × (r.0 < width)) }
    ensures rule { IsVerdict result (select_rule width hi lo) }
{
    if 0 <= lo && lo <= hi && hi < i64::from(width) {
        Ok((hi as u32, lo as u32))
    } else {
        Err(FaultKind::SelectRange)
    }
}

/// The size and the width of a memory. F12 where the width is not 1 to 128, else F19 where the size is not 1 to 65,536.
pub fn size_and_width(size: i64, width: i64) -> Result<(u32, u32), FaultKind>
    ensures size { IfOk result (λ m. (size ≡ pos m.0) × (1 ≤ m.0) × (m.0 ≤ 65536)) }
    ensures width { IfOk result (λ m. (width ≡ pos m.1) × IsWidth m.1) }
    ensures rule { IsVerdict result (memory_rule size width) }
{
    let width = as_width(width)?;
    if (1..=65_536).contains(&size) {
        Ok((size as u32, width))
    } else {
        Err(FaultKind::MemorySize)
    }
}

/// F15 where a wire and its driver differ in width, else F20 where the wire is driven already.
pub fn check_drive(wire: u32, from: u32, is_driven: bool) -> Result<(), FaultKind>
    ensures { IsVerdict result (drive_rule wire from is_driven) }
{
    if wire != from {
        Err(FaultKind::WidthMismatch)
    } else if is_driven {
        Err(FaultKind::DrivenTwice)
    } else {
        Ok(())
    }
}

/// F15 where the enable of a write is not one bit wide or its value has not the width of the memory.
pub fn check_write(enable: u32, value: u32, memory: u32) -> Result<(), FaultKind>
    ensures { IsVerdict result (write_rule enable value memory) }
{
    if enable == 1 && value == memory {
        Ok(())
    } else {
        Err(FaultKind::WidthMismatch)
    }
}

/// F14 where there is a label, or it is put on the node of a port.
pub fn check_label(has_label: bool, is_port: bool) -> Result<(), FaultKind>
    ensures { IsVerdict result (label_rule has_label is_port) }
{
    if has_label || is_port {
        Err(FaultKind::RepeatedName)
    } else {
        Ok(())
    }
}
