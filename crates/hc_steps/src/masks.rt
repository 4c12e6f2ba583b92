//! Masks of inputs, bit k for input k.
ghost use Rattle.std.specs.Prelude.{◌≡◌, ◌^◌, ◌-◌, min, true, IsBitSet};

/// Whether a bit of a mask is 1.
pub fn is_bit(mask: u128, k: u32) -> bool
    ensures { result ≡ true → IsBitSet mask k }
{
    if k >= 128 {
        return false;
    }
    mask & (1 << k) != 0
}

/// A mask of so many inputs.
pub fn all_of(count: usize) -> u128
    ensures { result ≡ 2 ^ min count 128 - 1 }
{
    if count < 128 {
        (1 << count) - 1
    } else {
        u128::MAX
    }
}
