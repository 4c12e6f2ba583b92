ghost use Rattle.std.specs.Prelude.{◌≡◌, ◌≤◌, ◌<◌, ◌+◌, ◌-◌, ◌*◌, ◌/◌, ◌%◌, ◌^◌, [], ◌∷◌, length, min, slice_get};
ghost use Rattle.std.specs.Option.{SomeIff};
ghost use Rattle.hc_bits.specs.BitVector.{BitVector, IsBitVector, IsWidth, from_i64, signed, bit, add, sub, and_, or_, xor_, eq_bit, lt_bit, mulu, muls, not_, select, cat, mux};
ghost use Rattle.hc_bits.specs.Catalogue.{operation, bits_of};
ghost use Rattle.hc_bits.specs.declared.kind.OpKind.TheVariants.{Popcount, Clz, Rev, Min, Max, SatAdd};

use crate::kind::bits_of;
use std::marker::Model;

/// A number of a stated width, from 1 to 128 bits. Its value is below 2^width.
#[derive(Clone, Copy, Debug, PartialEq, Eq)]
pub struct Bits {
    width: u32,
    value: u128,
}

impl Model for Bits {
    ghost use Rattle.hc_bits.specs.BitVector.{BitVector, IsBitVector};

    ghost Value = { BitVector };

    ghost view = { λ b. record { width = b.width; value = b.value } };

    ghost invariant = { λ b. IsBitVector (record { width = b.width; value = b.value }) };

    ghost inverse = { λ v. record { width = v.width; value = v.value } };
}

impl Bits {
    /// This value in this width. None where the width is not from 1 to 128, and where the value is
    /// not below 2^width.
    pub fn new(width: u32, value: u128) -> Option<Bits>
        ensures { let v : BitVector = record { width = width; value = value } in SomeIff result (IsBitVector v) v }
    {
        if (1..=128).contains(&width) && value <= mask(width) {
            Some(Bits { width, value })
        } else {
            None
        }
    }

    /// The bit pattern of `n` in this width: unsigned where `n` is not negative, two's complement
    /// where it is. None where the width has no pattern for it.
    pub fn from_i64(width: u32, n: i64) -> Option<Bits>
        requires { IsWidth width }
        ensures { result ≡ from_i64 width n }
    {
        let size = u128::from(n.unsigned_abs());
        if n >= 0 {
            Bits::new(width, size)
        } else if size <= 1 << (width - 1) {
            let value = mask(width) - size + 1;
            Some(Bits { width, value })
        } else {
            None
        }
    }

    /// The `width` lowest bits of a value.
    #[tactic(auto, using(std::proofs::lemmas::Nat::and_mask))]
    fn lowest(width: u32, value: u128) -> Bits
        requires { IsWidth width }
        ensures { result ≡ record { width = width; value = value % 2 ^ width } }
    {
        Bits {
            width,
            value: value & mask(width),
        }
    }

    /// One bit, 1 where the test holds.
    fn bit(holds: bool) -> Bits
        ensures { result ≡ bit holds }
    {
        Bits {
            width: 1,
            value: u128::from(holds),
        }
    }

    /// A count of at most `width`, in as many bits as the number `width` needs.
    #[tactic(auto, using(crate::proofs::Counts::count_width))]
    fn count(width: u32, number: u32) -> Bits
        requires width { IsWidth width }
        requires most { number ≤ width }
        ensures { result ≡ record { width = bits_of width; value = number } }
    {
        Bits {
            width: bits_of(u64::from(width)),
            value: u128::from(number),
        }
    }

    /// The width in bits, from 1 to 128.
    pub fn width(self) -> u32
        ensures width { result ≡ self.width }
        ensures lawful { IsBitVector self }
    {
        self.width
    }

    /// The value, unsigned, below 2^width.
    pub fn value(self) -> u128
        ensures value { result ≡ self.value }
        ensures lawful { IsBitVector self }
    {
        self.value
    }

    /// The sum, modulo 2^width, of two operands of one width.
    #[tactic(auto, using(crate::proofs::Masks::low_of_wrapped))]
    pub fn add(self, other: Bits) -> Bits
        requires { self.width ≡ other.width }
        ensures { result ≡ add self other }
    {
        Bits::lowest(self.width, self.value.wrapping_add(other.value))
    }

    /// The difference, modulo 2^width, of two operands of one width.
    #[tactic(auto, using(crate::proofs::Masks::low_of_wrapped, crate::proofs::Masks::low_of_difference))]
    pub fn sub(self, other: Bits) -> Bits
        requires { self.width ≡ other.width }
        ensures { result ≡ sub self other }
    {
        Bits::lowest(self.width, self.value.wrapping_sub(other.value))
    }

    /// The bitwise and of two operands of one width.
    pub fn and(self, other: Bits) -> Bits
        requires { self.width ≡ other.width }
        ensures { result ≡ and_ self other }
    {
        Bits {
            width: self.width,
            value: self.value & other.value,
        }
    }

    /// The bitwise or of two operands of one width.
    #[tactic(auto, using(std::proofs::lemmas::Nat::or_lt))]
    pub fn or(self, other: Bits) -> Bits
        requires { self.width ≡ other.width }
        ensures { result ≡ or_ self other }
    {
        Bits {
            width: self.width,
            value: self.value | other.value,
        }
    }

    /// The bitwise exclusive or of two operands of one width.
    #[tactic(auto, using(std::proofs::lemmas::Nat::xor_lt))]
    pub fn xor(self, other: Bits) -> Bits
        requires { self.width ≡ other.width }
        ensures { result ≡ xor_ self other }
    {
        Bits {
            width: self.width,
            value: self.value ^ other.value,
        }
    }

    /// One bit, 1 where two operands of one width are equal.
    pub fn eq_bit(self, other: Bits) -> Bits
        requires { self.width ≡ other.width }
        ensures { result ≡ eq_bit self other }
    {
        Bits::bit(self.value == other.value)
    }

    /// One bit, 1 where the first of two operands of one width is the lesser, unsigned.
    pub fn lt_bit(self, other: Bits) -> Bits
        requires { self.width ≡ other.width }
        ensures { result ≡ lt_bit self other }
    {
        Bits::bit(self.value < other.value)
    }

    /// The unsigned product, as wide as both operands together: at most 128 bits.
    #[tactic(auto, using(crate::proofs::Masks::product_fits, crate::proofs::Masks::product_below))]
    pub fn mulu(self, other: Bits) -> Bits
        requires { self.width + other.width ≤ 128 }
        ensures { result ≡ mulu self other }
    {
        Bits {
            width: self.width + other.width,
            value: self.value * other.value,
        }
    }

    /// The product of two's complement numbers, as wide as both operands together: at most 128
    /// bits.
    pub fn muls(self, other: Bits) -> Bits
        requires { self.width + other.width ≤ 128 }
        ensures { result ≡ muls self other }
    {
        let width = self.width + other.width;
        let product = self.signed() * other.signed();
        Bits::lowest(width, product.cast_unsigned())
    }

    /// The two's complement number of the bits.
    fn signed(self) -> i128
        ensures { result ≡ signed self }
    {
        let unused = u128::BITS - self.width;
        (self.value << unused).cast_signed() >> unused
    }

    /// Each bit inverted.
    #[tactic(auto, using(crate::proofs::Masks::low_of_not))]
    pub fn not(self) -> Bits
        ensures { result ≡ not_ self }
    {
        Bits::lowest(self.width, !self.value)
    }

    /// The bits from `hi` down to `lo`, both included, counted from 0 at the lowest.
    pub fn select(self, hi: u32, lo: u32) -> Bits
        requires order { lo ≤ hi }
        requires within { hi < self.width }
        ensures { result ≡ select self hi lo }
    {
        Bits::lowest(hi - lo + 1, self.value >> lo)
    }

    /// These bits above those of `low`: at most 128 bits.
    #[tactic(auto, using(crate::proofs::Masks::cat_is, crate::proofs::Masks::cat_below))]
    pub fn cat(self, low: Bits) -> Bits
        requires { self.width + low.width ≤ 128 }
        ensures { result ≡ cat self low }
    {
        Bits {
            width: self.width + low.width,
            value: self.value << low.width | low.value,
        }
    }

    /// The case at the place that the value gives, counted from 0, and the last case where the
    /// value is past the end. There is at least one.
    pub fn mux(self, cases: &[Bits]) -> Bits
        requires { 1 ≤ length cases.now }
        ensures value { result ≡ mux self cases.now }
        ensures place { slice_get cases.now (min self.value (length cases.now - 1)) ≡ Some result }
    {
        let last = cases.len() - 1;
        let place = self.value.min(last as u128) as usize;
        cases[place]
    }

    /// The number of ones, in as many bits as the width needs as a number.
    #[tactic(auto, using(crate::proofs::Counts::popcount_is, crate::proofs::Counts::ones_within))]
    pub fn popcount(self) -> Bits
        ensures { result ≡ operation Popcount (self ∷ []) }
    {
        Bits::count(self.width, self.value.count_ones())
    }

    /// The number of zeros above the highest one, and the width for 0, in as many bits as the
    /// width needs as a number.
    #[tactic(auto, using(crate::proofs::Counts::leading_zeros_is, crate::proofs::Counts::unused_zeros, crate::proofs::Counts::zeros_within))]
    pub fn leading_zeros(self) -> Bits
        ensures { result ≡ operation Clz (self ∷ []) }
    {
        let unused = u128::BITS - self.width;
        Bits::count(self.width, self.value.leading_zeros() - unused)
    }

    /// The bits in the other order.
    #[tactic(auto, using(crate::proofs::Counts::reversed_is, crate::proofs::Counts::reversed_below))]
    pub fn reverse(self) -> Bits
        ensures { result ≡ operation Rev (self ∷ []) }
    {
        Bits {
            width: self.width,
            value: self.value.reverse_bits() >> (u128::BITS - self.width),
        }
    }

    /// The lesser of two numbers of one width, unsigned.
    pub fn min(self, other: Bits) -> Bits
        requires { self.width ≡ other.width }
        ensures { result ≡ operation Min (self ∷ other ∷ []) }
    {
        Bits {
            width: self.width,
            value: self.value.min(other.value),
        }
    }

    /// The greater of two numbers of one width, unsigned.
    pub fn max(self, other: Bits) -> Bits
        requires { self.width ≡ other.width }
        ensures { result ≡ operation Max (self ∷ other ∷ []) }
    {
        Bits {
            width: self.width,
            value: self.value.max(other.value),
        }
    }

    /// The sum of two numbers of one width, and the greatest value where it is above that.
    pub fn saturating_add(self, other: Bits) -> Bits
        requires { self.width ≡ other.width }
        ensures { result ≡ operation SatAdd (self ∷ other ∷ []) }
    {
        Bits {
            width: self.width,
            value: self.value.saturating_add(other.value).min(mask(self.width)),
        }
    }
}

/// The greatest value of a width: that many ones.

#[tactic(auto, using(crate::proofs::Masks::shifted_ones))]
fn mask(width: u32) -> u128
    requires { IsWidth width }
    ensures { result ≡ 2 ^ width - 1 }
{
    u128::MAX >> (u128::BITS - width)
}
