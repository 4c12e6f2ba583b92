//! A function for each kind. Who makes a table boxes them.
ghost use Rattle.std.specs.Prelude.{◌≡◌};
ghost use Rattle.hc_bits.specs.Catalogue.{operation};
ghost use Rattle.hc_bits.specs.declared.kind.OpKind.TheVariants as kind;
ghost use Rattle.hc_ops.specs.Arguments.{AreLawful};

use hc_bits::Bits;

/// The number of ones.
pub fn popcount(args: &[Bits]) -> Bits
    requires { AreLawful kind.Popcount args.now }
    ensures { result ≡ operation kind.Popcount args.now }
{
    match args {
        [a] => a.popcount(),
        _ => unreachable!(),
    }
}

/// The number of zeros above the highest one, and the width for 0.
pub fn leading_zeros(args: &[Bits]) -> Bits
    requires { AreLawful kind.Clz args.now }
    ensures { result ≡ operation kind.Clz args.now }
{
    match args {
        [a] => a.leading_zeros(),
        _ => unreachable!(),
    }
}

/// The bits in the other order.
pub fn reverse(args: &[Bits]) -> Bits
    requires { AreLawful kind.Rev args.now }
    ensures { result ≡ operation kind.Rev args.now }
{
    match args {
        [a] => a.reverse(),
        _ => unreachable!(),
    }
}

/// The lesser number.
pub fn least(args: &[Bits]) -> Bits
    requires { AreLawful kind.Min args.now }
    ensures { result ≡ operation kind.Min args.now }
{
    match args {
        [a, b] => a.min(*b),
        _ => unreachable!(),
    }
}

/// The greater number.
pub fn greatest(args: &[Bits]) -> Bits
    requires { AreLawful kind.Max args.now }
    ensures { result ≡ operation kind.Max args.now }
{
    match args {
        [a, b] => a.max(*b),
        _ => unreachable!(),
    }
}

/// The sum, and the greatest number of the width where it is above that.
pub fn saturating_sum(args: &[Bits]) -> Bits
    requires { AreLawful kind.SatAdd args.now }
    ensures { result ≡ operation kind.SatAdd args.now }
{
    match args {
        [a, b] => a.saturating_add(*b),
        _ => unreachable!(),
    }
}
