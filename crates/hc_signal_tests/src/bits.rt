ghost use Rattle.std.specs.Prelude.{◌≡◌, ◌≤◌, ◌+◌};

use hc_bits::{Bits, OpKind, bits_of};
use std::process::Abort;

/// Bits of this width and value.
fn bits(rt: &impl Abort, width: u32, value: u128) -> Bits
    ensures { result.width ≡ width }
{
    Bits::new(width, value).expect(rt, "a value of its width")
}

/// add, sub, and, or, xor, eq_bit, lt_bit, min, max, saturating_add
fn of_two_operands(x: Bits, y: Bits) -> [u128; 10]
    requires { x.width ≡ y.width }
{
    [
        x.add(y).value(),
        x.sub(y).value(),
        x.and(y).value(),
        x.or(y).value(),
        x.xor(y).value(),
        x.eq_bit(y).value(),
        x.lt_bit(y).value(),
        x.min(y).value(),
        x.max(y).value(),
        x.saturating_add(y).value(),
    ]
}

/// mulu, muls, cat
fn of_two_widths(x: Bits, y: Bits) -> [u128; 3]
    requires { x.width + y.width ≤ 128 }
{
    [x.mulu(y).value(), x.muls(y).value(), x.cat(y).value()]
}

/// not, popcount, leading_zeros, reverse
fn of_one_operand(x: Bits) -> [u128; 4] {
    [
        x.not().value(),
        x.popcount().value(),
        x.leading_zeros().value(),
        x.reverse().value(),
    ]
}

/// The widths at arguments of 1, 7, 8 and 128 bits.
fn result_widths(kind: OpKind) -> [u32; 4] {
    [
        kind.result_width(1),
        kind.result_width(7),
        kind.result_width(8),
        kind.result_width(128),
    ]
}

#[test]
fn operators_of_two_operands(rt: HostRuntime) {
    for &(width, a, b, want) in &[
        (1, 1, 1, [0, 0, 1, 1, 0, 1, 0, 1, 1, 1]),
        (2, 1, 3, [0, 2, 1, 3, 2, 0, 1, 1, 3, 3]),
        (
            64,
            0x5555555555555555,
            0xaaaaaaaaaaaaaaa7,
            [
                0xfffffffffffffffc,
                0xaaaaaaaaaaaaaaae,
                5,
                0xfffffffffffffff7,
                0xfffffffffffffff2,
                0,
                1,
                0x5555555555555555,
                0xaaaaaaaaaaaaaaa7,
                0xfffffffffffffffc,
            ],
        ),
        (
            65,
            0x1ffffffffffffffff,
            1,
            [
                0,
                0x1fffffffffffffffe,
                1,
                0x1ffffffffffffffff,
                0x1fffffffffffffffe,
                0,
                0,
                1,
                0x1ffffffffffffffff,
                0x1ffffffffffffffff,
            ],
        ),
        (
            65,
            0x15555555555555555,
            0xaaaaaaaaaaaaaaa7,
            [
                0x1fffffffffffffffc,
                0xaaaaaaaaaaaaaaae,
                5,
                0x1fffffffffffffff7,
                0x1fffffffffffffff2,
                0,
                0,
                0xaaaaaaaaaaaaaaa7,
                0x15555555555555555,
                0x1fffffffffffffffc,
            ],
        ),
        (
            127,
            0x55555555555555555555555555555555,
            0x2aaaaaaaaaaaaaaaaaaaaaaaaaaaaaa7,
            [
                0x7ffffffffffffffffffffffffffffffc,
                0x2aaaaaaaaaaaaaaaaaaaaaaaaaaaaaae,
                5,
                0x7ffffffffffffffffffffffffffffff7,
                0x7ffffffffffffffffffffffffffffff2,
                0,
                0,
                0x2aaaaaaaaaaaaaaaaaaaaaaaaaaaaaa7,
                0x55555555555555555555555555555555,
                0x7ffffffffffffffffffffffffffffffc,
            ],
        ),
        (
            128,
            0xffffffffffffffffffffffffffffffff,
            1,
            [
                0,
                0xfffffffffffffffffffffffffffffffe,
                1,
                0xffffffffffffffffffffffffffffffff,
                0xfffffffffffffffffffffffffffffffe,
                0,
                0,
                1,
                0xffffffffffffffffffffffffffffffff,
                0xffffffffffffffffffffffffffffffff,
            ],
        ),
        (
            128,
            0,
            1,
            [
                1,
                0xffffffffffffffffffffffffffffffff,
                0,
                1,
                1,
                0,
                1,
                0,
                1,
                1,
            ],
        ),
        (
            128,
            0x55555555555555555555555555555555,
            0xaaaaaaaaaaaaaaaaaaaaaaaaaaaaaaa7,
            [
                0xfffffffffffffffffffffffffffffffc,
                0xaaaaaaaaaaaaaaaaaaaaaaaaaaaaaaae,
                5,
                0xfffffffffffffffffffffffffffffff7,
                0xfffffffffffffffffffffffffffffff2,
                0,
                1,
                0x55555555555555555555555555555555,
                0xaaaaaaaaaaaaaaaaaaaaaaaaaaaaaaa7,
                0xfffffffffffffffffffffffffffffffc,
            ],
        ),
    ] {
        let x = bits(&rt, width, a);
        let y = bits(&rt, width, b);
        assert_eq!(rt; of_two_operands(x, y), want, "{width} bits, {a} and {b}");
        assert_eq!(rt; x == y, a == b);
    }
}

#[test]
fn products_and_joins(rt: HostRuntime) {
    for &(high, a, low, b, want) in &[
        (1, 1, 1, 1, [1, 1, 3]),
        (1, 1, 2, 2, [2, 2, 6]),
        (4, 15, 4, 15, [0xe1, 1, 0xff]),
        (
            64,
            0xffffffffffffffff,
            64,
            0xffffffffffffffff,
            [
                0xfffffffffffffffe0000000000000001,
                1,
                0xffffffffffffffffffffffffffffffff,
            ],
        ),
        (
            64,
            0x7fffffffffffffff,
            64,
            0x8000000000000000,
            [
                0x3fffffffffffffff8000000000000000,
                0xc0000000000000008000000000000000,
                0x7fffffffffffffff8000000000000000,
            ],
        ),
        (
            65,
            0x1fffffffffffffffe,
            63,
            0x4000000000000005,
            [
                0x80000000000000097ffffffffffffff6,
                0x7ffffffffffffff6,
                0xffffffffffffffff4000000000000005,
            ],
        ),
        (
            127,
            0x40000000000000000000000000000003,
            1,
            1,
            [
                0x40000000000000000000000000000003,
                0x3ffffffffffffffffffffffffffffffd,
                0x80000000000000000000000000000007,
            ],
        ),
        (
            1,
            1,
            127,
            0x7ffffffffffffffffffffffffffffffd,
            [
                0x7ffffffffffffffffffffffffffffffd,
                3,
                0xfffffffffffffffffffffffffffffffd,
            ],
        ),
    ] {
        let x = bits(&rt, high, a);
        let y = bits(&rt, low, b);
        assert!(rt; high + low <= 128);
        assert_eq!(rt;
            of_two_widths(x, y),
            want,
            "{high} bits, {a} and {low} bits, {b}"
        );
    }
}

#[test]
fn operators_of_one_operand(rt: HostRuntime) {
    for &(width, a, counted, want) in &[
        (1, 1, 1, [0, 1, 0, 1]),
        (2, 2, 2, [1, 1, 0, 1]),
        (4, 1, 3, [14, 1, 3, 8]),
        (
            64,
            0xdeadbeef,
            7,
            [0xffffffff21524110, 24, 32, 0xf77db57b00000000],
        ),
        (
            65,
            0x10000000000000006,
            7,
            [0xfffffffffffffff9, 3, 0, 0xc000000000000001],
        ),
        (
            127,
            5,
            7,
            [
                0x7ffffffffffffffffffffffffffffffa,
                2,
                124,
                0x50000000000000000000000000000000,
            ],
        ),
        (128, 0, 8, [0xffffffffffffffffffffffffffffffff, 0, 128, 0]),
        (
            128,
            1,
            8,
            [
                0xfffffffffffffffffffffffffffffffe,
                1,
                127,
                0x80000000000000000000000000000000,
            ],
        ),
        (
            128,
            0xffffffffffffffffffffffffffffffff,
            8,
            [0, 128, 0, 0xffffffffffffffffffffffffffffffff],
        ),
    ] {
        let x = bits(&rt, width, a);
        assert_eq!(rt; of_one_operand(x), want, "{width} bits, {a}");
        assert_eq!(rt; x.popcount().width(), counted);
    }
}

#[test]
fn selects(rt: HostRuntime) {
    for &(width, a, hi, lo, want) in &[
        (1, 1, 0, 0, 1),
        (8, 0xa5, 7, 4, 10),
        (8, 0xa5, 4, 1, 2),
        (65, 0x10000000000000008, 64, 3, 0x2000000000000001),
        (
            127,
            0x7fffffffffffffffffffffffffffffff,
            126,
            0,
            0x7fffffffffffffffffffffffffffffff,
        ),
        (
            128,
            0xfedcba98765432100123456789abcdef,
            127,
            0,
            0xfedcba98765432100123456789abcdef,
        ),
        (128, 0xfedcba98765432100123456789abcdef, 68, 61, 128),
    ] {
        assert!(rt; lo <= hi && hi < width);
        let found = bits(&rt, width, a).select(hi, lo);
        assert_eq!(rt; found.value(), want, "{width} bits, {a}, from {hi} to {lo}");
    }
}

#[test]
fn patterns_of_numbers(rt: HostRuntime) {
    for &(width, n, want) in &[
        (8, -128, Some(128)),
        (8, -129, None),
        (8, 255, Some(0xff)),
        (8, 256, None),
        (1, -1, Some(1)),
        (1, 1, Some(1)),
        (1, -2, None),
        (1, 2, None),
        (64, i64::MIN, Some(0x8000000000000000)),
        (63, i64::MIN, None),
        (64, i64::MAX, Some(0x7fffffffffffffff)),
        (65, -1, Some(0x1ffffffffffffffff)),
        (127, -3, Some(0x7ffffffffffffffffffffffffffffffd)),
        (128, -1, Some(0xffffffffffffffffffffffffffffffff)),
        (128, i64::MIN, Some(0xffffffffffffffff8000000000000000)),
        (128, i64::MAX, Some(0x7fffffffffffffff)),
    ] {
        assert!(rt; 1 <= width && width <= 128);
        let found = Bits::from_i64(width, n).map(Bits::value);
        assert_eq!(rt; found, want, "{n} in {width} bits");
    }
}

#[test]
fn values_have_their_widths(rt: HostRuntime) {
    for &(width, value, is_some) in &[
        (0, 0, false),
        (1, 1, true),
        (1, 2, false),
        (127, 0x80000000000000000000000000000000, false),
        (128, 0xffffffffffffffffffffffffffffffff, true),
        (129, 0, false),
    ] {
        assert_eq!(rt;
            Bits::new(width, value).is_some(),
            is_some,
            "{value} in {width} bits"
        );
    }
}

#[test]
fn choices(rt: HostRuntime) {
    let cases = [bits(&rt, 8, 10), bits(&rt, 8, 20), bits(&rt, 8, 30)];
    for &(width, selector, want) in &[
        (1, 0, 10),
        (1, 1, 20),
        (2, 2, 30),
        (2, 3, 30),
        (128, 0xffffffffffffffffffffffffffffffff, 30),
    ] {
        let found = bits(&rt, width, selector).mux(&cases);
        assert_eq!(rt; found.value(), want, "selector {selector}");
    }
    assert_eq!(rt; bits(&rt, 128, 5).mux(&cases[..1]).value(), 10);
}

#[test]
fn catalogue(rt: HostRuntime) {
    for &(name, kind, arity, widths) in &[
        (b"popcount".as_slice(), OpKind::Popcount, 1, [1, 3, 4, 8]),
        (b"clz".as_slice(), OpKind::Clz, 1, [1, 3, 4, 8]),
        (b"rev".as_slice(), OpKind::Rev, 1, [1, 7, 8, 128]),
        (b"min".as_slice(), OpKind::Min, 2, [1, 7, 8, 128]),
        (b"max".as_slice(), OpKind::Max, 2, [1, 7, 8, 128]),
        (b"satadd".as_slice(), OpKind::SatAdd, 2, [1, 7, 8, 128]),
    ] {
        assert_eq!(rt; OpKind::find(name), Some(kind));
        assert_eq!(rt; kind.name(), name);
        assert_eq!(rt; kind.arity(), arity);
        assert_eq!(rt; result_widths(kind), widths);
    }
}

#[test]
fn other_names_are_of_no_operation(rt: HostRuntime) {
    for name in [b"Min".as_slice(), b"", b"min ", b"popcoun"] {
        assert_eq!(rt; OpKind::find(name), None);
    }
}

#[test]
fn numbers_have_their_bits(rt: HostRuntime) {
    for (number, want) in [(0, 1), (1, 1), (255, 8), (256, 9), (u64::MAX, 64)] {
        assert_eq!(rt; bits_of(number), want);
    }
}
