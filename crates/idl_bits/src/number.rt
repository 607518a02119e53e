//! A value's number at 128 bits, and the value that holds such a number: what the operators share.
ghost use Rattle.std.specs.Prelude.{◌≡◌, ◌+◌, ◌^◌, ◌<◌, ◌≤◌, pos};
ghost use Rattle.idl_bits.specs.Number.{has_top_bit, is_negative, larger, both_signed, extension, value_of};

use crate::value::Bits;

/// The larger width of two operands.
pub(crate) fn larger_width(a: Bits, b: Bits) -> u8
    ensures value { result ≡ larger a b }
    ensures positive { 1 ≤ result }
    ensures limit { result ≤ 128 }
{
    a.width().max(b.width())
}

/// Whether a result of two operands is signed.
pub(crate) fn both_signed(a: Bits, b: Bits) -> bool
    ensures { result ≡ both_signed a b }
{
    a.signed() && b.signed()
}

/// The pattern of a width whose bits are all set.
pub(crate) fn ones(width: u8) -> u128
    requires positive { 1 ≤ width }
    requires limit { width ≤ 128 }
    ensures { result + 1 ≡ 2 ^ width }
{
    u128::MAX >> (128 - width)
}

/// Whether the highest bit of a pattern is set.
pub(crate) fn has_top_bit(a: Bits) -> bool
    ensures { result ≡ has_top_bit a }
{
    (a.pattern() >> (a.width() - 1)) & 1 == 1
}

/// Whether a value counts as negative.
pub(crate) fn is_negative(a: Bits) -> bool
    ensures { result ≡ is_negative a }
{
    a.signed() && has_top_bit(a)
}

/// A value's number, modulo two to the power of 128.
pub(crate) fn whole(a: Bits) -> u128
    ensures { result ≡ extension 128 a }
{
    if is_negative(a) {
        a.pattern() | !ones(a.width())
    } else {
        a.pattern()
    }
}

/// A value's pattern at another width.
pub(crate) fn extend(a: Bits, width: u8) -> u128
    requires positive { 1 ≤ width }
    requires limit { width ≤ 128 }
    ensures { result ≡ extension width a }
{
    whole(a) & ones(width)
}

/// The value that holds a number, of which `whole` is any rest that keeps the width's bits.
pub(crate) fn wrap(width: u8, signed: bool, whole: u128) -> Bits
    requires positive { 1 ≤ width }
    requires limit { width ≤ 128 }
    ensures { result ≡ value_of width signed (pos whole) }
{
    Bits::new(width, signed, whole & ones(width))
}
