//! `/` and `%`, by sign and absolute value.
ghost use Rattle.std.specs.Prelude.{◌≡◌, ◌<◌, true};
ghost use Rattle.idl_bits.specs.Number.{number, number_beside, pattern_of};
ghost use Rattle.idl_bits.specs.Operators.{quotient_of, remainder_of};
ghost use Rattle.idl_bits.specs.Sign.{number_with};

use crate::number::{both_signed, extend, is_negative, larger_width, ones, whole, wrap};
use crate::value::Bits;

/// A number by its sign and its absolute value, which is not 0 where it is negative.
#[derive(Clone, Copy, PartialEq, Eq)]
pub(crate) struct Magnitude {
    pub(crate) negative: bool,
    pub(crate) size: u128,
}

/// A value's number.
fn magnitude_of(a: Bits) -> Magnitude
    ensures number { number_with result.negative result.size ≡ number a }
    ensures negative { result.negative ≡ true → 0 < result.size }
{
    if is_negative(a) {
        Magnitude {
            negative: true,
            size: ones(a.width()) - a.pattern() + 1,
        }
    } else {
        Magnitude {
            negative: false,
            size: a.pattern(),
        }
    }
}

/// The number of a value beside another operand.
pub(crate) fn operand(a: Bits, b: Bits) -> Magnitude
    ensures number { number_with result.negative result.size ≡ number_beside a b }
    ensures negative { result.negative ≡ true → 0 < result.size }
{
    if both_signed(a, b) {
        magnitude_of(a)
    } else {
        Magnitude {
            negative: false,
            size: extend(a, larger_width(a, b)),
        }
    }
}

/// A number's pattern at 128 bits.
fn signed_whole(negative: bool, size: u128) -> u128
    ensures { result ≡ pattern_of 128 (number_with negative size) }
{
    if negative {
        0u128.wrapping_sub(size)
    } else {
        size
    }
}

/// `a / b` towards zero, at the larger width; all ones where b is 0.
///
/// The least number by -1 has no quotient in its width, and gives itself.
pub fn div(a: Bits, b: Bits) -> Bits
    ensures { result ≡ quotient_of a b }
{
    let width = larger_width(a, b);
    let signed = both_signed(a, b);
    let divisor = operand(b, a);
    if divisor.size == 0 {
        return Bits::new(width, signed, ones(width));
    }
    let dividend = operand(a, b);
    let negative = dividend.negative != divisor.negative;
    let size = dividend.size / divisor.size;
    wrap(width, signed, signed_whole(negative, size))
}

/// `a % b`, with the sign of a, at the larger width; a itself where b is 0.
pub fn rem(a: Bits, b: Bits) -> Bits
    ensures { result ≡ remainder_of a b }
{
    let width = larger_width(a, b);
    let signed = both_signed(a, b);
    let divisor = operand(b, a);
    if divisor.size == 0 {
        return wrap(width, signed, whole(a));
    }
    let dividend = operand(a, b);
    let size = dividend.size % divisor.size;
    wrap(width, signed, signed_whole(dividend.negative, size))
}
