//! Joins, repeats, slices and bits, and the readings at another sign or width.
ghost use Rattle.std.specs.Prelude.{◌≡◌, ◌+◌, ◌*◌, ◌^◌, ◌<◌, ◌≤◌};
ghost use Rattle.idl_bits.specs.Operators.{signed_of, unsigned_of, resized_to, join_of, copies, repeat_of, slice_of, bit_of, with_field, with_slice, with_bit};

use crate::number::{extend, ones, whole, wrap};
use crate::shifts::shift_amount;
use crate::value::Bits;

/// `$signed(a)`: the same bits, read in two's complement.
pub fn as_signed(a: Bits) -> Bits
    ensures { result ≡ signed_of a }
{
    Bits::new(a.width(), true, a.pattern())
}

/// The same bits, read as a natural number.
pub fn as_unsigned(a: Bits) -> Bits
    ensures { result ≡ unsigned_of a }
{
    Bits::new(a.width(), false, a.pattern())
}

/// `$resize<width>(a)`: extended by a's sign, or truncated.
pub fn resize(a: Bits, width: u8) -> Bits
    requires positive { 1 ≤ width }
    requires limit { width ≤ 128 }
    ensures { result ≡ resized_to width a }
{
    wrap(width, a.signed(), whole(a))
}

/// `{a, b}`: the bits of a above those of b.
pub fn join(a: Bits, b: Bits) -> Bits
    requires { a.width + b.width ≤ 128 }
    ensures { result ≡ join_of a b }
{
    let low = b.width();
    Bits::new(a.width() + low, false, (a.pattern() << low) | b.pattern())
}

/// `{times{a}}`: copies of a, one above the other.
pub fn repeat(a: Bits, times: u8) -> Bits
    requires positive { 1 ≤ times }
    requires limit { a.width * times ≤ 128 }
    ensures { result ≡ repeat_of a times }
{
    let mut pattern = a.pattern();
    for _count in 1..times {
        pattern = (pattern << a.width()) | a.pattern();
    }
    Bits::new(a.width() * times, false, pattern)
}

/// `a[high:low]`, both included.
pub fn slice(a: Bits, high: u8, low: u8) -> Bits
    requires order { low ≤ high }
    requires within { high < a.width }
    ensures { result ≡ slice_of a high low }
{
    wrap(high - low + 1, false, a.pattern() >> low)
}

/// `a[at]`: one bit, which is 0 past the width.
pub fn bit(a: Bits, at: Bits) -> Bits
    ensures { result ≡ bit_of a at }
{
    Bits::new(1, false, a.pattern().unbounded_shr(shift_amount(a, at)) & 1)
}

/// The pattern with `count` of its bits from `low` on replaced by those of `part`.
fn with_field(pattern: u128, low: u8, count: u8, part: u128) -> u128
    requires positive { 1 ≤ count }
    requires limit { low + count ≤ 128 }
    requires in_width { part < 2 ^ count }
    ensures { result ≡ with_field pattern low count part }
{
    let hole = ones(count) << low;
    (pattern & !hole) | (part << low)
}

/// `a` after `a[high:low] = value`: the value is extended by its own sign, or truncated.
pub fn put_slice(a: Bits, high: u8, low: u8, value: Bits) -> Bits
    requires order { low ≤ high }
    requires within { high < a.width }
    ensures { result ≡ with_slice a high low value }
{
    let count = high - low + 1;
    let part = extend(value, count);
    Bits::new(
        a.width(),
        a.signed(),
        with_field(a.pattern(), low, count, part),
    )
}

/// `a` after `a[at] = value`, of which only the lowest bit counts; nothing past the width.
pub fn put_bit(a: Bits, at: Bits, value: Bits) -> Bits
    ensures { result ≡ with_bit a at value }
{
    if at.pattern() >= u128::from(a.width()) {
        return a;
    }
    let place = at.pattern() as u8;
    Bits::new(
        a.width(),
        a.signed(),
        with_field(a.pattern(), place, 1, value.pattern() & 1),
    )
}
