//! Sums, differences and products: `+`, `-`, `*`, their widening forms, and the unary `-`.
ghost use Rattle.std.specs.Prelude.{◌≡◌, ◌+◌, ◌≤◌, ◌<◌, ◌+ℤ◌, ◌-ℤ◌, ◌*ℤ◌};
ghost use Rattle.idl_bits.specs.Number.{number, larger, both_signed, value_of};
ghost use Rattle.idl_bits.specs.Operators.{sum_of, difference_of, product_of, wide_sum_of, wide_difference_of, wide_product_of, negation_of};

use crate::number::{both_signed, larger_width, whole, wrap};
use crate::value::Bits;

/// The sum at a width.
fn sum_at(width: u8, a: Bits, b: Bits) -> Bits
    requires positive { 1 ≤ width }
    requires limit { width ≤ 128 }
    ensures { result ≡ value_of width (both_signed a b) (number a +ℤ number b) }
{
    wrap(width, both_signed(a, b), whole(a).wrapping_add(whole(b)))
}

/// The difference at a width.
fn difference_at(width: u8, a: Bits, b: Bits) -> Bits
    requires positive { 1 ≤ width }
    requires limit { width ≤ 128 }
    ensures { result ≡ value_of width (both_signed a b) (number a -ℤ number b) }
{
    wrap(width, both_signed(a, b), whole(a).wrapping_sub(whole(b)))
}

/// The product at a width.
fn product_at(width: u8, a: Bits, b: Bits) -> Bits
    requires positive { 1 ≤ width }
    requires limit { width ≤ 128 }
    ensures { result ≡ value_of width (both_signed a b) (number a *ℤ number b) }
{
    wrap(width, both_signed(a, b), whole(a).wrapping_mul(whole(b)))
}

/// `a + b`, at the larger width.
pub fn add(a: Bits, b: Bits) -> Bits
    ensures { result ≡ sum_of a b }
{
    sum_at(larger_width(a, b), a, b)
}

/// `a - b`, at the larger width.
pub fn sub(a: Bits, b: Bits) -> Bits
    ensures { result ≡ difference_of a b }
{
    difference_at(larger_width(a, b), a, b)
}

/// `a * b`, at the larger width.
pub fn mul(a: Bits, b: Bits) -> Bits
    ensures { result ≡ product_of a b }
{
    product_at(larger_width(a, b), a, b)
}

/// `` a `+ b ``, one bit wider than the larger operand.
pub fn wide_add(a: Bits, b: Bits) -> Bits
    requires { larger a b < 128 }
    ensures { result ≡ wide_sum_of a b }
{
    sum_at(larger_width(a, b) + 1, a, b)
}

/// `` a `- b ``, one bit wider than the larger operand.
pub fn wide_sub(a: Bits, b: Bits) -> Bits
    requires { larger a b < 128 }
    ensures { result ≡ wide_difference_of a b }
{
    difference_at(larger_width(a, b) + 1, a, b)
}

/// `` a `* b ``, as wide as both operands together.
pub fn wide_mul(a: Bits, b: Bits) -> Bits
    requires { a.width + b.width ≤ 128 }
    ensures { result ≡ wide_product_of a b }
{
    product_at(a.width() + b.width(), a, b)
}

/// `-a`, in a's shape.
pub fn neg(a: Bits) -> Bits
    ensures { result ≡ negation_of a }
{
    wrap(a.width(), a.signed(), 0u128.wrapping_sub(whole(a)))
}
