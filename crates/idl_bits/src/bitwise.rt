//! `&`, `|`, `^` and `~`.
ghost use Rattle.std.specs.Prelude.{◌≡◌};
ghost use Rattle.idl_bits.specs.Operators.{and_of, or_of, xor_of, complement_of};

use crate::number::{both_signed, larger_width, ones, whole, wrap};
use crate::value::Bits;

/// `a & b`, at the larger width.
pub fn and(a: Bits, b: Bits) -> Bits
    ensures { result ≡ and_of a b }
{
    wrap(larger_width(a, b), both_signed(a, b), whole(a) & whole(b))
}

/// `a | b`, at the larger width.
pub fn or(a: Bits, b: Bits) -> Bits
    ensures { result ≡ or_of a b }
{
    wrap(larger_width(a, b), both_signed(a, b), whole(a) | whole(b))
}

/// `a ^ b`, at the larger width.
pub fn xor(a: Bits, b: Bits) -> Bits
    ensures { result ≡ xor_of a b }
{
    wrap(larger_width(a, b), both_signed(a, b), whole(a) ^ whole(b))
}

/// `~a`, in a's shape.
pub fn not(a: Bits) -> Bits
    ensures { result ≡ complement_of a }
{
    Bits::new(a.width(), a.signed(), ones(a.width()) - a.pattern())
}
