//! `==` and `<`, from which the other comparisons follow.
ghost use Rattle.std.specs.Prelude.{◌≡◌};
ghost use Rattle.idl_bits.specs.Operators.{is_equal, is_below};

use crate::divisions::operand;
use crate::value::Bits;

/// `a == b`: whether both are one number at the larger width.
pub fn eq(a: Bits, b: Bits) -> bool
    ensures { result ≡ is_equal a b }
{
    operand(a, b) == operand(b, a)
}

/// `a < b`: whether a is the smaller number at the larger width.
pub fn lt(a: Bits, b: Bits) -> bool
    ensures { result ≡ is_below a b }
{
    let left = operand(a, b);
    let right = operand(b, a);
    if left.negative != right.negative {
        left.negative
    } else if left.negative {
        right.size < left.size
    } else {
        left.size < right.size
    }
}
