//! `<<`, `>>`, `>>>` and the widening left shift.
ghost use Rattle.std.specs.Prelude.{◌≡◌, ◌+◌, ◌^◌, ◌≤◌, pos};
ghost use Rattle.std.specs.Int.{int_div_euclid};
ghost use Rattle.idl_bits.specs.Number.{number, pattern_of};
ghost use Rattle.idl_bits.specs.Operators.{signed_of, shift_amount, left_shift_of, right_shift_of, sign_shift_of, wide_left_shift_of};

use crate::number::{has_top_bit, ones, whole, wrap};
use crate::value::Bits;

/// How many places a shift of `a` by `b` moves the bits: all of them from the width on.
pub(crate) fn shift_amount(a: Bits, b: Bits) -> u32
    ensures value { result ≡ shift_amount a b }
    ensures limit { result ≤ 128 }
{
    b.pattern().min(u128::from(a.width())) as u32
}

/// The pattern moved down, under copies of its highest bit.
fn sign_shift(a: Bits, by: u32) -> u128
    requires { by ≤ 128 }
    ensures { result ≡ pattern_of a.width (int_div_euclid (number (signed_of a)) (pos (2 ^ by))) }
{
    if has_top_bit(a) {
        // Flipped before and after, so that the zeros that come in turn into ones.
        let ones = ones(a.width());
        ones - (ones - a.pattern()).unbounded_shr(by)
    } else {
        a.pattern().unbounded_shr(by)
    }
}

/// `a << b`, in a's shape.
pub fn shl(a: Bits, b: Bits) -> Bits
    ensures { result ≡ left_shift_of a b }
{
    wrap(
        a.width(),
        a.signed(),
        whole(a).unbounded_shl(shift_amount(a, b)),
    )
}

/// `a >> b`, in a's shape: zeros come in from above.
pub fn shr(a: Bits, b: Bits) -> Bits
    ensures { result ≡ right_shift_of a b }
{
    Bits::new(
        a.width(),
        a.signed(),
        a.pattern().unbounded_shr(shift_amount(a, b)),
    )
}

/// `a >>> b`, in a's shape: copies of the highest bit come in from above, whatever the sign.
pub fn sar(a: Bits, b: Bits) -> Bits
    ensures { result ≡ sign_shift_of a b }
{
    Bits::new(a.width(), a.signed(), sign_shift(a, shift_amount(a, b)))
}

/// `` a `<< by ``, wider by the places that it moves.
pub fn wide_shl(a: Bits, by: u8) -> Bits
    requires { a.width + by ≤ 128 }
    ensures { result ≡ wide_left_shift_of a by }
{
    wrap(a.width() + by, a.signed(), whole(a) << by)
}
