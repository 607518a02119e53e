//! What operators do with values.

ghost use Rattle.std.specs.Prelude.{◌≡◌, ◌≤◌, ◌<◌, ◌+◌, ◌^◌, nat_le};
ghost use Rattle.idl_bits.specs.Operators.{wide_sum_of, wide_difference_of, wide_product_of};
ghost use Rattle.idl_spec.specs.Values.{bits, plain, least_width, same_enum};
ghost use Rattle.idl_spec.specs.Harts.{done, and_then};
ghost use Rattle.idl_spec.specs.Settings.{sized, with_flag};
ghost use Rattle.idl_spec.specs.Forms.{unary, binary_bits, binary_other, same_value, binary};
ghost use Rattle.idl_spec.specs.Mean.{bits_of_value};
ghost use Rattle.idl_forms.specs.States.{as_value, as_scalar, Finds, Maps};
ghost use Rattle.idl_forms.specs.Scenes.{setting_of};
ghost use Rattle.idl_forms.specs.Ready.{IsScene};
ghost use Rattle.idl_forms.specs.Steps.{left_step, right_step, side_by_side, literal_step, wide_left_step, repeat_step, bit_step, slice_step, signed_step, resized_step};

use crate::scenes::{Scene, size_in, slice_places, width_in};
use crate::values::{Part, Scalar, Stop, Value, bits_in, flag_in, of_bits, of_flag, required};
use idl_bits::Bits;
use idl_tree::{Binary, EnumKind, Unary, Width};

/// The least width that holds a number, at least 1.
pub fn least_width(number: u128) -> u8
    ensures value { result ≡ least_width number }
    ensures positive { 1 ≤ result }
    ensures limit { result ≤ 128 }
    ensures fits { number < 2 ^ result }
{
    for width in (1..128).rev() {
        if number >> width != 0 {
            return width + 1;
        }
    }
    1
}

/// Unsigned bits of the least width that holds a number.
pub fn number(number: u128) -> Part
    ensures { Finds as_value (done (bits (plain (least_width number) number))) result }
{
    Ok(of_bits(Bits::new(least_width(number), false, number)))
}

/// A literal with a width: its number modulo two to the power of the width.
pub fn literal(scene: &Scene, width: &Width, signed: bool, number: u128) -> Part
    requires ready { IsScene scene.now }
    ensures { Finds as_value (literal_step (setting_of scene.now) width.now signed number) result }
{
    let size = size_in(scene, width)?;
    let pattern = number & (u128::MAX >> (128 - size));
    Ok(of_bits(Bits::new(size, signed, pattern)))
}

/// Whether two enumerations are one.
pub fn same_enum(one: EnumKind, other: EnumKind) -> bool
    ensures { result ≡ same_enum one other }
{
    one == other
}

/// An operator before one operand.
pub fn unary(sign: Unary, of: Part) -> Part
    ensures { Maps as_value (λ o. and_then o (unary sign)) of result }
{
    match sign {
        Unary::Not => Ok(of_flag(!flag_in(of)?)),
        Unary::Invert => Ok(of_bits(idl_bits::not(bits_in(of)?))),
        Unary::Minus => Ok(of_bits(idl_bits::neg(bits_in(of)?))),
    }
}

// Whether so many bits and so many more are a width.
fn fits(width: u8, more: u8) -> bool
    ensures { result ≡ nat_le (width + more) 128 }
{
    u16::from(width) + u16::from(more) <= 128
}

fn wide_sum(x: Bits, y: Bits) -> Part
    ensures { Finds as_value (sized (wide_sum_of x y)) result }
{
    if !fits(x.width().max(y.width()), 1) {
        return Err(Stop::Stuck);
    }
    Ok(of_bits(idl_bits::wide_add(x, y)))
}

fn wide_difference(x: Bits, y: Bits) -> Part
    ensures { Finds as_value (sized (wide_difference_of x y)) result }
{
    if !fits(x.width().max(y.width()), 1) {
        return Err(Stop::Stuck);
    }
    Ok(of_bits(idl_bits::wide_sub(x, y)))
}

fn wide_product(x: Bits, y: Bits) -> Part
    ensures { Finds as_value (sized (wide_product_of x y)) result }
{
    if !fits(x.width(), y.width()) {
        return Err(Stop::Stuck);
    }
    Ok(of_bits(idl_bits::wide_mul(x, y)))
}

fn binary_bits(sign: Binary, x: Bits, y: Bits) -> Part
    ensures { Finds as_value (binary_bits sign x y) result }
{
    match sign {
        Binary::Or => Err(Stop::Stuck),
        Binary::And => Err(Stop::Stuck),
        Binary::BitOr => Ok(of_bits(idl_bits::or(x, y))),
        Binary::BitXor => Ok(of_bits(idl_bits::xor(x, y))),
        Binary::BitAnd => Ok(of_bits(idl_bits::and(x, y))),
        Binary::Equal => Ok(of_flag(idl_bits::eq(x, y))),
        Binary::NotEqual => Ok(of_flag(!idl_bits::eq(x, y))),
        Binary::Below => Ok(of_flag(idl_bits::lt(x, y))),
        Binary::AtMost => Ok(of_flag(!idl_bits::lt(y, x))),
        Binary::Above => Ok(of_flag(idl_bits::lt(y, x))),
        Binary::AtLeast => Ok(of_flag(!idl_bits::lt(x, y))),
        Binary::Left => Ok(of_bits(idl_bits::shl(x, y))),
        Binary::Right => Ok(of_bits(idl_bits::shr(x, y))),
        Binary::RightSigned => Ok(of_bits(idl_bits::sar(x, y))),
        Binary::Add => Ok(of_bits(idl_bits::add(x, y))),
        Binary::Sub => Ok(of_bits(idl_bits::sub(x, y))),
        Binary::WideAdd => wide_sum(x, y),
        Binary::WideSub => wide_difference(x, y),
        Binary::Mul => Ok(of_bits(idl_bits::mul(x, y))),
        Binary::WideMul => wide_product(x, y),
        Binary::Div => Ok(of_bits(idl_bits::div(x, y))),
        Binary::Rem => Ok(of_bits(idl_bits::rem(x, y))),
    }
}

// Whether two values are one that aren't bits: truth values, and members of one enumeration.
fn same_scalar(x: Scalar, y: Scalar) -> Option<bool>
    ensures { result ≡ same_value (as_scalar x) (as_scalar y) }
{
    match x {
        Scalar::Bits(_) => None,
        Scalar::Flag(x) => match y {
            Scalar::Bits(_) => None,
            Scalar::Flag(y) => Some(x == y),
            Scalar::Member { kind: _, number: _ } => None,
        },
        Scalar::Member { kind, number } => match y {
            Scalar::Bits(_) => None,
            Scalar::Flag(_) => None,
            Scalar::Member {
                kind: other,
                number: second,
            } => {
                if same_enum(kind, other) {
                    return Some(number == second);
                }
                None
            }
        },
    }
}

// The same, also of a text that a parameter gives and a written one.
fn same_value(x: &Value, y: &Value) -> Option<bool>
    ensures { result ≡ same_value (as_value x.now) (as_value y.now) }
{
    match x {
        Value::Scalar(x) => match y {
            Value::Scalar(y) => same_scalar(*x, *y),
            Value::Given(_) => None,
            Value::Written(_) => None,
        },
        Value::Given(x) => match y {
            Value::Scalar(_) => None,
            Value::Given(_) => None,
            Value::Written(y) => Some(x == y),
        },
        Value::Written(x) => match y {
            Value::Scalar(_) => None,
            Value::Given(y) => Some(x == y),
            Value::Written(_) => None,
        },
    }
}

fn binary_other(sign: Binary, x: &Value, y: &Value) -> Part
    ensures { Finds as_value (binary_other sign (as_value x.now) (as_value y.now)) result }
{
    match sign {
        Binary::Equal => Ok(of_flag(required(same_value(x, y))?)),
        Binary::NotEqual => Ok(of_flag(!required(same_value(x, y))?)),
        _ => Err(Stop::Stuck),
    }
}

/// The bits of a value, where it is bits.
pub fn bits_of(value: &Value) -> Option<Bits>
    ensures { result ≡ bits_of_value (as_value value.now) }
{
    match value {
        Value::Scalar(scalar) => match scalar {
            Scalar::Bits(bits) => Some(*bits),
            Scalar::Flag(_) => None,
            Scalar::Member { kind: _, number: _ } => None,
        },
        Value::Given(_) => None,
        Value::Written(_) => None,
    }
}

fn binary(sign: Binary, x: &Value, y: &Value) -> Part
    ensures { Finds as_value (binary sign (as_value x.now) (as_value y.now)) result }
{
    if let Some(first) = bits_of(x) {
        if let Some(second) = bits_of(y) {
            return binary_bits(sign, first, second);
        }
    }
    binary_other(sign, x, y)
}

// The truth value that a value has to be.
fn truth(value: &Value) -> Result<bool, Stop>
    ensures { Finds (λ b. b) (λ s. with_flag (done (as_value value.now) s) done) result }
{
    match value {
        Value::Scalar(scalar) => match scalar {
            Scalar::Bits(_) => Err(Stop::Stuck),
            Scalar::Flag(flag) => Ok(*flag),
            Scalar::Member { kind: _, number: _ } => Err(Stop::Stuck),
        },
        Value::Given(_) => Err(Stop::Stuck),
        Value::Written(_) => Err(Stop::Stuck),
    }
}

/// What the left operand of `&&` and `||` settles alone; of all other signs nothing.
pub fn settled(sign: Binary, left: &Value) -> Result<Option<bool>, Stop>
    ensures { Finds (λ k. k) (left_step sign (as_value left.now)) result }
{
    match sign {
        Binary::And => match truth(left)? {
            true => Ok(None),
            false => Ok(Some(false)),
        },
        Binary::Or => match truth(left)? {
            true => Ok(Some(true)),
            false => Ok(None),
        },
        _ => Ok(None),
    }
}

/// An operator between two operands, where the left one leaves it open.
pub fn with_right(sign: Binary, left: &Value, right: Part) -> Part
    ensures { Maps as_value (λ o. and_then o (right_step sign (as_value left.now))) right result }
{
    match sign {
        Binary::And => Ok(of_flag(flag_in(right)?)),
        Binary::Or => Ok(of_flag(flag_in(right)?)),
        _ => binary(sign, left, &right?),
    }
}

/// The left shift that widens.
pub fn wide_left(scene: &Scene, left: Part, by: &Width) -> Part
    requires ready { IsScene scene.now }
    ensures { Maps as_value (wide_left_step (setting_of scene.now) by.now) left result }
{
    let left = bits_in(left)?;
    let by = width_in(scene, 0, 127, by)? as u8;
    if !fits(left.width(), by) {
        return Err(Stop::Stuck);
    }
    Ok(of_bits(idl_bits::wide_shl(left, by)))
}

/// Copies of bits, one above the other.
pub fn repeat(scene: &Scene, of: Part, times: &Width) -> Part
    requires ready { IsScene scene.now }
    ensures { Maps as_value (repeat_step (setting_of scene.now) times.now) of result }
{
    let of = bits_in(of)?;
    let times = size_in(scene, times)?;
    if u32::from(of.width()) * u32::from(times) > 128 {
        return Err(Stop::Stuck);
    }
    Ok(of_bits(idl_bits::repeat(of, times)))
}

/// One bit.
pub fn bit(of: Bits, at: Part) -> Part
    ensures { Maps as_value (bit_step of) at result }
{
    let at = bits_in(at)?;
    Ok(of_bits(idl_bits::bit(of, at)))
}

/// The bits between two places.
pub fn slice(scene: &Scene, of: Part, high: &Width, low: &Width) -> Part
    requires ready { IsScene scene.now }
    ensures { Maps as_value (slice_step (setting_of scene.now) high.now low.now) of result }
{
    let of = bits_in(of)?;
    let (high, low) = slice_places(scene, of.width(), high, low)?;
    Ok(of_bits(idl_bits::slice(of, high, low)))
}

/// The same bits, read in two's complement.
pub fn signed(of: Part) -> Part
    ensures { Maps as_value signed_step of result }
{
    Ok(of_bits(idl_bits::as_signed(bits_in(of)?)))
}

/// Bits at another width.
pub fn resized(scene: &Scene, width: &Width, of: Part) -> Part
    requires ready { IsScene scene.now }
    ensures { Maps as_value (resized_step (setting_of scene.now) width.now) of result }
{
    let of = bits_in(of)?;
    let size = size_in(scene, width)?;
    Ok(of_bits(idl_bits::resize(of, size)))
}

/// Bits side by side, the first highest.
pub fn join(parts: &[Bits]) -> Part
    ensures { Finds as_value (side_by_side parts.now) result }
{
    let Some((first, rest)) = parts.split_first() else {
        return Err(Stop::Stuck);
    };
    let mut joined = idl_bits::as_unsigned(*first);
    for part in rest {
        if !fits(joined.width(), part.width()) {
            return Err(Stop::Stuck);
        }
        joined = idl_bits::join(joined, *part);
    }
    Ok(of_bits(joined))
}
