//! The steps of a width's number, each clipped, and the number itself.

ghost use Rattle.std.specs.Prelude.{◌≡◌, pos, ◌+ℤ◌, ◌-ℤ◌, ◌*ℤ◌};
ghost use Rattle.idl_width.specs.Numbers.{clip, IsClipped, larger, width_number};

use crate::scopes::{BitsScope, bits_among};
use idl_tree::Width;
use udb_base::{Full, Space};
use udb_cond::{mxlen, number_or};

/// The number, or 1,000,000 where it is larger.
#[tactic(auto, using(crate::proofs::Clipping::small_steps))]
pub fn clip(number: u64) -> i64
    ensures value { result ≡ clip (pos number) }
    ensures small { IsClipped result }
{
    if number > 1_000_000 {
        return 1_000_000;
    }
    number as i64
}

/// The clipped sum of two clipped numbers.
pub fn sum(left: i64, right: i64) -> i64
    requires left { IsClipped left }
    requires right { IsClipped right }
    ensures value { result ≡ clip (left +ℤ right) }
    ensures small { IsClipped result }
{
    (left + right).clamp(-1_000_000, 1_000_000)
}

/// The clipped difference of two clipped numbers.
pub fn difference(left: i64, right: i64) -> i64
    requires left { IsClipped left }
    requires right { IsClipped right }
    ensures value { result ≡ clip (left -ℤ right) }
    ensures small { IsClipped result }
{
    (left - right).clamp(-1_000_000, 1_000_000)
}

/// The clipped product of two clipped numbers.
pub fn product(left: i64, right: i64) -> i64
    requires left { IsClipped left }
    requires right { IsClipped right }
    ensures value { result ≡ clip (left *ℤ right) }
    ensures small { IsClipped result }
{
    (left * right).clamp(-1_000_000, 1_000_000)
}

/// The larger of two clipped numbers.
#[tactic(auto, unfolding(crate::specs::Numbers::larger))]
pub fn larger(left: i64, right: i64) -> i64
    ensures value { result ≡ clip (larger left right) }
    ensures small { IsClipped result }
{
    left.max(right).clamp(-1_000_000, 1_000_000)
}

/// The whole number of a width in a full configuration, clipped after each step to -1,000,000 to
/// 1,000,000, so that it takes no memory and no number grows past its type. A parameter counts with
/// its value, also where its `definedBy` fails; `$bits` counts with the width that the scope gives
/// for the value of MXLEN. A width asks for names that the space and the scope have; one that they
/// lack, or a parameter without a number, counts 0.
#[tactic(auto, using(crate::proofs::Clipping::number_laws))]
pub fn width_value(width: &Width, space: &Space, full: &Full, scope: &BitsScope) -> i64
    ensures value { result ≡ width_number space.now full.now scope.now width.now }
    ensures small { IsClipped result }
{
    match width {
        Width::Number(number) => clip(u64::from(*number)),
        Width::Word(name) => clip(number_or(0, space, full, name.as_str())),
        Width::Plus(a, b) => {
            let left = width_value(a.get(), space, full, scope);
            sum(left, width_value(b.get(), space, full, scope))
        }
        Width::Minus(a, b) => {
            let left = width_value(a.get(), space, full, scope);
            difference(left, width_value(b.get(), space, full, scope))
        }
        Width::Times(a, b) => {
            let left = width_value(a.get(), space, full, scope);
            product(left, width_value(b.get(), space, full, scope))
        }
        Width::Max(a, b) => {
            let left = width_value(a.get(), space, full, scope);
            larger(left, width_value(b.get(), space, full, scope))
        }
        Width::Bits { csr, name } => {
            let registers = mxlen(space, full);
            clip(u64::from(bits_among(registers, scope.as_slice(), csr, name)))
        }
    }
}
