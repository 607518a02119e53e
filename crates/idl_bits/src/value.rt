//! A value, its parts, and its readings at other signs and widths.
ghost use Rattle.std.specs.Prelude.{◌≡◌, ◌^◌, ◌<◌, ◌≤◌};

use std::marker::Model;

/// A value of IDL: so many bits, read in two's complement where it is signed.
///
/// `==` and `!=` compare the three parts; [`eq`](crate::eq) is IDL's own `==`.
#[derive(Clone, Copy, PartialEq, Eq, Debug)]
pub struct Bits {
    width: u8,
    signed: bool,
    pattern: u128,
}

impl Model for Bits {
    ghost use Rattle.idl_bits.specs.BitVector.{BitVector, IsWellFormed};

    ghost Value = { BitVector };

    ghost view = { λ b. record { width = b.width; signed = b.signed; pattern = b.pattern } };

    ghost invariant = { λ b. IsWellFormed (record { width = b.width; signed = b.signed; pattern = b.pattern }) };

    ghost inverse = { λ v. record { width = v.width; signed = v.signed; pattern = v.pattern } };
}

impl Bits {
    /// The value of these parts: 1 to 128 bits, and a pattern that has no others.
    pub fn new(width: u8, signed: bool, pattern: u128) -> Bits
        requires positive { 1 ≤ width }
        requires limit { width ≤ 128 }
        requires in_width { pattern < 2 ^ width }
        ensures { result ≡ record { width = width; signed = signed; pattern = pattern } }
    {
        Bits {
            width,
            signed,
            pattern,
        }
    }

    /// How many bits the value has.
    pub fn width(self) -> u8
        ensures value { result ≡ self.width }
        ensures positive { 1 ≤ result }
        ensures limit { result ≤ 128 }
    {
        self.width
    }

    /// Whether the bits are read in two's complement.
    pub fn signed(self) -> bool
        ensures { result ≡ self.signed }
    {
        self.signed
    }

    /// The bits, as a number below two to the power of the width.
    pub fn pattern(self) -> u128
        ensures value { result ≡ self.pattern }
        ensures in_width { result < 2 ^ self.width }
    {
        self.pattern
    }
}
