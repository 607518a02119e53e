//! The values of the ISA Description Language (IDL) and its operators.
//!
//! IDL is the language in which the RISC-V Unified Database writes what instructions do. A value
//! has a width of 1 to 128 bits, a sign and a pattern. Every operator computes on whole numbers
//! and keeps the result modulo two to the power of the result's width. None takes memory.
#![tactic(auto)]

mod arithmetic;
mod bitwise;
mod comparisons;
mod divisions;
mod number;
mod parts;
mod shifts;
mod value;

pub use arithmetic::{add, mul, neg, sub, wide_add, wide_mul, wide_sub};
pub use bitwise::{and, not, or, xor};
pub use comparisons::{eq, lt};
pub use divisions::{div, rem};
pub use parts::{as_signed, as_unsigned, bit, join, put_bit, put_slice, repeat, resize, slice};
pub use shifts::{sar, shl, shr, wide_shl};
pub use value::Bits;
