//! Token values.

use crate::kinds::{Reserved, Sign, Special};

/// The value of a token, without its place and its spelling. Two numbers of one value in different
/// bases have one value.
#[derive(Clone, Copy, Drop)]
pub enum Seen<'a> {
    Word(&'a str),
    Reserved(Reserved),
    Special(Special),
    Number(u128),
    /// A sized number whose width is a number.
    SizedNumber {
        width: u128,
        signed: bool,
        value: u128,
    },
    /// A sized number whose width is a parameter.
    SizedWord {
        width: &'a str,
        signed: bool,
        value: u128,
    },
    Quoted(&'a str),
    Described,
    Sign(Sign),
}
