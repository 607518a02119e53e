//! Conditions over extensions and parameters.

use crate::versions::Requirements;
use crate::{Chars, Many, Name};
use sqlite_items::Boxed;

/// A value of a parameter.
#[derive(Debug, PartialEq, Eq, Drop)]
pub enum Value {
    Flag(bool),
    Number(u64),
    Word(Chars),
}

/// How a condition compares a parameter with a value; the last four are for numbers.
#[derive(Clone, Copy, Debug, PartialEq, Eq)]
pub enum Test {
    Equal,
    NotEqual,
    Above,
    AtLeast,
    Below,
    AtMost,
}

/// A condition over a full configuration.
#[derive(Drop)]
pub enum Cond {
    Always,
    Never,
    Ext {
        name: Name,
        needs: Requirements,
    },
    Param {
        name: Name,
        test: Test,
        value: Value,
    },
    All(Many<Cond>),
    Any(Many<Cond>),
    One(Many<Cond>),
    Not(Boxed<Cond>),
}

/// Conditions, in the order of the entry.
pub type Conds = Many<Cond>;
