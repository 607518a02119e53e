//! Spaces of configurations, and full configurations.

use crate::conditions::{Cond, Value};
use crate::versions::{ListedVersions, Version};
use crate::{Many, Name};

/// Listed numbers.
pub type Numbers = Many<u64>;

/// Listed texts.
pub type Words = Many<crate::Chars>;

/// The values that a parameter can have, in order: false before true, lists as written, a range
/// from its low end to its high end.
#[derive(Debug, Drop)]
pub enum Domain {
    Flags,
    Numbers(Numbers),
    Range { low: u64, high: u64 },
    Words(Words),
}

/// An extension of a space: its versions rise, and `needs` has to hold where it is present.
#[derive(Drop)]
pub struct ExtSpace {
    pub name: Name,
    pub versions: ListedVersions,
    pub needs: Cond,
}

/// A parameter of a space: where `defined` holds `needs` has to hold, and where it fails the
/// parameter has the first value of its domain.
#[derive(Drop)]
pub struct ParamSpace {
    pub name: Name,
    pub domain: Domain,
    pub defined: Cond,
    pub needs: Cond,
}

/// Extensions in the order of their names.
pub type ExtSpaces = Many<ExtSpace>;

/// Parameters in the order of their names.
pub type ParamSpaces = Many<ParamSpace>;

/// What configurations choose: the extensions and the parameters, each in the order of names.
#[derive(Drop)]
pub struct Space {
    pub extensions: ExtSpaces,
    pub params: ParamSpaces,
}

/// The choice of each extension: none where it is absent.
pub type Choices = Many<Option<Version>>;

/// The value of each parameter.
pub type Values = Many<Value>;

/// A full configuration: a choice for each extension and a value for each parameter of a space, in
/// the space's order.
#[derive(Drop)]
pub struct Full {
    pub extensions: Choices,
    pub params: Values,
}
