//! Versions of extensions and requirements on them.

use crate::Many;

/// A version, compared part by part; missing parts are 0.
#[derive(Clone, Copy, Debug, PartialEq, Eq, PartialOrd, Ord)]
pub struct Version {
    pub major: u32,
    pub minor: u32,
    pub patch: u32,
}

/// How a requirement compares a version with its own. `Compatible` is written `~>`: at least that
/// version, and no listed version in between breaks.
#[derive(Clone, Copy, Debug, PartialEq, Eq)]
pub enum Compare {
    Equal,
    NotEqual,
    Above,
    AtLeast,
    Below,
    AtMost,
    Compatible,
}

/// A requirement on the version of an extension.
#[derive(Clone, Copy, Debug, PartialEq, Eq)]
pub struct Requirement {
    pub compare: Compare,
    pub version: Version,
}

/// Requirements that are all to be met.
pub type Requirements = Many<Requirement>;

/// A version that an extension lists, and whether it breaks with the versions before it.
#[derive(Clone, Copy, Debug, PartialEq, Eq)]
pub struct Listed {
    pub version: Version,
    pub breaking: bool,
}

/// Listed versions, in the order of the entry.
pub type ListedVersions = Many<Listed>;
