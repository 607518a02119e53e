//! The forms of conditions that stand round other conditions or a parameter.

/// How a list of conditions is joined.
#[derive(Clone, Copy)]
pub enum Join {
    /// `allOf`: each holds.
    All,
    /// `anyOf`: some holds.
    Any,
    /// `oneOf`: exactly one holds.
    One,
}

/// What the only key of a map says of its value.
#[derive(Clone, Copy)]
pub enum Form {
    /// `extension`: a condition.
    Extension,
    /// `param`: a parameter with a test.
    Param,
    /// A list of conditions.
    Joined(Join),
    /// `not`: a condition that must fail.
    Not,
}
