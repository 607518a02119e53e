//! Widths of types, literals and slices, which may depend on parameters.

use crate::{Boxed, Name};

/// A width: a whole number once the parameters have values.
#[derive(Drop)]
pub enum Width {
    /// A number as it is written, at most 65,535 in a text.
    Number(u32),
    /// The value of a parameter.
    Word(Name),
    Plus(Boxed<Width>, Boxed<Width>),
    Minus(Boxed<Width>, Boxed<Width>),
    Times(Boxed<Width>, Boxed<Width>),
    Max(Boxed<Width>, Boxed<Width>),
    /// The width of a variable of the encoding, or with a CSR of one of its fields.
    Bits { csr: Option<Name>, name: Name },
}

/// The enumerations that the language knows.
#[derive(Clone, Copy, Debug, PartialEq, Eq)]
pub enum EnumKind {
    PrivilegeMode,
    ExceptionCode,
    CsrFieldType,
}

/// The shape of a local, an argument or a result.
#[derive(Drop)]
pub enum Shape {
    Bits { signed: bool, width: Width },
    Boolean,
    Enum(EnumKind),
}
