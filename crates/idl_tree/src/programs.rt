//! Bodies, functions and CSRs: what a program is made of.

use crate::statements::Stmts;
use crate::widths::Shape;
use crate::{Cond, Many, Name};

/// For which widths of the registers something stands: all, 32 alone or 64 alone.
#[derive(Clone, Copy, Debug, PartialEq, Eq)]
pub enum Base {
    All,
    Rv32,
    Rv64,
}

/// A run of bits of an instruction or a CSR, its ends included; of one bit `high` is `low`.
#[derive(Clone, Copy, Debug, PartialEq, Eq)]
pub struct BitPart {
    pub high: u16,
    pub low: u16,
}

/// Runs of bits, the first highest.
pub type BitParts = Many<BitPart>;

/// A variable of an encoding: the bits of an instruction that make it, shifted left by `shift`.
#[derive(Drop)]
pub struct Variable {
    pub base: Base,
    pub name: Name,
    pub location: BitParts,
    pub shift: u8,
}

/// Variables, in the order of the entry.
pub type Variables = Many<Variable>;

/// A body with the variables of its encoding, which has none outside instructions.
#[derive(Drop)]
pub struct Body {
    pub variables: Variables,
    pub statements: Stmts,
}

/// An argument of a function.
#[derive(Drop)]
pub struct Argument {
    pub shape: Shape,
    pub name: Name,
}

/// Arguments, in the order of the text.
pub type Arguments = Many<Argument>;

/// A function, with a result or none.
#[derive(Drop)]
pub struct Function {
    pub name: Name,
    pub result: Option<Shape>,
    pub arguments: Arguments,
    pub body: Body,
}

/// Functions, in the order in which they may call: each only those before it.
pub type Functions = Many<Function>;

/// How software and hardware may change a field; H says that hardware changes it, R that a write
/// of some values is refused.
#[derive(Clone, Copy, Debug, PartialEq, Eq)]
pub enum FieldType {
    RO,
    ROH,
    RW,
    RWR,
    RWH,
    RWRH,
}

/// A field's type, given or computed.
#[derive(Drop)]
pub enum FieldKind {
    Plain(FieldType),
    Computed(Body),
}

/// A field's value at reset, given or computed.
#[derive(Drop)]
pub enum ResetValue {
    Plain(u64),
    Computed(Body),
}

/// Where a field stands in its CSR: one place, or one for each width of the registers.
#[derive(Clone, Copy, Debug, PartialEq, Eq)]
pub enum FieldPlaces {
    All(BitPart),
    ByBase {
        rv32: Option<BitPart>,
        rv64: Option<BitPart>,
    },
}

/// How many bits a CSR has.
#[derive(Clone, Copy, Debug, PartialEq, Eq)]
pub enum Length {
    Bits32,
    Bits64,
    Mxlen,
}

/// A field of a CSR: when it is present, where it stands, and its bodies.
#[derive(Drop)]
pub struct FieldBodies {
    pub name: Name,
    pub present: Cond,
    pub places: FieldPlaces,
    pub kind: FieldKind,
    pub reset: ResetValue,
    pub write: Option<Body>,
}

/// Fields, in the order of the entry.
pub type Fields = Many<FieldBodies>;

/// A CSR with its fields.
#[derive(Drop)]
pub struct CsrBody {
    pub name: Name,
    pub present: Cond,
    pub address: u16,
    pub length: Length,
    pub fields: Fields,
}

/// CSRs, in the order of their names.
pub type CsrBodies = Many<CsrBody>;

/// All functions and CSRs.
#[derive(Drop)]
pub struct Program {
    pub functions: Functions,
    pub csrs: CsrBodies,
}
