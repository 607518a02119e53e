//! Expressions.

use crate::widths::{EnumKind, Width};
use crate::{Boxed, Chars, Many, Name};

/// A sign before one operand: `!`, `~`, `-`.
#[derive(Clone, Copy, Debug, PartialEq, Eq)]
pub enum Unary {
    Not,
    Invert,
    Minus,
}

/// A sign between two operands, from the loosest group to the tightest: `||`, `&&`, `|`, `^`, `&`,
/// `==`, `!=`, `<`, `<=`, `>`, `>=`, `<<`, `>>`, `>>>`, `+`, `-`, `` `+ ``, `` `- ``, `*`,
/// `` `* ``, `/`, `%`.
#[derive(Clone, Copy, Debug, PartialEq, Eq)]
pub enum Binary {
    Or,
    And,
    BitOr,
    BitXor,
    BitAnd,
    Equal,
    NotEqual,
    Below,
    AtMost,
    Above,
    AtLeast,
    Left,
    Right,
    RightSigned,
    Add,
    Sub,
    WideAdd,
    WideSub,
    Mul,
    WideMul,
    Div,
    Rem,
}

/// An expression. Fields stand in the order of the text; parentheses leave no variant.
#[derive(Drop)]
pub enum Expr {
    Number(u128),
    /// A literal with a width: `4'd3`, `4'sd3`. The value is as written.
    Sized {
        width: Width,
        signed: bool,
        value: u128,
    },
    Text(Chars),
    Flag(bool),
    /// A local, an argument, a variable of the encoding or a parameter.
    Word(Name),
    Member {
        kind: EnumKind,
        name: Name,
    },
    Unary {
        sign: Unary,
        of: Boxed<Expr>,
    },
    Binary {
        sign: Binary,
        left: Boxed<Expr>,
        right: Boxed<Expr>,
    },
    /// The left shift that widens, by a fixed amount.
    WideLeft {
        left: Boxed<Expr>,
        by: Width,
    },
    Choice {
        test: Boxed<Expr>,
        yes: Boxed<Expr>,
        no: Boxed<Expr>,
    },
    /// Bits side by side, the first highest.
    Join(Exprs),
    Repeat {
        times: Width,
        of: Boxed<Expr>,
    },
    Index {
        of: Boxed<Expr>,
        at: Boxed<Expr>,
    },
    Slice {
        of: Boxed<Expr>,
        high: Width,
        low: Width,
    },
    Call {
        name: Name,
        args: Exprs,
    },
    Signed(Boxed<Expr>),
    Resize {
        width: Width,
        of: Boxed<Expr>,
    },
    Pc,
    Encoding,
    /// An integer register.
    Register(Boxed<Expr>),
    Field {
        csr: Name,
        field: Name,
    },
    /// The CSR of an address, as software reads it.
    SoftRead(Boxed<Expr>),
    ReadMemory {
        bits: u8,
        at: Boxed<Expr>,
    },
    /// A field of the value that software writes.
    NewField(Name),
    /// The privilege mode.
    Mode,
    Implemented(Name),
    ImplementedVersion {
        extension: Name,
        text: Chars,
    },
}

/// Expressions, in the order of the text.
pub type Exprs = Many<Expr>;
