//! Statements and what they assign to.

use crate::expressions::{Expr, Exprs};
use crate::widths::{Shape, Width};
use crate::{Many, Name};

/// What an assignment writes.
#[derive(Drop)]
pub enum Target {
    Word(Name),
    Bit { name: Name, at: Expr },
    Slice { name: Name, high: Width, low: Width },
    /// An integer register.
    Register(Expr),
    Field { csr: Name, field: Name },
}

/// A statement. Fields stand in the order of the text.
#[derive(Drop)]
pub enum Stmt {
    Declare {
        shape: Shape,
        name: Name,
        value: Expr,
    },
    Assign {
        target: Target,
        value: Expr,
    },
    Block(Stmts),
    Return(Expr),
    /// `else if` is an `If` that is the whole of `no`.
    If {
        test: Expr,
        yes: Stmts,
        no: Option<Stmts>,
    },
    /// A counter of 32 bits from the first width, below the second.
    For {
        name: Name,
        from: Width,
        to: Width,
        block: Stmts,
    },
    Jump(Expr),
    /// An exception in the machine mode.
    Raise {
        code: Expr,
        tval: Expr,
    },
    WriteMemory {
        bits: u8,
        at: Expr,
        value: Expr,
    },
    /// The CSR of an address, as software writes it.
    SoftWrite {
        address: Expr,
        value: Expr,
    },
    Call {
        name: Name,
        args: Exprs,
    },
}

/// Statements, in the order of the text.
pub type Stmts = Many<Stmt>;
