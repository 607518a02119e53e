//! Where the reading of an expression stands, and what it asks for next.

ghost use Rattle.std.specs.Prelude.{◌≡◌};
ghost use Rattle.idl_exprs.specs.Exprs.{part_of};
ghost use Rattle.idl_exprs.specs.Steps.{hole_part, asks};

use crate::exprs::ExprPart;
use idl_tree::{Binary, Boxed, Expr, Name, Unary, Width};

/// An atom that was read up to the expression that it holds.
#[derive(Drop)]
pub enum Open<'a> {
    AsSigned,
    Resize { width: Boxed<Width>, nesting: u64 },
    Register,
    Memory(u8),
    /// The address of a CSR, of which a word may have been read.
    Address(ExprPart<'a>),
}

/// An atom that was read, whole or up to what it holds.
#[derive(Drop)]
pub enum Opening<'a> {
    Whole(Boxed<Expr>, u64),
    Open(Open<'a>),
    Parens,
    Braces,
    /// A call of the name, with one argument at least.
    Arguments(Name),
}

/// Where an operand stands: in parentheses behind what was read first in them, with that nesting, or
/// in none.
#[derive(Clone, Copy)]
pub enum Place {
    Outside,
    Parens(u64),
}

/// What was read before an expression that is asked for.
#[derive(Drop)]
pub enum Hole<'a> {
    Open(Open<'a>),
    Signed(Unary),
    Parens,
    Right {
        level: u8,
        sign: Binary,
        left: Boxed<Expr>,
        nesting: u64,
        place: Place,
    },
    Yes {
        test: Boxed<Expr>,
        nesting: u64,
        place: Place,
    },
    No {
        test: Boxed<Expr>,
        yes: Boxed<Expr>,
        nesting: u64,
        place: Place,
    },
}

/// Where the reading of an expression stands.
#[derive(Drop)]
pub enum Step<'a> {
    Done(Boxed<Expr>, u64),
    /// An operand was read, and brackets may follow.
    Operand(Boxed<Expr>, u64),
    /// An expression comes next.
    Inner(Hole<'a>),
    /// The arguments of a call of the name come next.
    Arguments(Name),
    /// What stands in braces comes next.
    Braces,
    /// What stands in brackets comes next.
    Brackets {
        of: Boxed<Expr>,
        nesting: u64,
    },
    /// The width by which a left shift widens comes next.
    Wide {
        level: u8,
        left: Boxed<Expr>,
        nesting: u64,
        place: Place,
    },
}

fn open_part<'a>(start: &Open<'a>) -> ExprPart<'a>
    ensures { part_of result ≡ hole_part start.now }
{
    match start {
        Open::Address(part) => *part,
        _ => ExprPart::Any,
    }
}

/// Which part of an expression comes next.
pub fn next_part<'a>(hole: &Hole<'a>) -> ExprPart<'a>
    ensures { part_of result ≡ asks hole.now }
{
    match hole {
        Hole::Open(start) => open_part(start),
        Hole::Signed(_) => ExprPart::Tight(0),
        Hole::Parens => ExprPart::Tight(0),
        Hole::Right { level, .. } => ExprPart::Tight(*level),
        Hole::Yes { .. } => ExprPart::Any,
        Hole::No { .. } => ExprPart::Any,
    }
}
