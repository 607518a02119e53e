//! The trees of the instruction description language: widths, expressions, statements, bodies,
//! functions and CSRs. Their text and their nodes are defined here, and printed in `idl_print`;
//! `idl_copy` copies them.
#![tactic(auto)]

mod expressions;
mod programs;
mod statements;
mod widths;

pub use expressions::{Binary, Expr, Exprs, Unary};
pub use programs::{
    Argument, Arguments, Base, BitPart, BitParts, Body, CsrBodies, CsrBody, FieldBodies, FieldKind,
    FieldPlaces, FieldType, Fields, Function, Functions, Length, Program, ResetValue, Variable,
    Variables,
};
pub use statements::{Stmt, Stmts, Target};
pub use udb_base::{Boxed, Chars, Cond, Many, Name, NoMemory};
pub use widths::{EnumKind, Shape, Width};
