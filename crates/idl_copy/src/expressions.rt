//! Copies of expressions.

ghost use Rattle.std.specs.Prelude.{◌≡◌, IfOk};

use crate::widths::{copy_ends, copy_width};
use idl_tree::{Expr, Exprs};
use std::alloc::Global;
use udb_base::{Boxed, Copied, Many, NoMemory, both, copy_two};

/// A copy of an expression. The one refusal is want of memory.
#[cycle(expression_copies)]
pub fn copy_expression(alloc: Global, e: &Expr) -> Result<Expr, NoMemory>
    ensures { IfOk result (λ copy. copy ≡ e.now) }
{
    match e {
        Expr::Number(number) => Ok(Expr::Number(*number)),
        Expr::Sized {
            width,
            signed,
            value,
        } => Ok(Expr::Sized {
            width: copy_width(alloc, width)?,
            signed: *signed,
            value: *value,
        }),
        Expr::Text(text) => Ok(Expr::Text(text.copy(alloc)?)),
        Expr::Flag(flag) => Ok(Expr::Flag(*flag)),
        Expr::Word(name) => Ok(Expr::Word(name.copy(alloc)?)),
        Expr::Member { kind, name } => Ok(Expr::Member {
            kind: *kind,
            name: name.copy(alloc)?,
        }),
        Expr::Unary { sign, of } => Ok(Expr::Unary {
            sign: *sign,
            of: copy_boxed(alloc, of.get())?,
        }),
        Expr::Binary { sign, left, right } => {
            let (left, right) = both(
                copy_boxed(alloc, left.get()),
                copy_boxed(alloc, right.get()),
            )?;
            let sign = *sign;
            Ok(Expr::Binary { sign, left, right })
        }
        Expr::WideLeft { left, by } => {
            let (by, left) = both(copy_width(alloc, by), copy_boxed(alloc, left.get()))?;
            Ok(Expr::WideLeft { left, by })
        }
        Expr::Choice { test, yes, no } => {
            let sides = both(copy_boxed(alloc, yes.get()), copy_boxed(alloc, no.get()));
            let (test, (yes, no)) = both(copy_boxed(alloc, test.get()), sides)?;
            Ok(Expr::Choice { test, yes, no })
        }
        Expr::Join(parts) => Ok(Expr::Join(copy_expressions(alloc, parts.as_slice())?)),
        Expr::Repeat { times, of } => {
            let (times, of) = both(copy_width(alloc, times), copy_boxed(alloc, of.get()))?;
            Ok(Expr::Repeat { times, of })
        }
        Expr::Index { of, at } => {
            let (of, at) = both(copy_boxed(alloc, of.get()), copy_boxed(alloc, at.get()))?;
            Ok(Expr::Index { of, at })
        }
        Expr::Slice { of, high, low } => {
            let ends = copy_ends(alloc, high, low);
            let (of, (high, low)) = both(copy_boxed(alloc, of.get()), ends)?;
            Ok(Expr::Slice { of, high, low })
        }
        Expr::Call { name, args } => {
            let args = copy_expressions(alloc, args.as_slice());
            let (name, args) = both(name.copy(alloc), args)?;
            Ok(Expr::Call { name, args })
        }
        Expr::Signed(of) => Ok(Expr::Signed(copy_boxed(alloc, of.get())?)),
        Expr::Resize { width, of } => {
            let (width, of) = both(copy_width(alloc, width), copy_boxed(alloc, of.get()))?;
            Ok(Expr::Resize { width, of })
        }
        Expr::Pc => Ok(Expr::Pc),
        Expr::Encoding => Ok(Expr::Encoding),
        Expr::Register(at) => Ok(Expr::Register(copy_boxed(alloc, at.get())?)),
        Expr::Field { csr, field } => {
            let (csr, field) = copy_two(alloc, csr, field)?;
            Ok(Expr::Field { csr, field })
        }
        Expr::SoftRead(at) => Ok(Expr::SoftRead(copy_boxed(alloc, at.get())?)),
        Expr::ReadMemory { bits, at } => Ok(Expr::ReadMemory {
            bits: *bits,
            at: copy_boxed(alloc, at.get())?,
        }),
        Expr::NewField(name) => Ok(Expr::NewField(name.copy(alloc)?)),
        Expr::Mode => Ok(Expr::Mode),
        Expr::Implemented(name) => Ok(Expr::Implemented(name.copy(alloc)?)),
        Expr::ImplementedVersion { extension, text } => {
            let (extension, text) = copy_two(alloc, extension, text)?;
            Ok(Expr::ImplementedVersion { extension, text })
        }
    }
}

// A copy in a box of its own.
#[cycle(expression_copies)]
fn copy_boxed(alloc: Global, one: &Expr) -> Result<Boxed<Expr>, NoMemory>
    ensures { IfOk result (λ e. e ≡ one.now) }
{
    Boxed::new(alloc, copy_expression(alloc, one)?)
}

/// A copy of expressions. The one refusal is want of memory.
#[cycle(expression_copies)]
pub fn copy_expressions(alloc: Global, all: &[Expr]) -> Result<Exprs, NoMemory>
    ensures { IfOk result (λ c. c ≡ all.now) }
{
    let mut copies = Many::new(alloc);
    for one in all {
        copies.push(copy_expression(alloc, one)?)?;
    }
    Ok(copies)
}
