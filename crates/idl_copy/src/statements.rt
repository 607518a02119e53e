//! Copies of statements.

ghost use Rattle.std.specs.Prelude.{◌≡◌, IfOk};

use crate::expressions::{copy_expression, copy_expressions};
use crate::widths::{copy_ends, copy_shape};
use idl_tree::{Expr, Stmt, Stmts, Target};
use std::alloc::Global;
use udb_base::{Copied, Many, NoMemory, both, copy_two};

// Two expressions.
fn copy_pair(alloc: Global, a: &Expr, b: &Expr) -> Result<(Expr, Expr), NoMemory>
    ensures { IfOk result (λ p. p ≡ (a.now, b.now)) }
{
    both(copy_expression(alloc, a), copy_expression(alloc, b))
}

fn copy_target(alloc: Global, target: &Target) -> Result<Target, NoMemory>
    ensures { IfOk result (λ copy. copy ≡ target.now) }
{
    match target {
        Target::Word(name) => Ok(Target::Word(name.copy(alloc)?)),
        Target::Bit { name, at } => {
            let (name, at) = both(name.copy(alloc), copy_expression(alloc, at))?;
            Ok(Target::Bit { name, at })
        }
        Target::Slice { name, high, low } => {
            let ends = copy_ends(alloc, high, low);
            let (name, (high, low)) = both(name.copy(alloc), ends)?;
            Ok(Target::Slice { name, high, low })
        }
        Target::Register(at) => Ok(Target::Register(copy_expression(alloc, at)?)),
        Target::Field { csr, field } => {
            let (csr, field) = copy_two(alloc, csr, field)?;
            Ok(Target::Field { csr, field })
        }
    }
}

/// A copy of a statement. The one refusal is want of memory.
#[cycle(statement_copies)]
pub fn copy_statement(alloc: Global, s: &Stmt) -> Result<Stmt, NoMemory>
    ensures { IfOk result (λ copy. copy ≡ s.now) }
{
    match s {
        Stmt::Declare { shape, name, value } => {
            let named = both(copy_shape(alloc, shape), name.copy(alloc));
            let ((shape, name), value) = both(named, copy_expression(alloc, value))?;
            Ok(Stmt::Declare { shape, name, value })
        }
        Stmt::Assign { target, value } => {
            let value = copy_expression(alloc, value);
            let (target, value) = both(copy_target(alloc, target), value)?;
            Ok(Stmt::Assign { target, value })
        }
        Stmt::Block(block) => Ok(Stmt::Block(copy_statements(alloc, block.as_slice())?)),
        Stmt::Return(value) => Ok(Stmt::Return(copy_expression(alloc, value)?)),
        Stmt::If { test, yes, no } => {
            let test = copy_expression(alloc, test);
            let yes = copy_statements(alloc, yes.as_slice());
            match no {
                Some(no) => {
                    let sides = both(yes, copy_statements(alloc, no.as_slice()));
                    let (test, (yes, no)) = both(test, sides)?;
                    Ok(Stmt::If {
                        test,
                        yes,
                        no: Some(no),
                    })
                }
                None => {
                    let (test, yes) = both(test, yes)?;
                    Ok(Stmt::If {
                        test,
                        yes,
                        no: None,
                    })
                }
            }
        }
        Stmt::For {
            name,
            from,
            to,
            block,
        } => {
            let block = copy_statements(alloc, block.as_slice());
            let named = both(name.copy(alloc), copy_ends(alloc, from, to));
            let ((name, (from, to)), block) = both(named, block)?;
            Ok(Stmt::For {
                name,
                from,
                to,
                block,
            })
        }
        Stmt::Jump(to) => Ok(Stmt::Jump(copy_expression(alloc, to)?)),
        Stmt::Raise { code, tval } => {
            let (code, tval) = copy_pair(alloc, code, tval)?;
            Ok(Stmt::Raise { code, tval })
        }
        Stmt::WriteMemory { bits, at, value } => {
            let (at, value) = copy_pair(alloc, at, value)?;
            let bits = *bits;
            Ok(Stmt::WriteMemory { bits, at, value })
        }
        Stmt::SoftWrite { address, value } => {
            let (address, value) = copy_pair(alloc, address, value)?;
            Ok(Stmt::SoftWrite { address, value })
        }
        Stmt::Call { name, args } => {
            let args = copy_expressions(alloc, args.as_slice());
            let (name, args) = both(name.copy(alloc), args)?;
            Ok(Stmt::Call { name, args })
        }
    }
}

/// A copy of statements. The one refusal is want of memory.
#[cycle(statement_copies)]
pub fn copy_statements(alloc: Global, all: &[Stmt]) -> Result<Stmts, NoMemory>
    ensures { IfOk result (λ c. c ≡ all.now) }
{
    let mut copies = Many::new(alloc);
    for one in all {
        copies.push(copy_statement(alloc, one)?)?;
    }
    Ok(copies)
}
