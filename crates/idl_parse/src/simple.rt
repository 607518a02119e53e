//! Statements that hold no block, after the word that begins them. `below` is the nesting that may
//! stand in the statement.

ghost use Rattle.std.specs.Prelude.{◌≡◌, ◌≤◌, ◌-◌};
ghost use Rattle.idl_grammar.specs.StmtReader as spec;
ghost use Rattle.idl_exprs.specs.Gives.{Reads, pair};
ghost use Rattle.idl_parse.specs.Statements.{at, raised, stored};

use crate::types::{name, shape};
use idl_exprs::{Cursor, ExprPart, Stop, access, expect, expect_reserved, expr_part, keep};
use idl_token::{Reserved, Sign};
use idl_tree::{Boxed, Expr, Stmt};
use std::alloc::Global;

/// return_stmt ::= 'return' expr ';'
#[tactic(auto, unfolding(idl_grammar::specs::StmtReader::give))]
pub fn return_stmt(alloc: Global, tokens: &mut Cursor<'_>, below: u32) -> Result<(Stmt, u64), Stop>
    ensures { Reads pair (at spec.give below) tokens.old result tokens.new }
{
    let (value, nesting) = expr_part(alloc, tokens, below, ExprPart::Any)?;
    let (value, _) = keep(value, expect(tokens, Sign::Semicolon))?;
    Ok((Stmt::Return(value.into_inner()), nesting + 1))
}

/// jump ::= 'jump' '(' expr ')' ';'
#[tactic(auto, unfolding(idl_grammar::specs::StmtReader::jump))]
pub fn jump(alloc: Global, tokens: &mut Cursor<'_>, below: u32) -> Result<(Stmt, u64), Stop>
    ensures { Reads pair (at spec.jump below) tokens.old result tokens.new }
{
    expect(tokens, Sign::OpenParen)?;
    let (target, nesting) = expr_part(alloc, tokens, below, ExprPart::Any)?;
    let (target, _) = keep(target, expect(tokens, Sign::CloseParen))?;
    let (target, _) = keep(target, expect(tokens, Sign::Semicolon))?;
    Ok((Stmt::Jump(target.into_inner()), nesting + 1))
}

// After the code of an exception, of nesting `high`: 'mode' '(' ')' ',' expr ')' ';'
fn raise_value(
    alloc: Global,
    tokens: &mut Cursor<'_>,
    below: u32,
    code: Boxed<Expr>,
    high: u64,
) -> Result<(Stmt, u64), Stop>
    requires { high ≤ below }
    ensures { Reads pair (raised below (code, high)) tokens.old result tokens.new }
{
    let (code, _) = keep(code, expect_reserved(tokens, Reserved::Mode))?;
    let (code, _) = keep(code, expect(tokens, Sign::OpenParen))?;
    let (code, _) = keep(code, expect(tokens, Sign::CloseParen))?;
    let (code, _) = keep(code, expect(tokens, Sign::Comma))?;
    let (code, (tval, nesting)) = keep(code, expr_part(alloc, tokens, below, ExprPart::Any))?;
    let (parts, _) = keep((code, tval), expect(tokens, Sign::CloseParen))?;
    let ((code, tval), _) = keep(parts, expect(tokens, Sign::Semicolon))?;
    let (code, tval) = (code.into_inner(), tval.into_inner());
    Ok((Stmt::Raise { code, tval }, high.max(nesting) + 1))
}

/// raise ::= 'raise' '(' expr ',' 'mode' '(' ')' ',' expr ')' ';'
#[tactic(auto, unfolding(idl_grammar::specs::StmtReader::trap))]
pub fn raise(alloc: Global, tokens: &mut Cursor<'_>, below: u32) -> Result<(Stmt, u64), Stop>
    ensures { Reads pair (at spec.trap below) tokens.old result tokens.new }
{
    expect(tokens, Sign::OpenParen)?;
    let (code, high) = expr_part(alloc, tokens, below, ExprPart::Any)?;
    let (code, _) = keep(code, expect(tokens, Sign::Comma))?;
    raise_value(alloc, tokens, below, code, high)
}

// After the address of a write of memory, of nesting `high`: expr ')' ';'
fn memory_value(
    alloc: Global,
    tokens: &mut Cursor<'_>,
    below: u32,
    bits: u8,
    at: Boxed<Expr>,
    high: u64,
) -> Result<(Stmt, u64), Stop>
    requires { high ≤ below }
    ensures { Reads pair (stored below bits (at, high)) tokens.old result tokens.new }
{
    let (at, (value, nesting)) = keep(at, expr_part(alloc, tokens, below, ExprPart::Any))?;
    let (parts, _) = keep((at, value), expect(tokens, Sign::CloseParen))?;
    let ((at, value), _) = keep(parts, expect(tokens, Sign::Semicolon))?;
    let (at, value) = (at.into_inner(), value.into_inner());
    Ok((Stmt::WriteMemory { bits, at, value }, high.max(nesting) + 1))
}

/// write_memory ::= 'write_memory' access '(' expr ',' expr ')' ';'
#[tactic(auto, unfolding(idl_grammar::specs::StmtReader::memory))]
pub fn write_memory(alloc: Global, tokens: &mut Cursor<'_>, below: u32) -> Result<(Stmt, u64), Stop>
    ensures { Reads pair (at spec.memory below) tokens.old result tokens.new }
{
    let bits = access(tokens)?;
    expect(tokens, Sign::OpenParen)?;
    let (at, high) = expr_part(alloc, tokens, below, ExprPart::Any)?;
    let (at, _) = keep(at, expect(tokens, Sign::Comma))?;
    memory_value(alloc, tokens, below, bits, at, high)
}

/// declaration ::= shape word '=' expr ';'
#[tactic(auto, unfolding(idl_grammar::specs::StmtReader::declared))]
pub fn declaration(alloc: Global, tokens: &mut Cursor<'_>, below: u32) -> Result<(Stmt, u64), Stop>
    ensures { Reads pair (at spec.declared below) tokens.old result tokens.new }
{
    let (shape, high) = shape(alloc, tokens, below)?;
    let (shape, name) = keep(shape, name(alloc, tokens))?;
    let (kept, _) = keep((shape, name), expect(tokens, Sign::Assign))?;
    let read = expr_part(alloc, tokens, below, ExprPart::Any);
    let (kept, (value, nesting)) = keep(kept, read)?;
    let ((kept, value), _) = keep((kept, value), expect(tokens, Sign::Semicolon))?;
    let (shape, name) = kept;
    let value = value.into_inner();
    Ok((Stmt::Declare { shape, name, value }, high.max(nesting) + 1))
}
