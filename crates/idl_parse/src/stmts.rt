//! Statements and their blocks. A reader answers what was read and its nesting; `below` is the
//! nesting that may stand in a statement.

ghost use Rattle.std.specs.Prelude.{◌≡◌, ◌≤◌, ◌+◌, ◌-◌, IfOk};
ghost use Rattle.idl_grammar.specs.Outcome as o;
ghost use Rattle.idl_grammar.specs.StmtReader as spec;
ghost use Rattle.idl_exprs.specs.Gives.{Reads, pair, ahead};
ghost use Rattle.idl_parse.specs.Statements.{at, any_stmt, begins_at, else_block, else_if, for_to, for_block};

use crate::simple::{declaration, jump, raise, return_stmt, write_memory};
use crate::writes::{after_word, csr, register};
use idl_exprs::{
    Cursor, ExprPart, Stop, expect, expect_reserved, expect_word, expr_part, keep, only, width,
    with, word,
};
use idl_token::{Reserved, Seen, Sign};
use idl_tree::{Boxed, Many, Name, Stmt, Stmts, Width};
use std::alloc::Global;

fn begins_reserved(word: Reserved) -> bool
    ensures { result ≡ spec.begins_reserved word }
{
    matches!(
        word,
        Reserved::Bits
            | Reserved::Boolean
            | Reserved::XReg
            | Reserved::U32
            | Reserved::U64
            | Reserved::Signed
            | Reserved::If
            | Reserved::For
            | Reserved::Return
            | Reserved::X
            | Reserved::Csr
            | Reserved::Jump
            | Reserved::Raise
            | Reserved::WriteMemory
            | Reserved::PrivilegeMode
            | Reserved::ExceptionCode
            | Reserved::CsrFieldType
    )
}

fn begins(tokens: &Cursor<'_>) -> bool
    ensures { result ≡ begins_at (o.head (ahead tokens.now)) }
{
    match tokens.peek() {
        Some(Seen::Word(_)) => true,
        Some(Seen::Sign(Sign::OpenBrace)) => true,
        Some(Seen::Reserved(word)) => begins_reserved(word),
        _ => false,
    }
}

/// Statements of nesting at most `depth`, for as long as one begins.
#[cycle(stmts)]
pub fn stmts(alloc: Global, tokens: &mut Cursor<'_>, depth: u32) -> Result<(Stmts, u64), Stop>
    ensures read { Reads pair (spec.stmts depth) tokens.old result tokens.new }
    ensures small { IfOk result (λ x. x.1 ≤ depth) }
{
    let mut found = Many::new(alloc);
    let mut nesting: u64 = 0;
    'rows: while begins(tokens) {
        let (all, (next, high)) = keep(found, one(alloc, tokens, depth))?;
        found = with(all, next)?;
        nesting = nesting.max(high);
    }
    Ok((found, nesting))
}

#[cycle(stmts)]
#[tactic(auto, unfolding(crate::specs::Statements::any_stmt))]
fn one(alloc: Global, tokens: &mut Cursor<'_>, depth: u32) -> Result<(Stmt, u64), Stop>
    ensures { Reads pair (any_stmt depth) tokens.old result tokens.new }
{
    if depth == 0 {
        return Err(Stop::Fault);
    }
    stmt(alloc, tokens, depth - 1)
}

// stmt ::= word after_word | '{' stmts '}' | 'X' register | 'CSR' csr | 'return' return_stmt
//     | 'if' if_stmt | 'for' for_stmt | 'jump' jump | 'raise' raise | 'write_memory' write_memory
//     | declaration
#[cycle(stmts)]
#[tactic(auto, unfolding(idl_grammar::specs::StmtReader::stmt))]
fn stmt(alloc: Global, tokens: &mut Cursor<'_>, below: u32) -> Result<(Stmt, u64), Stop>
    ensures { Reads pair (at spec.stmt below) tokens.old result tokens.new }
{
    match tokens.peek() {
        Some(Seen::Word(word)) => {
            tokens.skip();
            after_word(alloc, tokens, below, word)
        }
        Some(Seen::Sign(Sign::OpenBrace)) => {
            tokens.skip();
            block_stmt(alloc, tokens, below)
        }
        Some(Seen::Reserved(Reserved::X)) => {
            if below < 2 {
                return Err(Stop::Fault);
            }
            tokens.skip();
            register(alloc, tokens, below)
        }
        Some(Seen::Reserved(Reserved::Csr)) => {
            if below == 0 {
                return Err(Stop::Fault);
            }
            tokens.skip();
            csr(alloc, tokens, below)
        }
        Some(Seen::Reserved(Reserved::Return)) => {
            if below == 0 {
                return Err(Stop::Fault);
            }
            tokens.skip();
            return_stmt(alloc, tokens, below)
        }
        Some(Seen::Reserved(Reserved::If)) => {
            if below == 0 {
                return Err(Stop::Fault);
            }
            tokens.skip();
            if_stmt(alloc, tokens, below)
        }
        Some(Seen::Reserved(Reserved::For)) => {
            tokens.skip();
            for_stmt(alloc, tokens, below)
        }
        Some(Seen::Reserved(Reserved::Jump)) => {
            if below == 0 {
                return Err(Stop::Fault);
            }
            tokens.skip();
            jump(alloc, tokens, below)
        }
        Some(Seen::Reserved(Reserved::Raise)) => {
            if below == 0 {
                return Err(Stop::Fault);
            }
            tokens.skip();
            raise(alloc, tokens, below)
        }
        Some(Seen::Reserved(Reserved::WriteMemory)) => {
            if below == 0 {
                return Err(Stop::Fault);
            }
            tokens.skip();
            write_memory(alloc, tokens, below)
        }
        _ => {
            if below == 0 {
                return Err(Stop::Fault);
            }
            declaration(alloc, tokens, below)
        }
    }
}

// After the opening one of block ::= '{' stmts '}'
#[cycle(stmts)]
#[tactic(auto, unfolding(idl_grammar::specs::StmtReader::braced))]
fn block(alloc: Global, tokens: &mut Cursor<'_>, below: u32) -> Result<(Stmts, u64), Stop>
    ensures read { Reads pair (at spec.braced below) tokens.old result tokens.new }
    ensures small { IfOk result (λ x. x.1 ≤ below) }
{
    let (found, nesting) = stmts(alloc, tokens, below)?;
    let (found, _) = keep(found, expect(tokens, Sign::CloseBrace))?;
    Ok((found, nesting))
}

#[cycle(stmts)]
#[tactic(auto, unfolding(idl_grammar::specs::StmtReader::blocked))]
fn block_stmt(alloc: Global, tokens: &mut Cursor<'_>, below: u32) -> Result<(Stmt, u64), Stop>
    ensures { Reads pair (at spec.blocked below) tokens.old result tokens.new }
{
    let (found, nesting) = block(alloc, tokens, below)?;
    Ok((Stmt::Block(found), nesting + 1))
}

// if_stmt ::= 'if' '(' expr ')' block otherwise, after the word
#[cycle(stmts)]
#[tactic(auto, unfolding(idl_grammar::specs::StmtReader::when))]
fn if_stmt(alloc: Global, tokens: &mut Cursor<'_>, below: u32) -> Result<(Stmt, u64), Stop>
    ensures read { Reads pair (at spec.when below) tokens.old result tokens.new }
    ensures small { IfOk result (λ x. x.1 ≤ below + 1) }
{
    expect(tokens, Sign::OpenParen)?;
    let (test, high) = expr_part(alloc, tokens, below, ExprPart::Any)?;
    let (test, _) = keep(test, expect(tokens, Sign::CloseParen))?;
    let (test, _) = keep(test, expect(tokens, Sign::OpenBrace))?;
    let (test, (yes, low)) = keep(test, block(alloc, tokens, below))?;
    let (parts, (no, inner)) = keep((test, yes), otherwise(alloc, tokens, below))?;
    let (test, yes) = parts;
    let test = test.into_inner();
    Ok((Stmt::If { test, yes, no }, high.max(low.max(inner)) + 1))
}

// otherwise ::= [ 'else' ( block | 'if' if_stmt ) ]
#[cycle(stmts)]
#[tactic(auto, unfolding(idl_grammar::specs::StmtReader::otherwise))]
fn otherwise(
    alloc: Global,
    tokens: &mut Cursor<'_>,
    below: u32,
) -> Result<(Option<Stmts>, u64), Stop>
    ensures read { Reads pair (at spec.otherwise below) tokens.old result tokens.new }
    ensures small { IfOk result (λ x. x.1 ≤ below) }
{
    if !tokens.sees_reserved(Reserved::Else) {
        return Ok((None, 0));
    }
    tokens.skip();
    match tokens.peek() {
        Some(Seen::Sign(Sign::OpenBrace)) => {
            tokens.skip();
            else_block(alloc, tokens, below)
        }
        Some(Seen::Reserved(Reserved::If)) => {
            if below < 2 {
                return Err(Stop::Fault);
            }
            tokens.skip();
            else_if(alloc, tokens, below)
        }
        _ => Err(Stop::Fault),
    }
}

#[cycle(stmts)]
fn else_block(
    alloc: Global,
    tokens: &mut Cursor<'_>,
    below: u32,
) -> Result<(Option<Stmts>, u64), Stop>
    ensures read { Reads pair (else_block below) tokens.old result tokens.new }
    ensures small { IfOk result (λ x. x.1 ≤ below) }
{
    let (found, nesting) = block(alloc, tokens, below)?;
    Ok((Some(found), nesting))
}

// An `else if` is a block of one statement, which nests no deeper than this `if`.
#[cycle(stmts)]
fn else_if(alloc: Global, tokens: &mut Cursor<'_>, below: u32) -> Result<(Option<Stmts>, u64), Stop>
    requires { 2 ≤ below }
    ensures read { Reads pair (else_if below) tokens.old result tokens.new }
    ensures small { IfOk result (λ x. x.1 ≤ below) }
{
    let (found, nesting) = if_stmt(alloc, tokens, below - 1)?;
    Ok((Some(only(alloc, found)?), nesting))
}

// After the bounds of a counter, with their nesting: ';' word '++' ')' block
#[cycle(stmts)]
fn for_block(
    alloc: Global,
    tokens: &mut Cursor<'_>,
    below: u32,
    counter: &str,
    from: (Boxed<Width>, u64),
    to: (Boxed<Width>, u64),
) -> Result<(Stmt, u64), Stop>
    requires low { from.1 ≤ below }
    requires high { to.1 ≤ below }
    ensures { Reads pair (for_block below counter.now from to) tokens.old result tokens.new }
{
    let bounds = (from, to);
    let (bounds, _) = keep(bounds, expect(tokens, Sign::Semicolon))?;
    let (bounds, _) = keep(bounds, expect_word(tokens, counter))?;
    let (bounds, _) = keep(bounds, expect(tokens, Sign::Increment))?;
    let (bounds, _) = keep(bounds, expect(tokens, Sign::CloseParen))?;
    let (bounds, _) = keep(bounds, expect(tokens, Sign::OpenBrace))?;
    let (bounds, (block, inner)) = keep(bounds, block(alloc, tokens, below))?;
    let ((bounds, block), name) = keep((bounds, block), Name::of(alloc, counter))?;
    let ((from, low), (to, high)) = bounds;
    let (from, to) = (from.into_inner(), to.into_inner());
    let found = Stmt::For {
        name,
        from,
        to,
        block,
    };
    Ok((found, low.max(high.max(inner)) + 1))
}

// After the first bound of a counter, with its nesting: ';' word '<' width for_block
#[cycle(stmts)]
fn for_to(
    alloc: Global,
    tokens: &mut Cursor<'_>,
    below: u32,
    counter: &str,
    from: (Boxed<Width>, u64),
) -> Result<(Stmt, u64), Stop>
    requires { from.1 ≤ below }
    ensures { Reads pair (for_to below counter.now from) tokens.old result tokens.new }
{
    let (from, _) = keep(from, expect(tokens, Sign::Semicolon))?;
    let (from, _) = keep(from, expect_word(tokens, counter))?;
    let (from, _) = keep(from, expect(tokens, Sign::Less))?;
    let (from, to) = keep(from, width(alloc, tokens, below))?;
    for_block(alloc, tokens, below, counter, from, to)
}

// for_stmt ::= 'for' '(' 'U32' word '=' width for_to, after the word
#[cycle(stmts)]
#[tactic(auto, unfolding(idl_grammar::specs::StmtReader::count))]
fn for_stmt(alloc: Global, tokens: &mut Cursor<'_>, below: u32) -> Result<(Stmt, u64), Stop>
    ensures { Reads pair (at spec.count below) tokens.old result tokens.new }
{
    expect(tokens, Sign::OpenParen)?;
    expect_reserved(tokens, Reserved::U32)?;
    let counter = word(tokens)?;
    expect(tokens, Sign::Assign)?;
    let from = width(alloc, tokens, below)?;
    for_to(alloc, tokens, below, counter, from)
}
