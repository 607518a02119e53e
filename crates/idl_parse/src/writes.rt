//! Assignments, calls and writes of CSRs as software sees them. `below` is the nesting that may
//! stand in the statement.

ghost use Rattle.std.specs.Prelude.{◌≡◌, ◌≤◌, ◌<◌, ◌-◌};
ghost use Rattle.idl_grammar.specs.ExprReader as er;
ghost use Rattle.idl_grammar.specs.Outcome.{same_text};
ghost use Rattle.idl_grammar.specs.StmtGrammar as grammar;
ghost use Rattle.idl_grammar.specs.StmtReader as spec;
ghost use Rattle.idl_grammar.specs.Tables.{sw_write};
ghost use Rattle.idl_exprs.specs.Exprs.{part_of, inside_of};
ghost use Rattle.idl_exprs.specs.Gives.{Reads, pair};
ghost use Rattle.idl_parse.specs.Statements.{at, call_alone, call_with};

use idl_exprs::{
    Cursor, ExprPart, Inside, Stop, args, expect, expect_word, expr_part, in_brackets, keep, word,
};
use idl_token::{Seen, Sign};
use idl_tree::{Boxed, Expr, Many, Name, Stmt, Target};
use std::alloc::Global;
use udb_base::both;

fn part_of_word(name: Name, found: Inside) -> Target
    ensures { result ≡ grammar.part_of_word name (inside_of found) }
{
    match found {
        Inside::Place(at) => {
            let at = at.into_inner();
            Target::Bit { name, at }
        }
        Inside::Slice { high, low } => {
            let (high, low) = (high.into_inner(), low.into_inner());
            Target::Slice { name, high, low }
        }
    }
}

fn is_sw_write(name: &str) -> bool
    ensures { result ≡ same_text name.now sw_write }
{
    name == "sw_write"
}

// After a target of nesting `high` and its sign: expr ';'
#[tactic(auto, unfolding(idl_grammar::specs::StmtReader::assigned))]
fn assignment(
    alloc: Global,
    tokens: &mut Cursor<'_>,
    below: u32,
    target: Target,
    high: u64,
) -> Result<(Stmt, u64), Stop>
    requires { high ≤ below }
    ensures { Reads pair (at spec.assigned below target high) tokens.old result tokens.new }
{
    let read = expr_part(alloc, tokens, below, ExprPart::Any);
    let (target, (value, nesting)) = keep(target, read)?;
    let (parts, _) = keep((target, value), expect(tokens, Sign::Semicolon))?;
    let (target, value) = parts;
    let value = value.into_inner();
    Ok((Stmt::Assign { target, value }, high.max(nesting) + 1))
}

fn call_alone(alloc: Global, tokens: &mut Cursor<'_>, name: &str) -> Result<(Stmt, u64), Stop>
    ensures { Reads pair (call_alone name.now) tokens.old result tokens.new }
{
    expect(tokens, Sign::Semicolon)?;
    let name = Name::of(alloc, name)?;
    let args = Many::new(alloc);
    Ok((Stmt::Call { name, args }, 1))
}

// args ')' ';'
fn call_with(
    alloc: Global,
    tokens: &mut Cursor<'_>,
    below: u32,
    name: &str,
) -> Result<(Stmt, u64), Stop>
    ensures { Reads pair (call_with below name.now) tokens.old result tokens.new }
{
    let (args, nesting) = args(alloc, tokens, below)?;
    let (args, _) = keep(args, expect(tokens, Sign::CloseParen))?;
    let (args, _) = keep(args, expect(tokens, Sign::Semicolon))?;
    let (args, name) = keep(args, Name::of(alloc, name))?;
    Ok((Stmt::Call { name, args }, nesting + 1))
}

// call ::= word '(' [ args ] ')' ';', after the parenthesis
#[tactic(auto, unfolding(idl_grammar::specs::StmtReader::called))]
fn call(alloc: Global, tokens: &mut Cursor<'_>, below: u32, name: &str) -> Result<(Stmt, u64), Stop>
    ensures { Reads pair (at spec.called below name.now) tokens.old result tokens.new }
{
    if tokens.sees(Sign::CloseParen) {
        tokens.skip();
        return call_alone(alloc, tokens, name);
    }
    if below == 0 {
        return Err(Stop::Fault);
    }
    call_with(alloc, tokens, below, name)
}

// part ::= word '[' inside '=' expr ';', after the bracket
#[tactic(auto, unfolding(idl_grammar::specs::StmtReader::part))]
fn part(alloc: Global, tokens: &mut Cursor<'_>, below: u32, name: &str) -> Result<(Stmt, u64), Stop>
    requires { 1 ≤ below }
    ensures { Reads pair (at spec.part below name.now) tokens.old result tokens.new }
{
    let (found, nesting) = in_brackets(alloc, tokens, below - 1)?;
    let (found, _) = keep(found, expect(tokens, Sign::Assign))?;
    let (found, name) = keep(found, Name::of(alloc, name))?;
    assignment(alloc, tokens, below, part_of_word(name, found), nesting + 1)
}

/// What follows a word: a call, or an assignment to it or to a part of it.
// worded ::= '(' call | '=' assignment | '[' part
#[tactic(auto, unfolding(idl_grammar::specs::StmtReader::worded))]
pub fn after_word(
    alloc: Global,
    tokens: &mut Cursor<'_>,
    below: u32,
    word: &str,
) -> Result<(Stmt, u64), Stop>
    ensures { Reads pair (at spec.worded below word.now) tokens.old result tokens.new }
{
    match tokens.peek() {
        Some(Seen::Sign(Sign::OpenParen)) => {
            tokens.skip();
            call(alloc, tokens, below, word)
        }
        Some(Seen::Sign(Sign::Assign)) => {
            if below == 0 {
                return Err(Stop::Fault);
            }
            tokens.skip();
            let name = Name::of(alloc, word)?;
            assignment(alloc, tokens, below, Target::Word(name), 1)
        }
        Some(Seen::Sign(Sign::OpenBracket)) => {
            if below == 0 {
                return Err(Stop::Fault);
            }
            tokens.skip();
            part(alloc, tokens, below, word)
        }
        _ => Err(Stop::Fault),
    }
}

/// register ::= 'X' '[' expr ']' '=' assignment, after the word
#[tactic(auto, unfolding(idl_grammar::specs::StmtReader::register))]
pub fn register(alloc: Global, tokens: &mut Cursor<'_>, below: u32) -> Result<(Stmt, u64), Stop>
    requires { 1 ≤ below }
    ensures { Reads pair (at spec.register below) tokens.old result tokens.new }
{
    expect(tokens, Sign::OpenBracket)?;
    let (at, nesting) = expr_part(alloc, tokens, below - 1, ExprPart::Any)?;
    let (at, _) = keep(at, expect(tokens, Sign::CloseBracket))?;
    let (at, _) = keep(at, expect(tokens, Sign::Assign))?;
    assignment(
        alloc,
        tokens,
        below,
        Target::Register(at.into_inner()),
        nesting + 1,
    )
}

// After an address of nesting `high` and the parenthesis of `sw_write`: expr ')' ';'
#[tactic(auto, unfolding(idl_grammar::specs::StmtReader::written))]
fn soft_value(
    alloc: Global,
    tokens: &mut Cursor<'_>,
    below: u32,
    address: Boxed<Expr>,
    high: u64,
) -> Result<(Stmt, u64), Stop>
    requires { high ≤ below }
    ensures { Reads pair (at spec.written below (address, high)) tokens.old result tokens.new }
{
    let read = expr_part(alloc, tokens, below, ExprPart::Any);
    let (address, (value, nesting)) = keep(address, read)?;
    let (parts, _) = keep((address, value), expect(tokens, Sign::CloseParen))?;
    let (parts, _) = keep(parts, expect(tokens, Sign::Semicolon))?;
    let (address, value) = parts;
    let (address, value) = (address.into_inner(), value.into_inner());
    Ok((Stmt::SoftWrite { address, value }, high.max(nesting) + 1))
}

// soft_write ::= '.' 'sw_write' '(' soft_value, after an address of nesting `high`
#[tactic(auto, unfolding(idl_grammar::specs::StmtReader::soft_write))]
fn soft_write(
    alloc: Global,
    tokens: &mut Cursor<'_>,
    below: u32,
    address: Boxed<Expr>,
    high: u64,
) -> Result<(Stmt, u64), Stop>
    requires { high ≤ below }
    ensures { Reads pair (at spec.soft_write below (address, high)) tokens.old result tokens.new }
{
    let (address, _) = keep(address, expect(tokens, Sign::Dot))?;
    let (address, _) = keep(address, expect_word(tokens, "sw_write"))?;
    let (address, _) = keep(address, expect(tokens, Sign::OpenParen))?;
    soft_value(alloc, tokens, below, address, high)
}

// address ::= expr ']' soft_write, where a word of the expression may have been read
#[tactic(auto, unfolding(idl_grammar::specs::StmtReader::address))]
fn address<'a>(
    alloc: Global,
    tokens: &mut Cursor<'a>,
    below: u32,
    what: ExprPart<'a>,
) -> Result<(Stmt, u64), Stop>
    ensures { Reads pair (at spec.address below (part_of what.entry)) tokens.old result tokens.new }
{
    let (address, high) = expr_part(alloc, tokens, below, what)?;
    let (address, _) = keep(address, expect(tokens, Sign::CloseBracket))?;
    soft_write(alloc, tokens, below, address, high)
}

#[tactic(auto, unfolding(idl_grammar::specs::StmtReader::field_set))]
fn field_assignment(
    alloc: Global,
    tokens: &mut Cursor<'_>,
    below: u32,
    csr: &str,
    field: &str,
) -> Result<(Stmt, u64), Stop>
    requires { 1 ≤ below }
    ensures { Reads pair (at spec.field_set below csr.now field.now) tokens.old result tokens.new }
{
    expect(tokens, Sign::Assign)?;
    let (csr, field) = both(Name::of(alloc, csr), Name::of(alloc, field))?;
    assignment(alloc, tokens, below, Target::Field { csr, field }, 1)
}

// A field of the name `sw_write` is set too; only a call of it writes the CSR.
#[tactic(auto, unfolding(idl_grammar::specs::StmtReader::field_or_write))]
fn field_or_write(
    alloc: Global,
    tokens: &mut Cursor<'_>,
    below: u32,
    csr: &str,
    field: &str,
) -> Result<(Stmt, u64), Stop>
    requires { 1 ≤ below }
    ensures { Reads pair (at spec.field_or_write below csr.now field.now) tokens.old
        result tokens.new }
{
    if !is_sw_write(field) || !tokens.sees(Sign::OpenParen) {
        return field_assignment(alloc, tokens, below, csr, field);
    }
    tokens.skip();
    let csr = Name::of(alloc, csr)?;
    let csr = Boxed::new(alloc, Expr::Word(csr))?;
    soft_value(alloc, tokens, below, csr, 1)
}

// field ::= '.' word ( '=' assignment | '(' soft_value )
#[tactic(auto, unfolding(idl_grammar::specs::StmtReader::field))]
fn field(alloc: Global, tokens: &mut Cursor<'_>, below: u32, csr: &str) -> Result<(Stmt, u64), Stop>
    requires { 1 ≤ below }
    ensures { Reads pair (at spec.field below csr.now) tokens.old result tokens.new }
{
    expect(tokens, Sign::Dot)?;
    let field = word(tokens)?;
    field_or_write(alloc, tokens, below, csr, field)
}

// csr_word ::= ']' field | the rest of the address that begins with the word
#[tactic(auto, unfolding(idl_grammar::specs::StmtReader::csr_word))]
fn csr_word<'a>(
    alloc: Global,
    tokens: &mut Cursor<'a>,
    below: u32,
    word: &'a str,
) -> Result<(Stmt, u64), Stop>
    requires { 1 ≤ below }
    ensures { Reads pair (at spec.csr_word below word.now) tokens.old result tokens.new }
{
    if tokens.sees(Sign::CloseBracket) {
        tokens.skip();
        return field(alloc, tokens, below, word);
    }
    address(alloc, tokens, below, ExprPart::Behind(word))
}

/// csr ::= 'CSR' '[' ( word csr_word | address ), after the word for CSRs
#[tactic(auto, unfolding(idl_grammar::specs::StmtReader::csr))]
pub fn csr(alloc: Global, tokens: &mut Cursor<'_>, below: u32) -> Result<(Stmt, u64), Stop>
    requires { 1 ≤ below }
    ensures { Reads pair (at spec.csr below) tokens.old result tokens.new }
{
    expect(tokens, Sign::OpenBracket)?;
    match tokens.peek() {
        Some(Seen::Word(word)) => {
            tokens.skip();
            csr_word(alloc, tokens, below, word)
        }
        _ => address(alloc, tokens, below, ExprPart::Any),
    }
}
