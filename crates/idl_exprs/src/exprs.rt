//! Expressions. A reader answers an expression and its nesting.
//!
//! A level reads step by step: what it has read so far and what comes next are a step's, and only
//! the expressions inside it are read by a call.

ghost use Rattle.std.specs.Prelude.{◌≡◌, ◌≤◌, ◌+◌, IfOk};
ghost use Rattle.idl_grammar.specs.Outcome as o;
ghost use Rattle.idl_grammar.specs.ExprReader as er;
ghost use Rattle.idl_exprs.specs.Exprs.{expr_of, inside};
ghost use Rattle.idl_exprs.specs.Gives.{Reads, pair, in_expr};

use crate::behind::behind_operand;
use crate::cursor::{Cursor, expect};
use crate::farther::{farther, farther_inside};
use crate::filling::{after_arguments, after_brackets, after_wide_left, begin, fill};
use crate::lists::{only, with};
use crate::progress::{Step, next_part};
use crate::stop::{Stop, keep};
use crate::widths::width;
use idl_token::Sign;
use idl_tree::{Binary, Boxed, Expr, Exprs, Width};
use std::alloc::Global;

/// What stands in brackets behind an operand or a word.
#[derive(Drop)]
pub enum Inside {
    Place(Boxed<Expr>),
    Slice {
        high: Boxed<Width>,
        low: Boxed<Width>,
    },
}

/// What is read: an expression that binds as tightly as a level, any expression, or the rest of one
/// that begins with the word, which has been read.
#[derive(Clone, Copy)]
pub enum ExprPart<'a> {
    Tight(u8),
    Any,
    Behind(&'a str),
}

/// What stands between two operands: a binary form, or the left shift that widens by a width.
#[derive(Clone, Copy)]
pub enum Operator {
    Plain(Binary),
    Wide,
}

/// A part of an expression, of nesting at most `depth`.
#[cycle(exprs)]
pub fn expr_part<'a>(
    alloc: Global,
    tokens: &mut Cursor<'a>,
    depth: u32,
    what: ExprPart<'a>,
) -> Result<(Boxed<Expr>, u64), Stop>
    ensures read { Reads pair (expr_of depth what.entry) tokens.old result tokens.new }
    ensures small { IfOk result (λ x. x.1 ≤ depth) }
{
    if depth == 0 {
        return Err(Stop::Fault);
    }
    let below = depth - 1;
    let mut step = begin(alloc, tokens, below, what)?;
    loop {
        match step {
            Step::Done(found, nesting) => return Ok((found, nesting)),
            Step::Operand(of, nesting) => {
                step = behind_operand(tokens, below, what, of, nesting)?;
            }
            Step::Inner(hole) => {
                let read = expr_part(alloc, tokens, below, next_part(&hole));
                let (hole, (found, nesting)) = keep(hole, read)?;
                step = fill(alloc, tokens, below, what, hole, found, nesting)?;
            }
            Step::Arguments(name) => {
                let (name, (found, nesting)) = keep(name, args(alloc, tokens, below))?;
                step = after_arguments(alloc, tokens, below, what, name, found, nesting)?;
            }
            Step::Braces => {
                let (found, nesting) = braced(alloc, tokens, below)?;
                step = Step::Operand(found, nesting);
            }
            Step::Brackets { of, nesting } => {
                let (of, (found, inner)) = keep(of, in_brackets(alloc, tokens, below))?;
                step = after_brackets(alloc, of, nesting, found, inner)?;
            }
            Step::Wide {
                level,
                left,
                nesting,
                place,
            } => {
                step = after_wide_left(alloc, tokens, below, what, level, left, nesting, place)?;
            }
        }
    }
}

/// Expressions with commas between them, one at least.
#[cycle(exprs)]
pub fn args(alloc: Global, tokens: &mut Cursor<'_>, depth: u32) -> Result<(Exprs, u64), Stop>
    ensures read { Reads pair (o.commas (er.expr depth)) tokens.old result tokens.new }
    ensures small { IfOk result (λ x. x.1 ≤ depth) }
{
    let (first, low) = expr_part(alloc, tokens, depth, ExprPart::Any)?;
    let mut found = only(alloc, first.into_inner())?;
    let mut nesting = low;
    while tokens.sees(Sign::Comma) {
        tokens.skip();
        let (all, (next, high)) = keep(found, expr_part(alloc, tokens, depth, ExprPart::Any))?;
        found = with(all, next.into_inner())?;
        nesting = nesting.max(high);
    }
    Ok((found, nesting))
}

// One place in brackets.
#[cycle(exprs)]
#[tactic(auto, unfolding(idl_grammar::specs::ExprReader::single))]
fn single(alloc: Global, tokens: &mut Cursor<'_>, depth: u32) -> Result<(Inside, u64), Stop>
    ensures read { Reads inside (er.single depth (er.expr depth)) tokens.old result tokens.new }
    ensures small { IfOk result (λ x. x.1 ≤ depth) }
{
    let (at, nesting) = expr_part(alloc, tokens, depth, ExprPart::Any)?;
    let (at, _) = keep(at, expect(tokens, Sign::CloseBracket))?;
    Ok((Inside::Place(at), nesting))
}

// range ::= width ':' width ']'
#[tactic(auto, unfolding(idl_grammar::specs::ExprReader::range))]
fn range(alloc: Global, tokens: &mut Cursor<'_>, depth: u32) -> Result<(Inside, u64), Stop>
    ensures read { Reads inside (er.range depth (er.expr depth)) tokens.old result tokens.new }
    ensures small { IfOk result (λ x. x.1 ≤ depth) }
{
    let (high, one) = width(alloc, tokens, depth)?;
    let (high, _) = keep(high, expect(tokens, Sign::Colon))?;
    let (high, (low, two)) = keep(high, width(alloc, tokens, depth))?;
    let slice = Inside::Slice { high, low };
    let (slice, _) = keep(slice, expect(tokens, Sign::CloseBracket))?;
    Ok((slice, one.max(two)))
}

/// What stands in brackets, after the opening one and with the closing one: an expression, or two
/// widths. The reading that comes farther counts.
#[cycle(exprs)]
#[tactic(auto, unfolding(idl_grammar::specs::ExprReader::inside))]
pub fn in_brackets(
    alloc: Global,
    tokens: &mut Cursor<'_>,
    depth: u32,
) -> Result<(Inside, u64), Stop>
    ensures read { Reads inside (er.inside depth (er.expr depth)) tokens.old result tokens.new }
    ensures small { IfOk result (λ x. x.1 ≤ depth) }
{
    let start = tokens.rest;
    let first = single(alloc, tokens, depth);
    let end = tokens.rest;
    tokens.rest = start;
    let second = range(alloc, tokens, depth);
    farther_inside(tokens, first, end, second)
}

// Expressions that are joined, with the closing brace.
#[cycle(exprs)]
#[tactic(auto, unfolding(idl_grammar::specs::ExprReader::joined))]
fn join(alloc: Global, tokens: &mut Cursor<'_>, depth: u32) -> Result<(Boxed<Expr>, u64), Stop>
    ensures read { Reads pair (in_expr er.joined depth) tokens.old result tokens.new }
    ensures small { IfOk result (λ x. x.1 ≤ depth) }
{
    let (found, nesting) = args(alloc, tokens, depth)?;
    let (found, _) = keep(found, expect(tokens, Sign::CloseBrace))?;
    Ok((Boxed::new(alloc, Expr::Join(found))?, nesting))
}

// An expression that is repeated as often as a width says, with both closing braces.
#[cycle(exprs)]
#[tactic(auto, unfolding(idl_grammar::specs::ExprReader::repeated))]
fn repeat(alloc: Global, tokens: &mut Cursor<'_>, depth: u32) -> Result<(Boxed<Expr>, u64), Stop>
    ensures read { Reads pair (in_expr er.repeated depth) tokens.old result tokens.new }
    ensures small { IfOk result (λ x. x.1 ≤ depth) }
{
    let (times, low) = width(alloc, tokens, depth)?;
    let (times, _) = keep(times, expect(tokens, Sign::OpenBrace))?;
    let (times, (of, high)) = keep(times, expr_part(alloc, tokens, depth, ExprPart::Any))?;
    let times = times.into_inner();
    let whole = Boxed::new(alloc, Expr::Repeat { times, of })?;
    let (whole, _) = keep(whole, expect(tokens, Sign::CloseBrace))?;
    let (whole, _) = keep(whole, expect(tokens, Sign::CloseBrace))?;
    Ok((whole, low.max(high)))
}

// What stands in braces, after the opening one and with the closing one: expressions that are
// joined, or one that is repeated. The reading that comes farther counts.
#[cycle(exprs)]
fn braced(alloc: Global, tokens: &mut Cursor<'_>, depth: u32) -> Result<(Boxed<Expr>, u64), Stop>
    ensures read { Reads pair (in_expr er.braced depth) tokens.old result tokens.new }
    ensures small { IfOk result (λ x. x.1 ≤ depth + 1) }
{
    let start = tokens.rest;
    let first = join(alloc, tokens, depth);
    let end = tokens.rest;
    tokens.rest = start;
    let second = repeat(alloc, tokens, depth);
    let (found, nesting) = farther(tokens, first, end, second)?;
    Ok((found, nesting + 1))
}
