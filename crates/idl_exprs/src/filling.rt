//! The steps of a level: its beginning, and what follows each thing that a step asked for.

ghost use Rattle.std.specs.Prelude.{◌≡◌, ◌≤◌, ◌<◌, ◌+◌, ◌*◌, ◌^◌, IfOk};
ghost use Rattle.idl_grammar.specs.ExprReader as er;
ghost use Rattle.idl_exprs.specs.Exprs.{part_of, inside_of};
ghost use Rattle.idl_exprs.specs.declared.progress.Hole.TheVariants as hole;
ghost use Rattle.idl_exprs.specs.declared.progress.Step.TheVariants as st;
ghost use Rattle.idl_exprs.specs.Steps as step;
ghost use Rattle.idl_exprs.specs.Steps.{Level, FirstOperand, Closed, Filled, Second, Called, Widened, PlaceFits, HoleFits, StepFits, hole_reach, reach};

use crate::atoms::{atom, word_or_call};
use crate::behind::{after_choice, operators};
use crate::closing::close;
use crate::cursor::{Cursor, expect};
use crate::exprs::{ExprPart, Inside};
use crate::progress::{Hole, Open, Opening, Place, Step};
use crate::signs::unary_at;
use crate::stop::{Stop, keep};
use crate::widths::width_atom;
use idl_token::Sign;
use idl_tree::{Boxed, Expr, Exprs, Name};
use std::alloc::{AllocError, Global};

fn first_step<'a>(opening: Opening<'a>) -> Step<'a>
    ensures { result ≡ step.opened opening.entry }
{
    match opening {
        Opening::Whole(found, nesting) => Step::Operand(found, nesting),
        Opening::Open(start) => Step::Inner(Hole::Open(start)),
        Opening::Parens => Step::Inner(Hole::Parens),
        Opening::Braces => Step::Braces,
        Opening::Arguments(name) => Step::Arguments(name),
    }
}

fn first_operand<'a>(
    alloc: Global,
    tokens: &mut Cursor<'a>,
    below: u32,
    part: ExprPart<'a>,
) -> Result<Step<'a>, Stop>
    ensures leads { FirstOperand below part.entry tokens.old result tokens.new }
    ensures fits { IfOk result (StepFits below) }
{
    match unary_at(tokens) {
        Some(sign) => {
            if below == 0 {
                return Err(Stop::Fault);
            }
            tokens.skip();
            Ok(Step::Inner(Hole::Signed(sign)))
        }
        None => {
            let opening = atom(alloc, tokens, below)?;
            Ok(first_step(opening))
        },
    }
}

// Behind the expression that an atom holds.
fn after_atom<'a>(
    alloc: Global,
    tokens: &mut Cursor<'a>,
    below: u32,
    part: ExprPart<'a>,
    start: Open<'a>,
    found: Boxed<Expr>,
    nesting: u64,
) -> Result<Step<'a>, Stop>
    requires small { nesting ≤ below }
    requires fits { step.OpenFits below start }
    ensures leads { Closed below part.entry start.entry found nesting tokens.old result tokens.new }
    ensures fits { IfOk result (StepFits below) }
    ensures grows { IfOk result (λ s. 0 < reach below s) }
{
    let (whole, nesting) = close(alloc, tokens, start, found, nesting)?;
    Ok(Step::Operand(whole, nesting))
}

// Behind the first side of a choice.
fn first_side<'a>(
    tokens: &mut Cursor<'a>,
    below: u32,
    part: ExprPart<'a>,
    test: Boxed<Expr>,
    yes: Boxed<Expr>,
    nesting: u64,
    place: Place,
) -> Result<Step<'a>, Stop>
    requires small { nesting ≤ below }
    requires fits { PlaceFits below place }
    ensures leads { Second below part.entry (test, yes) nesting place tokens.old result tokens.new }
    ensures fits { IfOk result (StepFits below) }
    ensures grows { IfOk result (λ s. 4 * nesting + 2 < reach below s) }
{
    let step = Step::Inner(Hole::No {
        test,
        yes,
        nesting,
        place,
    });
    let (step, _) = keep(step, expect(tokens, Sign::Colon))?;
    Ok(step)
}

/// Behind the expression that was asked for.
pub fn fill<'a>(
    alloc: Global,
    tokens: &mut Cursor<'a>,
    below: u32,
    part: ExprPart<'a>,
    hole: Hole<'a>,
    found: Boxed<Expr>,
    nesting: u64,
) -> Result<Step<'a>, Stop>
    requires small { nesting ≤ below }
    requires fits { HoleFits below hole }
    ensures leads { Filled below part.entry hole.entry found nesting tokens.old result tokens.new }
    ensures fits { IfOk result (StepFits below) }
    ensures grows { IfOk result (λ s. hole_reach hole.entry < reach below s) }
{
    match hole {
        Hole::Open(start) => after_atom(alloc, tokens, below, part, start, found, nesting),
        Hole::Signed(sign) => {
            let whole = Boxed::new(alloc, Expr::Unary { sign, of: found })?;
            operators(tokens, below, part, Place::Outside, 0, whole, nesting + 1)
        }
        Hole::Parens => operators(
            tokens,
            below,
            part,
            Place::Parens(nesting),
            0,
            found,
            nesting,
        ),
        Hole::Right {
            level,
            sign,
            left,
            nesting: high,
            place,
        } => {
            let both = Boxed::new(
                alloc,
                Expr::Binary {
                    sign,
                    left,
                    right: found,
                },
            )?;
            operators(
                tokens,
                below,
                part,
                place,
                level,
                both,
                high.max(nesting) + 1,
            )
        }
        Hole::Yes {
            test,
            nesting: high,
            place,
        } => first_side(tokens, below, part, test, found, high.max(nesting), place),
        Hole::No {
            test,
            yes,
            nesting: high,
            place,
        } => {
            let no = found;
            let whole = Boxed::new(alloc, Expr::Choice { test, yes, no })?;
            after_choice(tokens, below, part, place, whole, high.max(nesting) + 1)
        }
    }
}

/// Behind the arguments of a call.
pub fn after_arguments<'a>(
    alloc: Global,
    tokens: &mut Cursor<'a>,
    below: u32,
    part: ExprPart<'a>,
    name: Name,
    args: Exprs,
    nesting: u64,
) -> Result<Step<'a>, Stop>
    requires small { nesting ≤ below }
    ensures leads { Called below part.entry name args nesting tokens.old result tokens.new }
    ensures fits { IfOk result (StepFits below) }
    ensures grows { IfOk result (λ s. 0 < reach below s) }
{
    let call = Boxed::new(alloc, Expr::Call { name, args })?;
    let (call, _) = keep(call, expect(tokens, Sign::CloseParen))?;
    Ok(Step::Operand(call, nesting + 1))
}

/// Behind what stands in brackets.
pub fn after_brackets<'a>(
    alloc: Global,
    of: Boxed<Expr>,
    nesting: u64,
    found: Inside,
    inner: u64,
) -> Result<Step<'a>, AllocError>
    requires small { nesting < 2 ^ 32 }
    requires inner_small { inner < 2 ^ 32 }
    ensures { IfOk result (λ s. s ≡ step.indexed of nesting (inside_of found) inner) }
{
    let whole = match found {
        Inside::Place(at) => Boxed::new(alloc, Expr::Index { of, at })?,
        Inside::Slice { high, low } => {
            let (high, low) = (high.into_inner(), low.into_inner());
            Boxed::new(alloc, Expr::Slice { of, high, low })?
        }
    };
    Ok(Step::Operand(whole, nesting.max(inner) + 1))
}

/// The width by which a left shift widens, and what follows it.
pub fn after_wide_left<'a>(
    alloc: Global,
    tokens: &mut Cursor<'a>,
    below: u32,
    part: ExprPart<'a>,
    level: u8,
    left: Boxed<Expr>,
    nesting: u64,
    place: Place,
) -> Result<Step<'a>, Stop>
    requires small { nesting ≤ below }
    requires fits { PlaceFits below place }
    ensures leads { Widened below part.entry place level left nesting tokens.old result tokens.new }
    ensures fits { IfOk result (StepFits below) }
    ensures grows { IfOk result (λ s. 4 * nesting + 2 < reach below s) }
{
    let (left, (by, inner)) = keep(left, width_atom(alloc, tokens, below))?;
    let by = by.into_inner();
    let whole = Boxed::new(alloc, Expr::WideLeft { left, by })?;
    let high = nesting.max(inner) + 1;
    operators(tokens, below, part, place, level, whole, high)
}

/// The beginning of a level.
pub fn begin<'a>(
    alloc: Global,
    tokens: &mut Cursor<'a>,
    below: u32,
    part: ExprPart<'a>,
) -> Result<Step<'a>, Stop>
    ensures leads { Level below part.entry tokens.old result tokens.new }
    ensures fits { IfOk result (StepFits below) }
{
    match part {
        ExprPart::Behind(name) => {
            let opening = word_or_call(alloc, tokens, below, name)?;
            Ok(first_step(opening))
        },
        ExprPart::Tight(_) => first_operand(alloc, tokens, below, part),
        ExprPart::Any => first_operand(alloc, tokens, below, part),
    }
}
