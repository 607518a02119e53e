//! What follows an operand. `below` is the nesting that its parts may have.

ghost use Rattle.std.specs.Prelude.{◌≡◌, ◌≤◌, ◌<◌, ◌+◌, ◌*◌, IfOk};
ghost use Rattle.idl_exprs.specs.Exprs.{part_of};
ghost use Rattle.idl_exprs.specs.Steps as step;
ghost use Rattle.idl_exprs.specs.Steps.{Chosen, Topped, Onward, BehindOperand, PlaceFits, StepFits, reach, floor};

use crate::cursor::{Cursor, expect};
use crate::exprs::{ExprPart, Operator};
use crate::progress::{Hole, Place, Step};
use crate::signs::next_operator;
use crate::stop::{Stop, keep};
use idl_token::Sign;
use idl_tree::{Boxed, Expr};

/// How many levels of signs between two operands there are.
const LOOSEST: u8 = 10;

fn level_limit(part: ExprPart<'_>, place: Place) -> u8
    ensures { result ≡ step.upto (part_of part.entry) place }
{
    match place {
        Place::Parens(_) => LOOSEST,
        Place::Outside => match part {
            ExprPart::Tight(level) => level,
            _ => LOOSEST,
        },
    }
}

// Whether a choice may follow.
fn may_choose(part: ExprPart<'_>, place: Place) -> bool
    ensures { result ≡ step.may_choose (part_of part.entry) place }
{
    match place {
        Place::Parens(_) => true,
        Place::Outside => match part {
            ExprPart::Tight(_) => false,
            _ => true,
        },
    }
}

/// Where a choice has been read, or none follows.
pub fn after_choice<'a>(
    tokens: &mut Cursor<'a>,
    below: u32,
    part: ExprPart<'a>,
    place: Place,
    found: Boxed<Expr>,
    nesting: u64,
) -> Result<Step<'a>, Stop>
    requires small { nesting ≤ below + 1 }
    requires fits { PlaceFits below place }
    ensures leads { Chosen below part.entry place found nesting tokens.old result tokens.new }
    ensures fits { IfOk result (StepFits below) }
    ensures grows { IfOk result (λ s. floor place nesting < reach below s) }
{
    match place {
        Place::Outside => Ok(Step::Done(found, nesting)),
        Place::Parens(low) => {
            let (found, _) = keep(found, expect(tokens, Sign::CloseParen))?;
            Ok(Step::Operand(found, nesting.max(low + 1)))
        }
    }
}

fn choice_or_end<'a>(
    tokens: &mut Cursor<'a>,
    below: u32,
    part: ExprPart<'a>,
    place: Place,
    test: Boxed<Expr>,
    nesting: u64,
) -> Result<Step<'a>, Stop>
    requires small { nesting ≤ below + 1 }
    requires fits { PlaceFits below place }
    ensures leads { Topped below part.entry place test nesting tokens.old result tokens.new }
    ensures fits { IfOk result (StepFits below) }
    ensures grows { IfOk result (λ s. floor place nesting < reach below s) }
{
    if !may_choose(part, place) {
        return after_choice(tokens, below, part, place, test, nesting);
    }
    if !tokens.sees(Sign::Question) {
        return after_choice(tokens, below, part, place, test, nesting);
    }
    if nesting > u64::from(below) {
        return Err(Stop::Fault);
    }
    tokens.skip();
    Ok(Step::Inner(Hole::Yes {
        test,
        nesting,
        place,
    }))
}

/// Behind an operand or a binary form, where signs of the level and of looser ones may follow.
pub fn operators<'a>(
    tokens: &mut Cursor<'a>,
    below: u32,
    part: ExprPart<'a>,
    place: Place,
    level: u8,
    left: Boxed<Expr>,
    nesting: u64,
) -> Result<Step<'a>, Stop>
    requires small { nesting ≤ below + 1 }
    requires fits { PlaceFits below place }
    ensures leads { Onward below part.entry place level left nesting tokens.old result tokens.new }
    ensures fits { IfOk result (StepFits below) }
    ensures grows { IfOk result (λ s. floor place nesting < reach below s) }
{
    match next_operator(tokens, level, level_limit(part, place)) {
        None => choice_or_end(tokens, below, part, place, left, nesting),
        Some((level, operator)) => {
            if nesting > u64::from(below) {
                return Err(Stop::Fault);
            }
            tokens.skip();
            Ok(right_side(operator, level, left, nesting, place))
        }
    }
}

fn right_side<'a>(
    operator: Operator,
    level: u8,
    left: Boxed<Expr>,
    nesting: u64,
    place: Place,
) -> Step<'a>
    ensures { result ≡ step.right_side operator level left nesting place }
{
    match operator {
        Operator::Plain(sign) => Step::Inner(Hole::Right {
            level,
            sign,
            left,
            nesting,
            place,
        }),
        Operator::Wide => Step::Wide {
            level,
            left,
            nesting,
            place,
        },
    }
}

/// Behind an operand, which brackets may follow.
pub fn behind_operand<'a>(
    tokens: &mut Cursor<'a>,
    below: u32,
    part: ExprPart<'a>,
    of: Boxed<Expr>,
    nesting: u64,
) -> Result<Step<'a>, Stop>
    requires small { nesting ≤ below + 1 }
    ensures leads { BehindOperand below part.entry of nesting tokens.old result tokens.new }
    ensures fits { IfOk result (StepFits below) }
    ensures grows { IfOk result (λ s. 4 * nesting + 1 < reach below s) }
{
    if !tokens.sees(Sign::OpenBracket) {
        return operators(tokens, below, part, Place::Outside, 0, of, nesting);
    }
    if nesting > u64::from(below) {
        return Err(Stop::Fault);
    }
    tokens.skip();
    Ok(Step::Brackets { of, nesting })
}
