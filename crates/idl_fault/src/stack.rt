//! The stack, and the readings that are compared on it.

ghost use Rattle.std.specs.Prelude.{◌≡◌, ◌++◌, ◌∷◌, List, IfOk};
ghost use Rattle.idl_grammar.specs.Outcome as o;
ghost use Rattle.idl_fault.specs.Machine as m;
ghost use Rattle.idl_token.specs.Seen.{symbols};
ghost use Rattle.idl_fault.specs.Views.{items, first_of_pair, second_of_pair, reading_of, frame_of, stack_of, fall_of, after_counter};

use crate::items::{
    ARGS, ASSIGN, CLOSE_BRACE, CLOSE_BRACKET, CLOSE_PAREN, COLON, EXPR, INCREMENT, LESS,
    OPEN_BRACE, SEMICOLON, STMTS, WIDTH,
};
use crate::parts::{Fall, Frame, Item, Pair, Reading};
use idl_token::Seen;
use udb_base::NoMemory;

/// The stack with one frame more.
#[tactic(auto, using(crate::proofs::Stacks::stack_pushed))]
pub fn push<'a>(stack: Vec<Frame<'a>>, top: Frame<'a>) -> Result<Vec<Frame<'a>>, NoMemory>
    ensures { IfOk result (λ s. stack_of s.items
        ≡ frame_of top.entry ∷ stack_of stack.entry.items) }
{
    let mut grown = stack;
    grown.push(top)?;
    Ok(grown)
}

/// The stack with more to be read, the first of it on top.
pub fn push_all<'a>(stack: Vec<Frame<'a>>, more: &[Item<'a>]) -> Result<Vec<Frame<'a>>, NoMemory>
    ensures { IfOk result (λ s. stack_of s.items
        ≡ m.frames (items more.now) ++ stack_of stack.entry.items) }
{
    match more {
        [] => Ok(stack),
        [first, rest @ ..] => push(push_all(stack, rest)?, Frame::Reads(*first)),
    }
}

/// The stack with what is read after the counter of a loop.
pub fn push_counter<'a>(stack: Vec<Frame<'a>>, word: &'a str) -> Result<Vec<Frame<'a>>, NoMemory>
    ensures { IfOk result (λ s. stack_of s.items
        ≡ m.frames (after_counter word.now) ++ stack_of stack.entry.items) }
{
    let body = push_all(
        stack,
        &[INCREMENT, CLOSE_PAREN, OPEN_BRACE, STMTS, CLOSE_BRACE],
    )?;
    let step = push(body, Frame::Reads(Item::Same(word)))?;
    let bound = push_all(step, &[LESS, WIDTH, SEMICOLON])?;
    let test = push(bound, Frame::Reads(Item::Same(word)))?;
    push_all(test, &[ASSIGN, WIDTH, SEMICOLON])
}

/// The first of two readings.
pub fn first_reading(pair: Pair) -> &'static [Item<'static>]
    ensures { items result.now ≡ first_of_pair pair }
{
    match pair {
        Pair::Inside => &[EXPR, CLOSE_BRACKET],
        Pair::Braced => &[ARGS, CLOSE_BRACE],
    }
}

/// The second of two readings.
pub fn second_reading(pair: Pair) -> &'static [Item<'static>]
    ensures { items result.now ≡ second_of_pair pair }
{
    match pair {
        Pair::Inside => &[WIDTH, COLON, WIDTH, CLOSE_BRACKET],
        Pair::Braced => &[WIDTH, OPEN_BRACE, EXPR, CLOSE_BRACE, CLOSE_BRACE],
    }
}

fn left_of(reading: Reading<'_>) -> usize
    ensures { result ≡ o.left_of (reading_of reading.entry) }
{
    match reading {
        Reading::Came(rest) | Reading::Stopped(rest) => rest.len(),
    }
}

/// Of two readings the one that comes farther, and of equals one that came to its end, the first one
/// where both did.
pub fn farther<'a>(first: Reading<'a>, second: Reading<'a>) -> Reading<'a>
    ensures { reading_of result ≡ o.farther (reading_of first.entry) (reading_of second.entry) }
{
    match first {
        Reading::Came(rest) => {
            if rest.len() <= left_of(second) {
                first
            } else {
                second
            }
        }
        Reading::Stopped(rest) => {
            if left_of(second) <= rest.len() {
                second
            } else {
                first
            }
        }
    }
}

/// What a fault does at a frame.
#[tactic(auto, unfolding(crate::specs::Machine::fault))]
pub fn fall_at<'a>(frame: Frame<'a>, rest: &'a [Seen<'a>]) -> Fall<'a>
    ensures { (k : List m.Frame) → m.fault (frame_of frame.entry ∷ k) (symbols rest.now)
        ≡ fall_of result k (symbols rest.now) }
{
    match frame {
        Frame::Reads(_) => Fall::Falls(rest),
        Frame::Second { pair, start } => Fall::Tries { pair, start },
        Frame::Compare(first) => match farther(first, Reading::Stopped(rest)) {
            Reading::Came(left) => Fall::Came(left),
            Reading::Stopped(left) => Fall::Falls(left),
        },
    }
}
