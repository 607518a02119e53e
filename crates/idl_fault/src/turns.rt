//! The recogniser's turns.

ghost use Rattle.std.specs.Prelude.{◌≡◌, ◌∷◌, [], false, IfOk, MatchOption, option_map};
ghost use Rattle.idl_grammar.specs.Outcome as o;
ghost use Rattle.idl_fault.specs.Machine as m;
ghost use Rattle.idl_token.specs.Seen.{symbol, symbols};
ghost use Rattle.idl_fault.specs.Views.{plan_of, second_try, reading_of, frame_of, stack_of, turn_of, next_by, after_state, ComesTo};

use crate::parts::{Fall, Frame, Item, Pair, Plan, Reading, State, Turn};
use crate::plans::plan_item;
use crate::stack::{fall_at, farther, first_reading, push, push_all, push_counter, second_reading};
use idl_token::Seen;
use std::alloc::{AllocError, Global};
use udb_base::NoMemory;

fn head<'a>(rest: &[Seen<'a>]) -> Option<Seen<'a>>
    ensures { option_map symbol result ≡ o.head (symbols rest.now) }
{
    match rest {
        [] => None,
        [first, ..] => Some(*first),
    }
}

fn after<'a>(rest: &'a [Seen<'a>]) -> &'a [Seen<'a>]
    ensures { symbols result.now ≡ o.after (symbols rest.now) }
{
    match rest {
        [] => rest,
        [_, more @ ..] => more,
    }
}

fn goes<'a>(stack: Vec<Frame<'a>>, may: bool, rest: &'a [Seen<'a>]) -> Turn<'a>
    ensures { turn_of result ≡ m.goes (stack_of stack.entry.items) may (symbols rest.now) }
{
    Turn::Goes(State {
        stack,
        may,
        rest,
        falls: false,
    })
}

// A fault.
fn falls<'a>(stack: Vec<Frame<'a>>, rest: &'a [Seen<'a>]) -> Turn<'a>
    ensures { turn_of result ≡ m.fault (stack_of stack.entry.items) (symbols rest.now) }
{
    Turn::Goes(State {
        stack,
        may: false,
        rest,
        falls: true,
    })
}

// The second of two readings, after what the first one gave.
fn tries<'a>(
    stack: Vec<Frame<'a>>,
    pair: Pair,
    start: &'a [Seen<'a>],
    first: Reading<'a>,
) -> Result<Turn<'a>, NoMemory>
    ensures { IfOk result (λ x. turn_of x
        ≡ second_try pair (reading_of first.entry) (stack_of stack.entry.items) (symbols start.now)) }
{
    let under = push(stack, Frame::Compare(first))?;
    let grown = push_all(under, second_reading(pair))?;
    Ok(goes(grown, false, start))
}

// Both of two readings, the first one now.
fn both<'a>(
    stack: Vec<Frame<'a>>,
    may: bool,
    pair: Pair,
    rest: &'a [Seen<'a>],
) -> Result<Turn<'a>, NoMemory>
    ensures { IfOk result (λ x. turn_of x
        ≡ m.act (plan_of (Plan.Both pair)) (stack_of stack.entry.items) may (symbols rest.now)) }
{
    let under = push(stack, Frame::Second { pair, start: rest })?;
    let grown = push_all(under, first_reading(pair))?;
    Ok(goes(grown, may, rest))
}

fn follow<'a>(
    plan: Plan<'a>,
    stack: Vec<Frame<'a>>,
    may: bool,
    rest: &'a [Seen<'a>],
) -> Result<Turn<'a>, NoMemory>
    ensures { IfOk result (λ x. turn_of x
        ≡ m.act (plan_of plan.entry) (stack_of stack.entry.items) may (symbols rest.now)) }
{
    match plan {
        Plan::Takes(more) => Ok(goes(push_all(stack, more)?, may, after(rest))),
        Plan::TakesTwo(one, two) => Ok(goes(push_all(stack, &[one, two])?, may, after(rest))),
        Plan::TakesCounter(word) => Ok(goes(push_counter(stack, word)?, may, after(rest))),
        Plan::Leaves(more) => Ok(goes(push_all(stack, more)?, may, rest)),
        Plan::LeavesTwo(one, two) => Ok(goes(push_all(stack, &[one, two])?, may, rest)),
        Plan::Refuses => Ok(falls(stack, rest)),
        Plan::Sets(value) => Ok(goes(stack, value, rest)),
        Plan::Both(pair) => both(stack, may, pair, rest),
    }
}

// What the farther of two readings leads to.
fn settle<'a>(reading: Reading<'a>, stack: Vec<Frame<'a>>) -> Turn<'a>
    ensures { turn_of result ≡ m.settle (reading_of reading.entry) (stack_of stack.entry.items) }
{
    match reading {
        Reading::Came(rest) => goes(stack, false, rest),
        Reading::Stopped(rest) => falls(stack, rest),
    }
}

fn at_frame<'a>(
    frame: Frame<'a>,
    stack: Vec<Frame<'a>>,
    may: bool,
    rest: &'a [Seen<'a>],
) -> Result<Turn<'a>, NoMemory>
    ensures { IfOk result (λ x. turn_of x
        ≡ m.next (frame_of frame.entry ∷ stack_of stack.entry.items) may (symbols rest.now)) }
{
    match frame {
        Frame::Reads(wanted) => follow(plan_item(may, wanted, head(rest)), stack, may, rest),
        Frame::Second { pair, start } => tries(stack, pair, start, Reading::Came(rest)),
        Frame::Compare(first) => Ok(settle(farther(first, Reading::Came(rest)), stack)),
    }
}

// With nothing more to be read.
fn finish<'a>(rest: &'a [Seen<'a>]) -> Turn<'a>
    ensures { turn_of result ≡ m.next [] false (symbols rest.now) }
{
    if rest.is_empty() {
        Turn::Halts(None)
    } else {
        Turn::Halts(Some(rest))
    }
}

// A fault that comes to a frame.
fn fall_to<'a>(
    frame: Frame<'a>,
    stack: Vec<Frame<'a>>,
    rest: &'a [Seen<'a>],
) -> Result<Turn<'a>, NoMemory>
    ensures { IfOk result (λ x. turn_of x
        ≡ m.fault (frame_of frame.entry ∷ stack_of stack.entry.items) (symbols rest.now)) }
{
    match fall_at(frame, rest) {
        Fall::Falls(left) => Ok(falls(stack, left)),
        Fall::Tries { pair, start } => tries(stack, pair, start, Reading::Stopped(rest)),
        Fall::Came(left) => Ok(goes(stack, false, left)),
    }
}

// The frame on top, and the stack under it.
#[tactic(auto, using(crate::proofs::Stacks::stack_pushed, crate::proofs::Stacks::stack_empty))]
fn pop<'a>(stack: Vec<Frame<'a>>) -> Option<(Frame<'a>, Vec<Frame<'a>>)>
    ensures { MatchOption result (stack_of stack.entry.items ≡ [])
        (λ x. stack_of stack.entry.items ≡ frame_of x.0 ∷ stack_of x.1.items) }
{
    let mut under = stack;
    match under.pop() {
        None => None,
        Some(top) => Some((top, under)),
    }
}

#[tactic(auto, unfolding(crate::specs::Machine::fault))]
// With an empty stack.
fn at_bottom<'a>(fault: bool, rest: &'a [Seen<'a>]) -> Turn<'a>
    ensures { turn_of result ≡ next_by fault [] false (symbols rest.now) }
{
    if fault {
        Turn::Halts(Some(rest))
    } else {
        finish(rest)
    }
}

fn at_top<'a>(
    fault: bool,
    frame: Frame<'a>,
    stack: Vec<Frame<'a>>,
    may: bool,
    rest: &'a [Seen<'a>],
) -> Result<Turn<'a>, NoMemory>
    ensures { IfOk result (λ x. turn_of x
        ≡ next_by fault (frame_of frame.entry ∷ stack_of stack.entry.items) may (symbols rest.now)) }
{
    if fault {
        fall_to(frame, stack, rest)
    } else {
        at_frame(frame, stack, may, rest)
    }
}

fn turn<'a>(state: State<'a>) -> Result<Turn<'a>, NoMemory>
    ensures { IfOk result (λ x. turn_of x ≡ after_state state.entry) }
{
    let State {
        stack,
        may,
        rest,
        falls,
    } = state;
    match pop(stack) {
        None => Ok(at_bottom(falls, rest)),
        Some((frame, under)) => at_top(falls, frame, under, may, rest),
    }
}

/// What the recogniser comes to from the start: the tokens from the fault on, or none where all of them
/// were read. Each turn is constant work, and a frame falls to a fault but once. After 2^64 - 1 turns,
/// which no run reaches, it would give up as for want of memory.
pub fn run<'a>(
    alloc: Global,
    start: Item<'a>,
    tokens: &'a [Seen<'a>],
) -> Result<Option<&'a [Seen<'a>]>, NoMemory>
    ensures { IfOk result
        (λ end. ComesTo start.entry (symbols tokens.now) (option_map (λ t. t.now) end)) }
{
    let stack = push(Vec::new(alloc), Frame::Reads(start))?;
    let mut state = State {
        stack,
        may: false,
        rest: tokens,
        falls: false,
    };
    'turns: for _turn in 0..u64::MAX {
        match turn(state)? {
            Turn::Goes(next) => state = next,
            Turn::Halts(end) => return Ok(end),
        }
    }
    Err(AllocError)
}
