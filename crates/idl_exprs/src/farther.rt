//! The choice between two readings of one text.

ghost use Rattle.std.specs.Prelude.{◌≡◌};
ghost use Rattle.idl_exprs.specs.Exprs as piece;
ghost use Rattle.idl_exprs.specs.Exprs.{Chooses, NoDeeper, inside};
ghost use Rattle.idl_exprs.specs.Gives.{pair};

use crate::cursor::Cursor;
use crate::exprs::Inside;
use crate::stop::Stop;
use idl_token::Seen;
use idl_tree::{Boxed, Expr};

/// How a reading ended.
#[derive(Clone, Copy)]
pub enum Ended {
    Value,
    Fault,
    Memory,
}

/// Which of two readings counts, if memory didn't run out.
#[derive(Clone, Copy)]
pub enum Counts {
    First,
    Second,
    Neither,
}

fn how_ended<T>(reading: &Result<T, Stop>) -> Ended
    ensures { result ≡ piece.how_ended reading.now }
{
    match reading {
        Ok(_) => Ended::Value,
        Err(Stop::Fault) => Ended::Fault,
        Err(Stop::Memory) => Ended::Memory,
    }
}

fn which_counts(first: Ended, first_left: usize, second: Ended, second_left: usize) -> Counts
    ensures { result ≡ piece.which_counts first first_left second second_left }
{
    match first {
        Ended::Memory => Counts::Neither,
        Ended::Value => match second {
            Ended::Memory => Counts::Neither,
            _ => {
                if first_left <= second_left {
                    Counts::First
                } else {
                    Counts::Second
                }
            }
        },
        Ended::Fault => match second {
            Ended::Memory => Counts::Neither,
            _ => {
                if second_left <= first_left {
                    Counts::Second
                } else {
                    Counts::First
                }
            }
        },
    }
}

/// The one of two readings that comes farther, and of equals one that has a value. The first ended
/// at `end`, the second where the cursor stands.
pub fn farther<'a>(
    tokens: &mut Cursor<'a>,
    first: Result<(Boxed<Expr>, u64), Stop>,
    end: &'a [Seen<'a>],
    second: Result<(Boxed<Expr>, u64), Stop>,
) -> Result<(Boxed<Expr>, u64), Stop>
    ensures read { Chooses pair first end.now second tokens.old result tokens.new }
    ensures small { NoDeeper first second result }
{
    match which_counts(
        how_ended(&first),
        end.len(),
        how_ended(&second),
        tokens.rest.len(),
    ) {
        Counts::First => {
            tokens.rest = end;
            first
        }
        Counts::Second => second,
        Counts::Neither => Err(Stop::Memory),
    }
}

/// The same for what stands in brackets.
pub fn farther_inside<'a>(
    tokens: &mut Cursor<'a>,
    first: Result<(Inside, u64), Stop>,
    end: &'a [Seen<'a>],
    second: Result<(Inside, u64), Stop>,
) -> Result<(Inside, u64), Stop>
    ensures read { Chooses inside first end.now second tokens.old result tokens.new }
    ensures small { NoDeeper first second result }
{
    match which_counts(
        how_ended(&first),
        end.len(),
        how_ended(&second),
        tokens.rest.len(),
    ) {
        Counts::First => {
            tokens.rest = end;
            first
        }
        Counts::Second => second,
        Counts::Neither => Err(Stop::Memory),
    }
}
