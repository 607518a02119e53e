//! The signs of expressions.

ghost use Rattle.std.specs.Prelude.{◌≡◌};
ghost use Rattle.idl_grammar.specs.Outcome as o;
ghost use Rattle.idl_grammar.specs.Tables as tables;
ghost use Rattle.idl_exprs.specs.Exprs as piece;
ghost use Rattle.idl_exprs.specs.Gives.{ahead};

use crate::cursor::Cursor;
use crate::exprs::Operator;
use idl_token::{Seen, Sign};
use idl_tree::{Binary, Unary};

fn unary_of(sign: Sign) -> Option<Unary>
    ensures { result ≡ tables.unary_of sign }
{
    match sign {
        Sign::Not => Some(Unary::Not),
        Sign::Tilde => Some(Unary::Invert),
        Sign::Minus => Some(Unary::Minus),
        _ => None,
    }
}

/// The sign before an operand that comes next.
pub fn unary_at(tokens: &Cursor<'_>) -> Option<Unary>
    ensures { result ≡ piece.unary_at (o.head (ahead tokens.now)) }
{
    match tokens.peek() {
        Some(Seen::Sign(sign)) => unary_of(sign),
        _ => None,
    }
}

// How loosely a sign binds, products first, and its form.
fn binding(sign: Sign) -> Option<(u8, Operator)>
    ensures { piece.leveled result ≡ tables.binding sign }
{
    match sign {
        Sign::Times => Some((0, Operator::Plain(Binary::Mul))),
        Sign::WideTimes => Some((0, Operator::Plain(Binary::WideMul))),
        Sign::Divide => Some((0, Operator::Plain(Binary::Div))),
        Sign::Remainder => Some((0, Operator::Plain(Binary::Rem))),
        Sign::Plus => Some((1, Operator::Plain(Binary::Add))),
        Sign::Minus => Some((1, Operator::Plain(Binary::Sub))),
        Sign::WidePlus => Some((1, Operator::Plain(Binary::WideAdd))),
        Sign::WideMinus => Some((1, Operator::Plain(Binary::WideSub))),
        Sign::Left => Some((2, Operator::Plain(Binary::Left))),
        Sign::Right => Some((2, Operator::Plain(Binary::Right))),
        Sign::RightSigned => Some((2, Operator::Plain(Binary::RightSigned))),
        Sign::WideLeft => Some((2, Operator::Wide)),
        Sign::Less => Some((3, Operator::Plain(Binary::Below))),
        Sign::AtMost => Some((3, Operator::Plain(Binary::AtMost))),
        Sign::Greater => Some((3, Operator::Plain(Binary::Above))),
        Sign::AtLeast => Some((3, Operator::Plain(Binary::AtLeast))),
        Sign::Equal => Some((4, Operator::Plain(Binary::Equal))),
        Sign::NotEqual => Some((4, Operator::Plain(Binary::NotEqual))),
        Sign::Ampersand => Some((5, Operator::Plain(Binary::BitAnd))),
        Sign::Caret => Some((6, Operator::Plain(Binary::BitXor))),
        Sign::Bar => Some((7, Operator::Plain(Binary::BitOr))),
        Sign::And => Some((8, Operator::Plain(Binary::And))),
        Sign::Or => Some((9, Operator::Plain(Binary::Or))),
        _ => None,
    }
}

fn between(sign: Sign, from: u8, below: u8) -> Option<(u8, Operator)>
    ensures { piece.leveled result ≡ piece.between from below (tables.binding sign) }
{
    match binding(sign) {
        Some((level, operator)) => {
            if from <= level && level < below {
                Some((level, operator))
            } else {
                None
            }
        }
        None => None,
    }
}

/// The sign between two operands that comes next, and its level, if that is none before `from` and
/// comes before `below`.
pub fn next_operator(tokens: &Cursor<'_>, from: u8, below: u8) -> Option<(u8, Operator)>
    ensures { piece.leveled result ≡ piece.next_operator from below (o.head (ahead tokens.now)) }
{
    match tokens.peek() {
        Some(Seen::Sign(sign)) => between(sign, from, below),
        _ => None,
    }
}
