//! What the parts of expressions do.

ghost use Rattle.std.specs.Prelude.{◌≡◌, Bool, Some, option_map};
ghost use Rattle.idl_token.specs.Symbol as t;
ghost use Rattle.idl_grammar.specs.Tables.{binding};
ghost use Rattle.idl_fault.specs.Machine as m;
ghost use Rattle.idl_token.specs.Seen.{symbol};
ghost use Rattle.idl_fault.specs.Views.{plan_of, expr_item, is_wide, right_of, infix_by};

use crate::items::{ARGS, CLOSE_BRACKET, CLOSE_PAREN, COLON, DOT, EXPR, OPEN_PAREN, SOFT_READ};
use crate::parts::ExprPart::{
    Args, Behind, Braced, Called, Choice, Csr, CsrField, CsrWord, Inside, More, MoreArgs, Named,
    Onward, Operand, Parts, Primary, ReadOrField, Rest, Tight,
};
use crate::parts::WidthPart::Atom;
use crate::parts::{ExprPart, Item, Pair, Plan};
use crate::primaries::primary;
use idl_token::{Seen, Sign, precedence};

// operand = ( "!" | "~" | "-" ) operand | primary parts
fn operand<'a>(head: Option<Seen<'a>>) -> Plan<'a>
    ensures { plan_of result ≡ m.operand_plan (option_map symbol head.entry) }
{
    match head {
        Some(Seen::Sign(Sign::Not | Sign::Tilde | Sign::Minus)) => {
            Plan::Takes(&[Item::Expr(Tight(0))])
        }
        _ => Plan::Leaves(&[Item::Expr(Primary), Item::Expr(Parts)]),
    }
}

// parts = { "[" inside }
fn parts<'a>(head: Option<Seen<'a>>) -> Plan<'a>
    ensures { plan_of result ≡ m.parts_plan (option_map symbol head.entry) }
{
    match head {
        Some(Seen::Sign(Sign::OpenBracket)) => {
            Plan::Takes(&[Item::Expr(Inside), Item::Expr(Parts)])
        }
        _ => Plan::Leaves(&[]),
    }
}

// Signs of all levels below this one, the tightest first: `onward(k) = onward(k - 1) more(k - 1)`.
#[tactic(auto, using(crate::proofs::Levels::onward_more, crate::proofs::Levels::onward_none))]
fn onward<'a>(level: u8) -> Plan<'a>
    ensures { plan_of result ≡ m.onward_plan level }
{
    if level == 0 {
        Plan::Leaves(&[])
    } else {
        Plan::LeavesTwo(Item::Expr(Onward(level - 1)), Item::Expr(More(level - 1)))
    }
}

// Whether a sign is the left shift that widens, behind which an atom of a width stands.
fn is_wide(sign: Sign) -> bool
    ensures { result ≡ is_wide sign }
{
    matches!(sign, Sign::WideLeft)
}

// After a sign of the level.
fn right<'a>(level: u8, wide: bool) -> Plan<'a>
    ensures { plan_of result ≡ m.takes (right_of level wide) }
{
    if wide {
        Plan::TakesTwo(Item::Width(Atom), Item::Expr(More(level)))
    } else {
        Plan::TakesTwo(Item::Expr(Tight(level)), Item::Expr(More(level)))
    }
}

fn infix<'a>(level: u8, found: Option<u8>, wide: bool) -> Plan<'a>
    ensures { plan_of result ≡ infix_by level found wide }
{
    match found {
        None => Plan::Leaves(&[]),
        Some(at) => {
            if at == level {
                right(level, wide)
            } else {
                Plan::Leaves(&[])
            }
        }
    }
}

#[tactic(auto, using(crate::proofs::Levels::infix_is))]
fn at_sign<'a>(level: u8, sign: Sign) -> Plan<'a>
    ensures { plan_of result ≡ m.infix_plan level (binding sign) }
{
    infix(level, precedence(sign), is_wide(sign))
}

// more(level) = [ sign of the level, tight(level), more(level) ]; behind the left shift that widens
// an atom of a width stands in place of tight(level).
fn more<'a>(level: u8, head: Option<Seen<'a>>) -> Plan<'a>
    ensures { plan_of result ≡ m.more_plan level (option_map symbol head.entry) }
{
    match head {
        Some(Seen::Sign(sign)) => at_sign(level, sign),
        _ => Plan::Leaves(&[]),
    }
}

// choice = [ "?" expression ":" expression ]
fn choice<'a>(head: Option<Seen<'a>>) -> Plan<'a>
    ensures { plan_of result ≡ m.choice_plan (option_map symbol head.entry) }
{
    match head {
        Some(Seen::Sign(Sign::Question)) => Plan::Takes(&[EXPR, COLON, EXPR]),
        _ => Plan::Leaves(&[]),
    }
}

// Behind a word: `[ "(" called ]`.
fn call_of<'a>(head: Option<Seen<'a>>) -> Plan<'a>
    ensures { plan_of result ≡ m.named_plan (option_map symbol head.entry) }
{
    match head {
        Some(Seen::Sign(Sign::OpenParen)) => Plan::Takes(&[Item::Expr(Called)]),
        _ => Plan::Leaves(&[]),
    }
}

// called = ")" | args ")"
fn call_end<'a>(head: Option<Seen<'a>>) -> Plan<'a>
    ensures { plan_of result ≡ m.called_plan (option_map symbol head.entry) }
{
    match head {
        Some(Seen::Sign(Sign::CloseParen)) => Plan::Takes(&[]),
        _ => Plan::Leaves(&[ARGS, CLOSE_PAREN]),
    }
}

// args = expression [ "," args ]
fn more_args<'a>(head: Option<Seen<'a>>) -> Plan<'a>
    ensures { plan_of result ≡ m.more_args_plan (option_map symbol head.entry) }
{
    match head {
        Some(Seen::Sign(Sign::Comma)) => Plan::Takes(&[ARGS]),
        _ => Plan::Leaves(&[]),
    }
}

// Behind `CSR[`: `word csr_word | expression "]" soft_read`, where
// soft_read = "." "sw_read" "(" ")".
fn csr<'a>(head: Option<Seen<'a>>) -> Plan<'a>
    ensures { plan_of result ≡ m.csr_plan (option_map symbol head.entry) }
{
    match head {
        Some(Seen::Word(_)) => Plan::Takes(&[Item::Expr(CsrWord)]),
        _ => Plan::Leaves(&[EXPR, CLOSE_BRACKET, DOT, SOFT_READ, OPEN_PAREN, CLOSE_PAREN]),
    }
}

// Behind `CSR[` and a word: `"]" "." csr_field`, or the rest of an expression, `"]"` and soft_read.
fn csr_word<'a>(head: Option<Seen<'a>>) -> Plan<'a>
    ensures { plan_of result ≡ m.csr_word_plan (option_map symbol head.entry) }
{
    match head {
        Some(Seen::Sign(Sign::CloseBracket)) => Plan::Takes(&[DOT, Item::Expr(CsrField)]),
        _ => Plan::Leaves(&[
            Item::Expr(Behind),
            CLOSE_BRACKET,
            DOT,
            SOFT_READ,
            OPEN_PAREN,
            CLOSE_PAREN,
        ]),
    }
}

// The word behind `CSR[word].`.
fn field<'a>(word: &str) -> Plan<'a>
    ensures { plan_of result ≡ m.csr_field_plan (Some (t.word word.now)) }
{
    if word == "sw_read" {
        Plan::Takes(&[Item::Expr(ReadOrField)])
    } else {
        Plan::Takes(&[])
    }
}

// Behind `CSR[word].`: a field, or `sw_read` with or without `"(" ")"`.
fn csr_field<'a>(head: Option<Seen<'a>>) -> Plan<'a>
    ensures { plan_of result ≡ m.csr_field_plan (option_map symbol head.entry) }
{
    match head {
        Some(Seen::Word(word)) => field(word),
        _ => Plan::Refuses,
    }
}

// Behind `CSR[word].sw_read`: `[ "(" ")" ]`.
fn read_or_field<'a>(head: Option<Seen<'a>>) -> Plan<'a>
    ensures { plan_of result ≡ m.read_or_field_plan (option_map symbol head.entry) }
{
    match head {
        Some(Seen::Sign(Sign::OpenParen)) => Plan::Takes(&[CLOSE_PAREN]),
        _ => Plan::Leaves(&[]),
    }
}

/// What a part of an expression does.
pub fn plan_expr<'a>(part: ExprPart, head: Option<Seen<'a>>) -> Plan<'a>
    ensures { (b : Bool)
        → plan_of result ≡ m.plan b (expr_item part) (option_map symbol head.entry) }
{
    match part {
        ExprPart::Any => Plan::Leaves(&[Item::Expr(Operand), Item::Expr(Rest)]),
        Tight(level) => Plan::LeavesTwo(Item::Expr(Operand), Item::Expr(Onward(level))),
        Behind => Plan::Leaves(&[Item::Expr(Named), Item::Expr(Parts), Item::Expr(Rest)]),
        Operand => operand(head),
        Primary => primary(head),
        Parts => parts(head),
        Inside => Plan::Both(Pair::Inside),
        Onward(level) => onward(level),
        More(level) => more(level, head),
        Choice => choice(head),
        Rest => Plan::Leaves(&[Item::Expr(Onward(10)), Item::Expr(Choice)]),
        Named => call_of(head),
        Called => call_end(head),
        Args => Plan::Leaves(&[EXPR, Item::Expr(MoreArgs)]),
        MoreArgs => more_args(head),
        Braced => Plan::Both(Pair::Braced),
        Csr => csr(head),
        CsrWord => csr_word(head),
        CsrField => csr_field(head),
        ReadOrField => read_or_field(head),
    }
}
