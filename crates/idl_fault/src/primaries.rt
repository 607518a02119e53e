//! What an operand without a sign does.

ghost use Rattle.std.specs.Prelude.{◌≡◌, Some, option_map};
ghost use Rattle.idl_token.specs.Symbol as t;
ghost use Rattle.idl_grammar.specs.Tables.{sized_width};
ghost use Rattle.idl_fault.specs.Machine as m;
ghost use Rattle.idl_token.specs.Seen.{symbol};
ghost use Rattle.idl_token.specs.Numbers as numbers;
ghost use Rattle.idl_fault.specs.Views.{plan_of};

use crate::items::{
    ACCESS, CLOSE_BRACKET, CLOSE_PAREN, COMMA, DOT, EXPR, EXTENSION_NAME, GREATER, LESS,
    OPEN_BRACKET, OPEN_PAREN, PATH, QUOTED, WIDTH, WORD,
};
use crate::parts::ExprPart::{Braced, Csr, Named, Rest, Tight};
use crate::parts::{Item, Plan};
use idl_token::{Reserved, Seen, Sign, Special, is_short};

// A sized number whose width is a number: at most 65,535.
fn sized<'a>(width: u128) -> Plan<'a>
    ensures { plan_of result ≡ m.sized_plan (sized_width (numbers.Number width)) }
{
    if is_short(width) {
        Plan::Takes(&[])
    } else {
        Plan::Refuses
    }
}

// "(" operand rest ")" | "{" braced
fn sign<'a>(found: Sign) -> Plan<'a>
    ensures { plan_of result ≡ m.primary_plan (Some (t.sign found)) }
{
    match found {
        Sign::OpenParen => Plan::Takes(&[Item::Expr(Tight(0)), Item::Expr(Rest), CLOSE_PAREN]),
        Sign::OpenBrace => Plan::Takes(&[Item::Expr(Braced)]),
        _ => Plan::Refuses,
    }
}

// "$signed" "(" expression ")" | "$resize" "<" width ">" "(" expression ")" | "$pc" | "$encoding"
// | "implemented?" "(" "ExtensionName" "::" word ")"
// | "implemented_version?" "(" "ExtensionName" "::" word "," text ")"
fn special<'a>(found: Special) -> Plan<'a>
    ensures { plan_of result ≡ m.primary_plan (Some (t.special found)) }
{
    match found {
        Special::AsSigned => Plan::Takes(&[OPEN_PAREN, EXPR, CLOSE_PAREN]),
        Special::Resize => { Plan::Takes(&[LESS, WIDTH, GREATER, OPEN_PAREN, EXPR, CLOSE_PAREN]) }
        Special::Pc | Special::Encoding => Plan::Takes(&[]),
        Special::Implemented => {
            Plan::Takes(&[OPEN_PAREN, EXTENSION_NAME, PATH, WORD, CLOSE_PAREN])
        }
        Special::ImplementedVersion => Plan::Takes(&[
            OPEN_PAREN,
            EXTENSION_NAME,
            PATH,
            WORD,
            COMMA,
            QUOTED,
            CLOSE_PAREN,
        ]),
        Special::WidthOf => Plan::Refuses,
    }
}

// "true" | "false" | "X" "[" expression "]" | "CSR" "[" csr
// | "read_memory" "<" bits ">" "(" expression ")" | "csr_value" "." word
// | "xlen" "(" ")" | "mode" "(" ")" | kind "::" word
fn reserved<'a>(found: Reserved) -> Plan<'a>
    ensures { plan_of result ≡ m.primary_reserved found }
{
    match found {
        Reserved::True | Reserved::False => Plan::Takes(&[]),
        Reserved::X => Plan::Takes(&[OPEN_BRACKET, EXPR, CLOSE_BRACKET]),
        Reserved::Csr => Plan::Takes(&[OPEN_BRACKET, Item::Expr(Csr)]),
        Reserved::ReadMemory => {
            Plan::Takes(&[LESS, ACCESS, GREATER, OPEN_PAREN, EXPR, CLOSE_PAREN])
        }
        Reserved::CsrValue => Plan::Takes(&[DOT, WORD]),
        Reserved::Xlen | Reserved::Mode => Plan::Takes(&[OPEN_PAREN, CLOSE_PAREN]),
        Reserved::PrivilegeMode | Reserved::ExceptionCode | Reserved::CsrFieldType => {
            Plan::Takes(&[PATH, WORD])
        }
        _ => Plan::Refuses,
    }
}

/// What an operand without a sign does:
/// primary = number | sized number | text | word [ "(" called ] | one of those above.
pub fn primary<'a>(head: Option<Seen<'a>>) -> Plan<'a>
    ensures { plan_of result ≡ m.primary_plan (option_map symbol head.entry) }
{
    match head {
        Some(Seen::Number(_) | Seen::SizedWord { .. } | Seen::Quoted(_)) => Plan::Takes(&[]),
        Some(Seen::SizedNumber { width, .. }) => sized(width),
        Some(Seen::Word(_)) => Plan::Takes(&[Item::Expr(Named)]),
        Some(Seen::Reserved(found)) => reserved(found),
        Some(Seen::Special(found)) => special(found),
        Some(Seen::Sign(found)) => sign(found),
        Some(Seen::Described) | None => Plan::Refuses,
    }
}
