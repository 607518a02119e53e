//! What the parts of widths do.

ghost use Rattle.std.specs.Prelude.{◌≡◌, Some, [], ◌∷◌, if◌then◌else◌, option_map};
ghost use Rattle.idl_token.specs.declared.kinds.Reserved.TheVariants as r;
ghost use Rattle.idl_token.specs.declared.kinds.Sign.TheVariants as s;
ghost use Rattle.idl_token.specs.Symbol as t;
ghost use Rattle.idl_token.specs.Numbers.{is_short};
ghost use Rattle.idl_fault.specs.Machine as m;
ghost use Rattle.idl_token.specs.Seen.{symbol};
ghost use Rattle.idl_fault.specs.Views.{plan_of, width_item};

use crate::items::{CLOSE_BRACKET, CLOSE_PAREN, COMMA, DOT, OPEN_BRACKET, OPEN_PAREN, WIDTH, WORD};
use crate::parts::WidthPart::{
    AfterNumber, Atom, Factor, May, Multiplied, OfBits, Product, Short, Sums, Term,
};
use crate::parts::{Item, Plan, WidthPart};
use idl_token::{Reserved, Seen, Sign, Special, is_short};

fn if_short<'a>(number: u128, plan: Plan<'a>) -> Plan<'a>
    ensures { plan_of result ≡ (if is_short number then plan_of plan.entry else m.refuses) }
{
    if is_short(number) {
        plan
    } else {
        Plan::Refuses
    }
}

// After the parenthesis of an atom, `term sums ")"`, or of a factor, `product ")"`.
fn in_parens<'a>(factor: bool) -> Plan<'a>
    ensures { plan_of result ≡ m.watom_plan factor (Some (t.sign s.OpenParen)) }
{
    if factor {
        Plan::Takes(&[Item::Width(Product), CLOSE_PAREN])
    } else {
        Plan::Takes(&[Item::Width(Term), Item::Width(Sums), CLOSE_PAREN])
    }
}

// After `max` in an atom: `"(" width "," width ")"`. A factor is none.
fn greatest<'a>(factor: bool) -> Plan<'a>
    ensures { plan_of result ≡ m.watom_plan factor (Some (t.reserved r.Max)) }
{
    if factor {
        Plan::Refuses
    } else {
        Plan::Takes(&[
            OPEN_PAREN,
            WIDTH,
            COMMA,
            WIDTH,
            CLOSE_PAREN,
            Item::Width(May(false)),
        ])
    }
}

// atom = number | word | "$bits" "(" of_bits | "(" term sums ")" | "max" "(" width "," width ")"
// factor = number | word | "$bits" "(" of_bits | "(" product ")"
fn atom<'a>(factor: bool, head: Option<Seen<'a>>) -> Plan<'a>
    ensures { plan_of result ≡ m.watom_plan factor (option_map symbol head.entry) }
{
    match head {
        Some(Seen::Number(number)) => if_short(number, Plan::Takes(&[Item::Width(May(true))])),
        Some(Seen::Word(_)) => Plan::Takes(&[Item::Width(May(true))]),
        Some(Seen::Special(Special::WidthOf)) => Plan::Takes(&[OPEN_PAREN, Item::Width(OfBits)]),
        Some(Seen::Sign(Sign::OpenParen)) => in_parens(factor),
        Some(Seen::Reserved(Reserved::Max)) => greatest(factor),
        _ => Plan::Refuses,
    }
}

// of_bits = word ")" | "CSR" "[" word "]" "." word ")"
fn of_bits<'a>(head: Option<Seen<'a>>) -> Plan<'a>
    ensures { plan_of result ≡ m.of_bits_plan (option_map symbol head.entry) }
{
    match head {
        Some(Seen::Word(_)) => Plan::Takes(&[CLOSE_PAREN, Item::Width(May(true))]),
        Some(Seen::Reserved(Reserved::Csr)) => Plan::Takes(&[
            OPEN_BRACKET,
            WORD,
            CLOSE_BRACKET,
            DOT,
            WORD,
            CLOSE_PAREN,
            Item::Width(May(true)),
        ]),
        _ => Plan::Refuses,
    }
}

// A term that begins with no number: `atom multiplied`, in a product `factor multiplied`.
fn multiple<'a>(product: bool) -> Plan<'a>
    ensures { plan_of result ≡ m.passes (m.watom product ∷ m.multiplied ∷ []) }
{
    if product {
        Plan::Leaves(&[Item::Width(Factor), Item::Width(Multiplied)])
    } else {
        Plan::Leaves(&[Item::Width(Atom), Item::Width(Multiplied)])
    }
}

// term = number after_number | atom multiplied
// product = number after_number | factor multiplied
fn term<'a>(product: bool, head: Option<Seen<'a>>) -> Plan<'a>
    ensures { plan_of result ≡ m.term_plan product (option_map symbol head.entry) }
{
    match head {
        Some(Seen::Number(number)) => if_short(number, Plan::Takes(&[Item::Width(AfterNumber)])),
        _ => multiple(product),
    }
}

// after_number = [ "*" factor ]
fn after_number<'a>(head: Option<Seen<'a>>) -> Plan<'a>
    ensures { plan_of result ≡ m.after_number_plan (option_map symbol head.entry) }
{
    match head {
        Some(Seen::Sign(Sign::Times)) => {
            Plan::Takes(&[Item::Width(Factor), Item::Width(May(true))])
        }
        _ => Plan::Leaves(&[Item::Width(May(true))]),
    }
}

// At the sign of a product.
fn times<'a>(may: bool) -> Plan<'a>
    ensures { plan_of result ≡ (if may then m.takes (m.short ∷ []) else m.passes []) }
{
    if may {
        Plan::Takes(&[Item::Width(Short)])
    } else {
        Plan::Leaves(&[])
    }
}

// multiplied = [ "*" number ], where what stands before may be multiplied.
fn multiple_end<'a>(may: bool, head: Option<Seen<'a>>) -> Plan<'a>
    ensures { plan_of result ≡ m.multiplied_plan may (option_map symbol head.entry) }
{
    match head {
        Some(Seen::Sign(Sign::Times)) => times(may),
        _ => Plan::Leaves(&[]),
    }
}

// A number of at most 65,535.
fn short<'a>(head: Option<Seen<'a>>) -> Plan<'a>
    ensures { plan_of result ≡ m.short_plan (option_map symbol head.entry) }
{
    match head {
        Some(Seen::Number(number)) => if_short(number, Plan::Takes(&[Item::Width(May(true))])),
        _ => Plan::Refuses,
    }
}

// sums = { ( "+" | "-" ) term }
fn sums<'a>(head: Option<Seen<'a>>) -> Plan<'a>
    ensures { plan_of result ≡ m.sums_plan (option_map symbol head.entry) }
{
    match head {
        Some(Seen::Sign(Sign::Plus | Sign::Minus)) => Plan::Takes(&[
            Item::Width(Term),
            Item::Width(May(false)),
            Item::Width(Sums),
        ]),
        _ => Plan::Leaves(&[]),
    }
}

/// What a part of a width does, where the flag says whether the width before it may be multiplied.
pub fn plan_width<'a>(may: bool, part: WidthPart, head: Option<Seen<'a>>) -> Plan<'a>
    ensures { plan_of result ≡ m.plan may (width_item part) (option_map symbol head.entry) }
{
    match part {
        Atom => atom(false, head),
        Factor => atom(true, head),
        Term => term(false, head),
        Product => term(true, head),
        AfterNumber => after_number(head),
        Multiplied => multiple_end(may, head),
        Short => short(head),
        Sums => sums(head),
        WidthPart::Whole => Plan::Leaves(&[Item::Width(Term), Item::Width(Sums)]),
        OfBits => of_bits(head),
        May(value) => Plan::Sets(value),
    }
}
