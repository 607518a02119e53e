//! What the parts of functions do.

ghost use Rattle.std.specs.Prelude.{◌≡◌, Bool, option_map};
ghost use Rattle.idl_fault.specs.Machine as m;
ghost use Rattle.idl_token.specs.Seen.{symbol};
ghost use Rattle.idl_fault.specs.Views.{plan_of, function_item};

use crate::items::{BODY, CLOSE_BRACE, FUNCTION, OPEN_BRACE, SHAPE, STMTS, WORD};
use crate::parts::FunctionPart::{
    About, AboutText, Arguments, Function, Functions, MoreArguments, Taken,
};
use crate::parts::{FunctionPart, Item, Plan};
use idl_token::{Reserved, Seen, Sign};

// functions = { function }
fn functions<'a>(head: Option<Seen<'a>>) -> Plan<'a>
    ensures { plan_of result ≡ m.functions_plan (option_map symbol head.entry) }
{
    match head {
        Some(Seen::Reserved(Reserved::Function)) => {
            Plan::Leaves(&[Item::Function(Function), Item::Function(Functions)])
        }
        _ => Plan::Leaves(&[]),
    }
}

// result = [ "returns" type ]
fn result_of<'a>(head: Option<Seen<'a>>) -> Plan<'a>
    ensures { plan_of result ≡ m.result_plan (option_map symbol head.entry) }
{
    match head {
        Some(Seen::Reserved(Reserved::Returns)) => Plan::Takes(&[SHAPE]),
        _ => Plan::Leaves(&[]),
    }
}

// taken = [ "arguments" arguments ]
fn arguments_of<'a>(head: Option<Seen<'a>>) -> Plan<'a>
    ensures { plan_of result ≡ m.taken_plan (option_map symbol head.entry) }
{
    match head {
        Some(Seen::Reserved(Reserved::Arguments)) => Plan::Takes(&[Item::Function(Arguments)]),
        _ => Plan::Leaves(&[]),
    }
}

// arguments = type word [ "," arguments ]
fn more_arguments<'a>(head: Option<Seen<'a>>) -> Plan<'a>
    ensures { plan_of result ≡ m.more_arguments_plan (option_map symbol head.entry) }
{
    match head {
        Some(Seen::Sign(Sign::Comma)) => Plan::Takes(&[Item::Function(Arguments)]),
        _ => Plan::Leaves(&[]),
    }
}

// about = [ "description" "{" about_text ]
fn about<'a>(head: Option<Seen<'a>>) -> Plan<'a>
    ensures { plan_of result ≡ m.about_plan (option_map symbol head.entry) }
{
    match head {
        Some(Seen::Reserved(Reserved::Description)) => {
            Plan::Takes(&[OPEN_BRACE, Item::Function(AboutText)])
        }
        _ => Plan::Leaves(&[]),
    }
}

// about_text = [ description ] "}"
fn about_text<'a>(head: Option<Seen<'a>>) -> Plan<'a>
    ensures { plan_of result ≡ m.about_text_plan (option_map symbol head.entry) }
{
    match head {
        Some(Seen::Described) => Plan::Takes(&[CLOSE_BRACE]),
        _ => Plan::Leaves(&[CLOSE_BRACE]),
    }
}

/// What a part of a function does.
pub fn plan_function<'a>(part: FunctionPart, head: Option<Seen<'a>>) -> Plan<'a>
    ensures { (b : Bool)
        → plan_of result ≡ m.plan b (function_item part) (option_map symbol head.entry) }
{
    match part {
        Functions => functions(head),
        Function => Plan::Leaves(&[
            FUNCTION,
            WORD,
            OPEN_BRACE,
            Item::Function(FunctionPart::Result),
            Item::Function(Taken),
            Item::Function(About),
            BODY,
            OPEN_BRACE,
            STMTS,
            CLOSE_BRACE,
            CLOSE_BRACE,
        ]),
        FunctionPart::Result => result_of(head),
        Taken => arguments_of(head),
        Arguments => Plan::Leaves(&[SHAPE, WORD, Item::Function(MoreArguments)]),
        MoreArguments => more_arguments(head),
        About => about(head),
        AboutText => about_text(head),
    }
}
