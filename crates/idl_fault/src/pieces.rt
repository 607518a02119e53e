//! What single tokens do.

ghost use Rattle.std.specs.Prelude.{◌≡◌, Bool, [], if◌then◌else◌, option_map};
ghost use Rattle.idl_grammar.specs.Outcome.{is_sign, is_reserved, is_word};
ghost use Rattle.idl_fault.specs.Machine as m;
ghost use Rattle.idl_token.specs.Seen.{symbol};
ghost use Rattle.idl_fault.specs.Views.{plan_of, piece_item};

use crate::parts::{Piece, Plan};
use idl_token::{Reserved, Seen, Sign};

fn take_if<'a>(taken: bool) -> Plan<'a>
    ensures { plan_of result ≡ (if taken then m.takes [] else m.refuses) }
{
    if taken {
        Plan::Takes(&[])
    } else {
        Plan::Refuses
    }
}

fn sign<'a>(wanted: Sign, head: Option<Seen<'a>>) -> Plan<'a>
    ensures { plan_of result ≡ m.accept (is_sign wanted) (option_map symbol head.entry) }
{
    match head {
        Some(Seen::Sign(found)) => take_if(found == wanted),
        _ => Plan::Refuses,
    }
}

fn reserved<'a>(wanted: Reserved, head: Option<Seen<'a>>) -> Plan<'a>
    ensures { plan_of result ≡ m.accept (is_reserved wanted) (option_map symbol head.entry) }
{
    match head {
        Some(Seen::Reserved(found)) => take_if(found == wanted),
        _ => Plan::Refuses,
    }
}

/// What one certain word does.
pub fn same<'a>(wanted: &str, head: Option<Seen<'a>>) -> Plan<'a>
    ensures { plan_of result ≡ m.accept (is_word wanted.now) (option_map symbol head.entry) }
{
    match head {
        Some(Seen::Word(found)) => take_if(found == wanted),
        _ => Plan::Refuses,
    }
}

fn word<'a>(head: Option<Seen<'a>>) -> Plan<'a>
    ensures { plan_of result ≡ m.word_plan (option_map symbol head.entry) }
{
    match head {
        Some(Seen::Word(_)) => Plan::Takes(&[]),
        _ => Plan::Refuses,
    }
}

fn quoted<'a>(head: Option<Seen<'a>>) -> Plan<'a>
    ensures { plan_of result ≡ m.quoted_plan (option_map symbol head.entry) }
{
    match head {
        Some(Seen::Quoted(_)) => Plan::Takes(&[]),
        _ => Plan::Refuses,
    }
}

fn access<'a>(head: Option<Seen<'a>>) -> Plan<'a>
    ensures { plan_of result ≡ m.bits_plan (option_map symbol head.entry) }
{
    match head {
        Some(Seen::Number(bits)) => take_if(bits == 8 || bits == 16 || bits == 32 || bits == 64),
        _ => Plan::Refuses,
    }
}

/// What one token does.
pub fn plan_piece<'a>(wanted: Piece, head: Option<Seen<'a>>) -> Plan<'a>
    ensures { (b : Bool)
        → plan_of result ≡ m.plan b (piece_item wanted) (option_map symbol head.entry) }
{
    match wanted {
        Piece::Sign(x) => sign(x, head),
        Piece::Reserved(x) => reserved(x, head),
        Piece::Word => word(head),
        Piece::SoftRead => same("sw_read", head),
        Piece::SoftWrite => same("sw_write", head),
        Piece::Quoted => quoted(head),
        Piece::Access => access(head),
    }
}
