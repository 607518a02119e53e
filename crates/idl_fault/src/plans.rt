//! What a thing to be read does.

ghost use Rattle.std.specs.Prelude.{◌≡◌, option_map};
ghost use Rattle.idl_fault.specs.Machine as m;
ghost use Rattle.idl_token.specs.Seen.{symbol};
ghost use Rattle.idl_fault.specs.Views.{plan_of, item};

use crate::exprs::plan_expr;
use crate::functions::plan_function;
use crate::parts::{Item, Plan};
use crate::pieces::{plan_piece, same};
use crate::stmts::plan_stmt;
use crate::widths::plan_width;
use idl_token::Seen;

/// What a thing to be read does at the next token, where the flag says whether the width that was read
/// last may be multiplied.
pub fn plan_item<'a>(may: bool, wanted: Item<'a>, head: Option<Seen<'a>>) -> Plan<'a>
    ensures { plan_of result ≡ m.plan may (item wanted.entry) (option_map symbol head.entry) }
{
    match wanted {
        Item::Piece(piece) => plan_piece(piece, head),
        Item::Same(word) => same(word, head),
        Item::Width(part) => plan_width(may, part, head),
        Item::Expr(part) => plan_expr(part, head),
        Item::Stmt(part) => plan_stmt(part, head),
        Item::Function(part) => plan_function(part, head),
    }
}
