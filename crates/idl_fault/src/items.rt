//! The things to be read that stand in many places.

use crate::parts::{ExprPart, Item, Piece, StmtPart, WidthPart};
use idl_token::{Reserved, Sign};

pub const OPEN_PAREN: Item<'static> = Item::Piece(Piece::Sign(Sign::OpenParen));

pub const CLOSE_PAREN: Item<'static> = Item::Piece(Piece::Sign(Sign::CloseParen));

pub const OPEN_BRACKET: Item<'static> = Item::Piece(Piece::Sign(Sign::OpenBracket));

pub const CLOSE_BRACKET: Item<'static> = Item::Piece(Piece::Sign(Sign::CloseBracket));

pub const OPEN_BRACE: Item<'static> = Item::Piece(Piece::Sign(Sign::OpenBrace));

pub const CLOSE_BRACE: Item<'static> = Item::Piece(Piece::Sign(Sign::CloseBrace));

pub const LESS: Item<'static> = Item::Piece(Piece::Sign(Sign::Less));

pub const GREATER: Item<'static> = Item::Piece(Piece::Sign(Sign::Greater));

pub const COMMA: Item<'static> = Item::Piece(Piece::Sign(Sign::Comma));

pub const SEMICOLON: Item<'static> = Item::Piece(Piece::Sign(Sign::Semicolon));

pub const COLON: Item<'static> = Item::Piece(Piece::Sign(Sign::Colon));

pub const DOT: Item<'static> = Item::Piece(Piece::Sign(Sign::Dot));

pub const PATH: Item<'static> = Item::Piece(Piece::Sign(Sign::Path));

pub const ASSIGN: Item<'static> = Item::Piece(Piece::Sign(Sign::Assign));

pub const INCREMENT: Item<'static> = Item::Piece(Piece::Sign(Sign::Increment));

pub const EXTENSION_NAME: Item<'static> = Item::Piece(Piece::Reserved(Reserved::ExtensionName));

pub const MODE: Item<'static> = Item::Piece(Piece::Reserved(Reserved::Mode));

pub const BITS: Item<'static> = Item::Piece(Piece::Reserved(Reserved::Bits));

pub const U32: Item<'static> = Item::Piece(Piece::Reserved(Reserved::U32));

pub const FUNCTION: Item<'static> = Item::Piece(Piece::Reserved(Reserved::Function));

pub const BODY: Item<'static> = Item::Piece(Piece::Reserved(Reserved::Body));

pub const WORD: Item<'static> = Item::Piece(Piece::Word);

pub const SOFT_READ: Item<'static> = Item::Piece(Piece::SoftRead);

pub const SOFT_WRITE: Item<'static> = Item::Piece(Piece::SoftWrite);

pub const QUOTED: Item<'static> = Item::Piece(Piece::Quoted);

pub const ACCESS: Item<'static> = Item::Piece(Piece::Access);

pub const WIDTH: Item<'static> = Item::Width(WidthPart::Whole);

pub const EXPR: Item<'static> = Item::Expr(ExprPart::Any);

pub const ARGS: Item<'static> = Item::Expr(ExprPart::Args);

pub const STMTS: Item<'static> = Item::Stmt(StmtPart::Stmts);

pub const SHAPE: Item<'static> = Item::Stmt(StmtPart::Shape);
