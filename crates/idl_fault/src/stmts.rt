//! What the parts of statements do.

ghost use Rattle.std.specs.Prelude.{◌≡◌, Bool, Some, ◌∷◌, [], if◌then◌else◌, option_map};
ghost use Rattle.idl_grammar.specs.StmtReader.{begins, begins_reserved};
ghost use Rattle.idl_token.specs.Symbol as t;
ghost use Rattle.idl_fault.specs.Machine as m;
ghost use Rattle.idl_token.specs.Seen.{symbol};
ghost use Rattle.idl_fault.specs.Views.{plan_of, stmt_item};

use crate::items::{
    ACCESS, ARGS, ASSIGN, BITS, CLOSE_BRACE, CLOSE_BRACKET, CLOSE_PAREN, COMMA, DOT, EXPR, GREATER,
    LESS, MODE, OPEN_BRACE, OPEN_BRACKET, OPEN_PAREN, SEMICOLON, SHAPE, SOFT_WRITE, STMTS, U32,
    WIDTH, WORD,
};
use crate::parts::ExprPart::{Behind, Inside};
use crate::parts::StmtPart::{
    Call, Count, Csr, CsrTarget, CsrWord, ElseBlock, Otherwise, Stmt, Stmts, When, Worded,
    WriteOrSet,
};
use crate::parts::{Item, Plan, StmtPart};
use idl_token::{Reserved, Seen, Sign};

fn begins_reserved(word: Reserved) -> bool
    ensures { result ≡ begins_reserved word }
{
    match word {
        Reserved::Bits | Reserved::Boolean | Reserved::XReg | Reserved::U32 | Reserved::U64 => true,
        Reserved::Signed | Reserved::If | Reserved::For | Reserved::Return | Reserved::X => true,
        Reserved::Csr | Reserved::Jump | Reserved::Raise | Reserved::WriteMemory => true,
        Reserved::PrivilegeMode | Reserved::ExceptionCode | Reserved::CsrFieldType => true,
        _ => false,
    }
}

// Whether a statement begins with the token.
fn begins(token: Seen<'_>) -> bool
    ensures { result ≡ begins (symbol token.entry) }
{
    match token {
        Seen::Word(_) | Seen::Sign(Sign::OpenBrace) => true,
        Seen::Reserved(word) => begins_reserved(word),
        _ => false,
    }
}

// A statement and more of them, or none.
fn stmts_if<'a>(more: bool) -> Plan<'a>
    ensures { plan_of result ≡ m.stmts_by more }
{
    if more {
        Plan::Leaves(&[Item::Stmt(Stmt), STMTS])
    } else {
        Plan::Leaves(&[])
    }
}

// statements = { statement }
fn stmts<'a>(head: Option<Seen<'a>>) -> Plan<'a>
    ensures { plan_of result ≡ m.stmts_plan (option_map symbol head.entry) }
{
    match head {
        None => Plan::Leaves(&[]),
        Some(token) => stmts_if(begins(token)),
    }
}

// Behind the word of the language that a statement begins with:
// jump = "jump" "(" expression ")" ";"
// raise = "raise" "(" expression "," "mode" "(" ")" "," expression ")" ";"
// write = "write_memory" "<" bits ">" "(" expression "," expression ")" ";"
// register = "X" "[" expression "]" "=" expression ";", and by address "CSR" "[" csr
// return = "return" expression ";", if = "if" when, for = "for" "(" "U32" count
// declaration = type word "=" expression ";"
fn of_reserved<'a>(word: Reserved) -> Plan<'a>
    ensures { plan_of result ≡ m.stmt_reserved word }
{
    match word {
        Reserved::Jump => Plan::Takes(&[OPEN_PAREN, EXPR, CLOSE_PAREN, SEMICOLON]),
        Reserved::Raise => Plan::Takes(&[
            OPEN_PAREN,
            EXPR,
            COMMA,
            MODE,
            OPEN_PAREN,
            CLOSE_PAREN,
            COMMA,
            EXPR,
            CLOSE_PAREN,
            SEMICOLON,
        ]),
        Reserved::WriteMemory => Plan::Takes(&[
            LESS,
            ACCESS,
            GREATER,
            OPEN_PAREN,
            EXPR,
            COMMA,
            EXPR,
            CLOSE_PAREN,
            SEMICOLON,
        ]),
        Reserved::X => Plan::Takes(&[OPEN_BRACKET, EXPR, CLOSE_BRACKET, ASSIGN, EXPR, SEMICOLON]),
        Reserved::Csr => Plan::Takes(&[OPEN_BRACKET, Item::Stmt(Csr)]),
        Reserved::Return => Plan::Takes(&[EXPR, SEMICOLON]),
        Reserved::If => Plan::Takes(&[Item::Stmt(When)]),
        Reserved::For => Plan::Takes(&[OPEN_PAREN, U32, Item::Stmt(Count)]),
        _ => Plan::Leaves(&[SHAPE, WORD, ASSIGN, EXPR, SEMICOLON]),
    }
}

// statement = word worded | "{" statements "}" | one that begins with a word of the language
fn stmt<'a>(head: Option<Seen<'a>>) -> Plan<'a>
    ensures { plan_of result ≡ m.stmt_plan (option_map symbol head.entry) }
{
    match head {
        Some(Seen::Word(_)) => Plan::Takes(&[Item::Stmt(Worded)]),
        Some(Seen::Sign(Sign::OpenBrace)) => Plan::Takes(&[STMTS, CLOSE_BRACE]),
        Some(Seen::Reserved(word)) => of_reserved(word),
        _ => Plan::Leaves(&[SHAPE, WORD, ASSIGN, EXPR, SEMICOLON]),
    }
}

// Behind a word: `"(" call`, `"=" expression ";"` or `"[" inside "=" expression ";"`.
fn after_word<'a>(head: Option<Seen<'a>>) -> Plan<'a>
    ensures { plan_of result ≡ m.worded_plan (option_map symbol head.entry) }
{
    match head {
        Some(Seen::Sign(Sign::OpenParen)) => Plan::Takes(&[Item::Stmt(Call)]),
        Some(Seen::Sign(Sign::Assign)) => Plan::Takes(&[EXPR, SEMICOLON]),
        Some(Seen::Sign(Sign::OpenBracket)) => {
            Plan::Takes(&[Item::Expr(Inside), ASSIGN, EXPR, SEMICOLON])
        }
        _ => Plan::Refuses,
    }
}

// Behind `word(`: `")" ";" | args ")" ";"`.
fn call<'a>(head: Option<Seen<'a>>) -> Plan<'a>
    ensures { plan_of result ≡ m.call_stmt_plan (option_map symbol head.entry) }
{
    match head {
        Some(Seen::Sign(Sign::CloseParen)) => Plan::Takes(&[SEMICOLON]),
        _ => Plan::Leaves(&[ARGS, CLOSE_PAREN, SEMICOLON]),
    }
}

// Behind `CSR[`: `word csr_word | expression "]" soft_write`, where
// soft_write = "." "sw_write" "(" expression ")" ";".
fn csr<'a>(head: Option<Seen<'a>>) -> Plan<'a>
    ensures { plan_of result ≡ m.csr_stmt_plan (option_map symbol head.entry) }
{
    match head {
        Some(Seen::Word(_)) => Plan::Takes(&[Item::Stmt(CsrWord)]),
        _ => Plan::Leaves(&[
            EXPR,
            CLOSE_BRACKET,
            DOT,
            SOFT_WRITE,
            OPEN_PAREN,
            EXPR,
            CLOSE_PAREN,
            SEMICOLON,
        ]),
    }
}

// Behind `CSR[` and a word: `"]" "." target`, or the rest of an expression, `"]"` and soft_write.
fn csr_word<'a>(head: Option<Seen<'a>>) -> Plan<'a>
    ensures { plan_of result ≡ m.csr_stmt_word_plan (option_map symbol head.entry) }
{
    match head {
        Some(Seen::Sign(Sign::CloseBracket)) => Plan::Takes(&[DOT, Item::Stmt(CsrTarget)]),
        _ => Plan::Leaves(&[
            Item::Expr(Behind),
            CLOSE_BRACKET,
            DOT,
            SOFT_WRITE,
            OPEN_PAREN,
            EXPR,
            CLOSE_PAREN,
            SEMICOLON,
        ]),
    }
}

// The word behind `CSR[word].`.
fn target<'a>(word: &str) -> Plan<'a>
    ensures { plan_of result ≡ m.csr_target_plan (Some (t.word word.now)) }
{
    if word == "sw_write" {
        Plan::Takes(&[Item::Stmt(WriteOrSet)])
    } else {
        Plan::Takes(&[ASSIGN, EXPR, SEMICOLON])
    }
}

// Behind `CSR[word].`: `sw_write` as below, or a field with `"=" expression ";"`.
fn csr_target<'a>(head: Option<Seen<'a>>) -> Plan<'a>
    ensures { plan_of result ≡ m.csr_target_plan (option_map symbol head.entry) }
{
    match head {
        Some(Seen::Word(word)) => target(word),
        _ => Plan::Refuses,
    }
}

// Behind `CSR[word].sw_write`: `"(" expression ")" ";" | "=" expression ";"`.
fn write_or_set<'a>(head: Option<Seen<'a>>) -> Plan<'a>
    ensures { plan_of result ≡ m.write_or_set_plan (option_map symbol head.entry) }
{
    match head {
        Some(Seen::Sign(Sign::OpenParen)) => Plan::Takes(&[EXPR, CLOSE_PAREN, SEMICOLON]),
        _ => Plan::Leaves(&[ASSIGN, EXPR, SEMICOLON]),
    }
}

// otherwise = [ "else" else_block ]
fn otherwise<'a>(head: Option<Seen<'a>>) -> Plan<'a>
    ensures { plan_of result ≡ m.otherwise_plan (option_map symbol head.entry) }
{
    match head {
        Some(Seen::Reserved(Reserved::Else)) => Plan::Takes(&[Item::Stmt(ElseBlock)]),
        _ => Plan::Leaves(&[]),
    }
}

// else_block = "{" statements "}" | "if" when
fn else_block<'a>(head: Option<Seen<'a>>) -> Plan<'a>
    ensures { plan_of result ≡ m.else_block_plan (option_map symbol head.entry) }
{
    match head {
        Some(Seen::Sign(Sign::OpenBrace)) => Plan::Takes(&[STMTS, CLOSE_BRACE]),
        Some(Seen::Reserved(Reserved::If)) => Plan::Takes(&[Item::Stmt(When)]),
        _ => Plan::Refuses,
    }
}

// count = word "=" width ";" word "<" width ";" word "++" ")" "{" statements "}", one word.
fn count<'a>(head: Option<Seen<'a>>) -> Plan<'a>
    ensures { plan_of result ≡ m.count_plan (option_map symbol head.entry) }
{
    match head {
        Some(Seen::Word(word)) => Plan::TakesCounter(word),
        _ => Plan::Refuses,
    }
}

// type = [ "signed" ] "Bits" "<" width ">" | a word for a type alone
fn shape<'a>(head: Option<Seen<'a>>) -> Plan<'a>
    ensures { plan_of result ≡ m.shape_plan (option_map symbol head.entry) }
{
    match head {
        Some(Seen::Reserved(Reserved::Bits)) => Plan::Takes(&[LESS, WIDTH, GREATER]),
        Some(Seen::Reserved(Reserved::Signed)) => Plan::Takes(&[BITS, LESS, WIDTH, GREATER]),
        Some(
            Seen::Reserved(
                Reserved::XReg
                | Reserved::U32
                | Reserved::U64
                | Reserved::Boolean
                | Reserved::PrivilegeMode
                | Reserved::ExceptionCode
                | Reserved::CsrFieldType,
            ),
        ) => Plan::Takes(&[]),
        _ => Plan::Refuses,
    }
}

/// What a part of a statement does.
pub fn plan_stmt<'a>(part: StmtPart, head: Option<Seen<'a>>) -> Plan<'a>
    ensures { (b : Bool)
        → plan_of result ≡ m.plan b (stmt_item part) (option_map symbol head.entry) }
{
    match part {
        Stmts => stmts(head),
        Stmt => stmt(head),
        Worded => after_word(head),
        Call => call(head),
        Csr => csr(head),
        CsrWord => csr_word(head),
        CsrTarget => csr_target(head),
        WriteOrSet => write_or_set(head),
        When => Plan::Leaves(&[
            OPEN_PAREN,
            EXPR,
            CLOSE_PAREN,
            OPEN_BRACE,
            STMTS,
            CLOSE_BRACE,
            Item::Stmt(Otherwise),
        ]),
        Otherwise => otherwise(head),
        ElseBlock => else_block(head),
        Count => count(head),
        StmtPart::Shape => shape(head),
    }
}
