//! Atoms, up to the first expression that they hold. `below` is the nesting that this may have.

ghost use Rattle.std.specs.Prelude.{◌≡◌, []};
ghost use Rattle.idl_grammar.specs.ExprReader as er;
ghost use Rattle.idl_grammar.specs.Outcome as o;
ghost use Rattle.idl_grammar.specs.Tables as tables;
ghost use Rattle.idl_token.specs.Symbol as t;
ghost use Rattle.idl_exprs.specs.Gives.{in_expr};
ghost use Rattle.idl_exprs.specs.Steps.{Opens, OpensSmall, moved_by, atom_at};

use crate::cursor::{Cursor, expect};
use crate::exprs::ExprPart;
use crate::literals::{
    access, empty_call, extension_test, field, member, new_field, version_test, whole, xlen,
};
use crate::progress::{Open, Opening};
use crate::stop::{Stop, keep};
use crate::widths::{is_short, width};
use idl_token::{Reserved, Seen, Sign, Special};
use idl_tree::{Chars, EnumKind, Expr, Many, Name, Width};
use std::alloc::Global;

/// What begins with a word, which has been read.
// named ::= word [ '(' [ args ] ')' ]
#[tactic(auto, unfolding(idl_grammar::specs::ExprReader::named, idl_grammar::specs::ExprReader::called))]
pub fn word_or_call<'a>(
    alloc: Global,
    tokens: &mut Cursor<'a>,
    below: u32,
    name: &str,
) -> Result<Opening<'a>, Stop>
    ensures leads { Opens below (in_expr er.named below name.now) tokens.old result tokens.new }
    ensures small { OpensSmall below result }
{
    let name = Name::of(alloc, name)?;
    if !tokens.sees(Sign::OpenParen) {
        return Ok(whole(alloc, Expr::Word(name), 1)?);
    }
    tokens.skip();
    if tokens.sees(Sign::CloseParen) {
        tokens.skip();
        let args = Many::new(alloc);
        return Ok(whole(alloc, Expr::Call { name, args }, 1)?);
    }
    if below == 0 {
        return Err(Stop::Fault);
    }
    Ok(Opening::Arguments(name))
}

// csr_word ::= ']' field | the rest of the expression that begins with the word
#[tactic(auto, unfolding(idl_grammar::specs::ExprReader::csr_word, idl_grammar::specs::ExprReader::address, idl_grammar::specs::ExprReader::soft_read))]
fn csr_word<'a>(
    alloc: Global,
    tokens: &mut Cursor<'a>,
    below: u32,
    name: &'a str,
) -> Result<Opening<'a>, Stop>
    ensures leads { Opens below (in_expr er.csr_word below name.now) tokens.old result tokens.new }
    ensures small { OpensSmall below result }
{
    if tokens.sees(Sign::CloseBracket) {
        tokens.skip();
        return field(alloc, tokens, below, name);
    }
    if below == 0 {
        return Err(Stop::Fault);
    }
    Ok(Opening::Open(Open::Address(ExprPart::Behind(name))))
}

// csr ::= '[' ( word csr_word | expr )
#[tactic(auto, unfolding(idl_grammar::specs::ExprReader::csr, idl_grammar::specs::ExprReader::address, idl_grammar::specs::ExprReader::soft_read))]
fn csr<'a>(alloc: Global, tokens: &mut Cursor<'a>, below: u32) -> Result<Opening<'a>, Stop>
    ensures leads { Opens below (in_expr er.csr below) tokens.old result tokens.new }
    ensures small { OpensSmall below result }
{
    expect(tokens, Sign::OpenBracket)?;
    match tokens.peek() {
        Some(Seen::Word(name)) => {
            tokens.skip();
            csr_word(alloc, tokens, below, name)
        }
        _ => {
            if below == 0 {
                return Err(Stop::Fault);
            }
            Ok(Opening::Open(Open::Address(ExprPart::Any)))
        }
    }
}

fn enum_of(word: Reserved) -> Option<EnumKind>
    ensures { result ≡ tables.enum_of word }
{
    match word {
        Reserved::PrivilegeMode => Some(EnumKind::PrivilegeMode),
        Reserved::ExceptionCode => Some(EnumKind::ExceptionCode),
        Reserved::CsrFieldType => Some(EnumKind::CsrFieldType),
        _ => None,
    }
}

// register ::= '['
#[tactic(auto, unfolding(idl_grammar::specs::ExprReader::register))]
fn register<'a>(tokens: &mut Cursor<'a>, below: u32) -> Result<Opening<'a>, Stop>
    ensures leads { Opens below (in_expr er.register below) tokens.old result tokens.new }
    ensures small { OpensSmall below result }
{
    expect(tokens, Sign::OpenBracket)?;
    Ok(Opening::Open(Open::Register))
}

// memory ::= access '('
#[tactic(auto, unfolding(idl_grammar::specs::ExprReader::memory))]
fn memory<'a>(tokens: &mut Cursor<'a>, below: u32) -> Result<Opening<'a>, Stop>
    ensures leads { Opens below (in_expr er.memory below) tokens.old result tokens.new }
    ensures small { OpensSmall below result }
{
    let bits = access(tokens)?;
    expect(tokens, Sign::OpenParen)?;
    Ok(Opening::Open(Open::Memory(bits)))
}

// as_signed ::= '('
#[tactic(auto, unfolding(idl_grammar::specs::ExprReader::as_signed))]
fn as_signed<'a>(tokens: &mut Cursor<'a>, below: u32) -> Result<Opening<'a>, Stop>
    ensures leads { Opens below (in_expr er.as_signed below) tokens.old result tokens.new }
    ensures small { OpensSmall below result }
{
    expect(tokens, Sign::OpenParen)?;
    Ok(Opening::Open(Open::AsSigned))
}

// resized ::= '<' width '>' '('
#[tactic(auto, unfolding(idl_grammar::specs::ExprReader::resized))]
fn resize<'a>(alloc: Global, tokens: &mut Cursor<'a>, below: u32) -> Result<Opening<'a>, Stop>
    ensures leads { Opens below (in_expr er.resized below) tokens.old result tokens.new }
    ensures small { OpensSmall below result }
{
    expect(tokens, Sign::Less)?;
    let (width, nesting) = width(alloc, tokens, below)?;
    let (width, _) = keep(width, expect(tokens, Sign::Greater))?;
    let (width, _) = keep(width, expect(tokens, Sign::OpenParen))?;
    Ok(Opening::Open(Open::Resize { width, nesting }))
}

// What begins with a word of the language.
fn reserved_word<'a>(
    alloc: Global,
    tokens: &mut Cursor<'a>,
    below: u32,
    word: Reserved,
) -> Result<Opening<'a>, Stop>
    ensures leads { Opens below (moved_by er.reserved_by below word) tokens.old result tokens.new }
    ensures small { OpensSmall below result }
{
    match word {
        Reserved::X => {
            if below == 0 {
                return Err(Stop::Fault);
            }
            tokens.skip();
            register(tokens, below)
        }
        Reserved::Csr => {
            tokens.skip();
            csr(alloc, tokens, below)
        }
        Reserved::ReadMemory => {
            if below == 0 {
                return Err(Stop::Fault);
            }
            tokens.skip();
            memory(tokens, below)
        }
        Reserved::True => {
            tokens.skip();
            Ok(whole(alloc, Expr::Flag(true), 1)?)
        }
        Reserved::False => {
            tokens.skip();
            Ok(whole(alloc, Expr::Flag(false), 1)?)
        }
        Reserved::CsrValue => {
            tokens.skip();
            new_field(alloc, tokens)
        }
        Reserved::Xlen => {
            tokens.skip();
            xlen(alloc, tokens)
        }
        Reserved::Mode => {
            tokens.skip();
            empty_call(alloc, tokens, Expr::Mode)
        }
        _ => match enum_of(word) {
            Some(kind) => {
                tokens.skip();
                member(alloc, tokens, kind)
            }
            None => Err(Stop::Fault),
        },
    }
}

// What begins with a special word.
fn special_word<'a>(
    alloc: Global,
    tokens: &mut Cursor<'a>,
    below: u32,
    word: Special,
) -> Result<Opening<'a>, Stop>
    ensures leads { Opens below (atom_at below (t.special word)) tokens.old result tokens.new }
    ensures small { OpensSmall below result }
{
    match word {
        Special::AsSigned => {
            if below == 0 {
                return Err(Stop::Fault);
            }
            tokens.skip();
            as_signed(tokens, below)
        }
        Special::Resize => {
            if below == 0 {
                return Err(Stop::Fault);
            }
            tokens.skip();
            resize(alloc, tokens, below)
        }
        Special::Pc => {
            tokens.skip();
            Ok(whole(alloc, Expr::Pc, 1)?)
        }
        Special::Encoding => {
            tokens.skip();
            Ok(whole(alloc, Expr::Encoding, 1)?)
        }
        Special::Implemented => {
            tokens.skip();
            extension_test(alloc, tokens)
        }
        Special::ImplementedVersion => {
            tokens.skip();
            version_test(alloc, tokens)
        }
        Special::WidthOf => Err(Stop::Fault),
    }
}

// What begins with a bracket.
fn bracket<'a>(tokens: &mut Cursor<'a>, below: u32, sign: Sign) -> Result<Opening<'a>, Stop>
    ensures leads { Opens below (atom_at below (t.sign sign)) tokens.old result tokens.new }
    ensures small { OpensSmall below result }
{
    match sign {
        Sign::OpenParen => {
            if below == 0 {
                return Err(Stop::Fault);
            }
            tokens.skip();
            Ok(Opening::Parens)
        }
        Sign::OpenBrace => {
            if below == 0 {
                return Err(Stop::Fault);
            }
            tokens.skip();
            Ok(Opening::Braces)
        }
        _ => Err(Stop::Fault),
    }
}

/// The beginning of an atom, up to the first expression that it holds.
pub fn atom<'a>(alloc: Global, tokens: &mut Cursor<'a>, below: u32) -> Result<Opening<'a>, Stop>
    ensures leads { Opens below (o.among (in_expr er.atom_by below)) tokens.old result tokens.new }
    ensures small { OpensSmall below result }
{
    match tokens.peek() {
        Some(Seen::Word(name)) => {
            tokens.skip();
            word_or_call(alloc, tokens, below, name)
        }
        Some(Seen::Reserved(word)) => reserved_word(alloc, tokens, below, word),
        Some(Seen::Special(word)) => special_word(alloc, tokens, below, word),
        Some(Seen::Sign(sign)) => bracket(tokens, below, sign),
        Some(Seen::Number(number)) => {
            tokens.skip();
            Ok(whole(alloc, Expr::Number(number), 1)?)
        }
        Some(
            Seen::SizedNumber {
                width,
                signed,
                value,
            },
        ) => {
            if !is_short(width) {
                return Err(Stop::Fault);
            }
            tokens.skip();
            let width = Width::Number(width as u32);
            let found = Expr::Sized {
                width,
                signed,
                value,
            };
            Ok(whole(alloc, found, 1)?)
        }
        Some(
            Seen::SizedWord {
                width,
                signed,
                value,
            },
        ) => {
            tokens.skip();
            let width = Width::Word(Name::of(alloc, width)?);
            let found = Expr::Sized {
                width,
                signed,
                value,
            };
            Ok(whole(alloc, found, 1)?)
        }
        Some(Seen::Quoted(text)) => {
            tokens.skip();
            let text = Chars::of(alloc, text)?;
            Ok(whole(alloc, Expr::Text(text), 1)?)
        }
        _ => Err(Stop::Fault),
    }
}
