//! Operands that hold no expression, after the word that begins them.

ghost use Rattle.std.specs.Prelude.{◌≡◌, ◌≤◌, ◌+◌, ℕ, IfOk};
ghost use Rattle.idl_grammar.specs.Outcome as o;
ghost use Rattle.idl_grammar.specs.ExprReader as er;
ghost use Rattle.idl_grammar.specs.Tables.{sw_read};
ghost use Rattle.idl_exprs.specs.Exprs.{access_at, extension, quoted, word_read, xlen};
ghost use Rattle.idl_exprs.specs.Gives.{Reads, in_expr};
ghost use Rattle.idl_exprs.specs.Steps.{Opens, OpensEach, OpensSmall};
ghost use Rattle.idl_exprs.specs.declared.progress.Opening.TheVariants as opening;

use crate::cursor::{Cursor, expect, expect_reserved, word};
use crate::progress::Opening;
use crate::stop::{Stop, keep};
use idl_token::{Reserved, Seen, Sign};
use idl_tree::{Boxed, Chars, EnumKind, Expr, Name};
use std::alloc::{AllocError, Global};
use udb_base::both;

/// An operand that holds nothing more to be read.
pub fn whole<'a>(alloc: Global, found: Expr, nesting: u64) -> Result<Opening<'a>, AllocError>
    ensures { IfOk result (λ x. x ≡ opening.Whole found nesting) }
{
    Ok(Opening::Whole(Boxed::new(alloc, found)?, nesting))
}

fn access_of(number: u128) -> Option<u8>
    ensures { result ≡ access_at number }
{
    if number == 8 || number == 16 || number == 32 || number == 64 {
        Some(number as u8)
    } else {
        None
    }
}

fn access_bits(tokens: &mut Cursor<'_>) -> Result<u8, Stop>
    ensures { Reads (λ x. x) (o.among er.access_by) tokens.old result tokens.new }
{
    match tokens.peek() {
        Some(Seen::Number(number)) => match access_of(number) {
            Some(bits) => {
                tokens.skip();
                Ok(bits)
            }
            None => Err(Stop::Fault),
        },
        _ => Err(Stop::Fault),
    }
}

/// The number of bits of an access to memory.
// access ::= '<' ( 8 | 16 | 32 | 64 ) '>'
#[tactic(auto, unfolding(idl_grammar::specs::ExprReader::access))]
pub fn access(tokens: &mut Cursor<'_>) -> Result<u8, Stop>
    ensures { Reads (λ x. x) er.access tokens.old result tokens.new }
{
    expect(tokens, Sign::Less)?;
    let bits = access_bits(tokens)?;
    expect(tokens, Sign::Greater)?;
    Ok(bits)
}

/// What follows the word of an enumeration.
// member ::= '::' word
#[tactic(auto, unfolding(idl_grammar::specs::ExprReader::member))]
pub fn member<'a>(
    alloc: Global,
    tokens: &mut Cursor<'a>,
    kind: EnumKind,
) -> Result<Opening<'a>, Stop>
    ensures leads { OpensEach (λ n i. er.member n i kind) tokens.old result tokens.new }
    ensures small { (n : ℕ) → OpensSmall n result }
{
    expect(tokens, Sign::Path)?;
    let name = word(tokens)?;
    let name = Name::of(alloc, name)?;
    Ok(whole(alloc, Expr::Member { kind, name }, 1)?)
}

/// What follows the word for the value that software writes.
// new_field ::= '.' word
#[tactic(auto, unfolding(idl_grammar::specs::ExprReader::new_field))]
pub fn new_field<'a>(alloc: Global, tokens: &mut Cursor<'a>) -> Result<Opening<'a>, Stop>
    ensures leads { OpensEach er.new_field tokens.old result tokens.new }
    ensures small { (n : ℕ) → OpensSmall n result }
{
    expect(tokens, Sign::Dot)?;
    let name = word(tokens)?;
    let name = Name::of(alloc, name)?;
    Ok(whole(alloc, Expr::NewField(name), 1)?)
}

/// What follows a word that is called with no arguments.
// empty_call ::= '(' ')'
#[tactic(auto, unfolding(idl_grammar::specs::ExprReader::empty_call))]
pub fn empty_call<'a>(
    alloc: Global,
    tokens: &mut Cursor<'a>,
    found: Expr,
) -> Result<Opening<'a>, Stop>
    ensures leads { OpensEach (λ n i. er.empty_call n i found) tokens.old result tokens.new }
    ensures small { (n : ℕ) → OpensSmall n result }
{
    let found = whole(alloc, found, 1)?;
    let (found, _) = keep(found, expect(tokens, Sign::OpenParen))?;
    let (found, _) = keep(found, expect(tokens, Sign::CloseParen))?;
    Ok(found)
}

/// What follows the word for the width of registers.
pub fn xlen<'a>(alloc: Global, tokens: &mut Cursor<'a>) -> Result<Opening<'a>, Stop>
    ensures leads { OpensEach (λ n i. er.empty_call n i xlen) tokens.old result tokens.new }
    ensures small { (n : ℕ) → OpensSmall n result }
{
    let name = Name::of(alloc, "MXLEN")?;
    empty_call(alloc, tokens, Expr::Word(name))
}

// extension ::= '(' 'ExtensionName' '::' word
#[tactic(auto, unfolding(idl_grammar::specs::ExprReader::extension))]
fn extension<'a>(tokens: &mut Cursor<'a>) -> Result<&'a str, Stop>
    ensures { Reads (λ x. x.now) extension tokens.old result tokens.new }
{
    expect(tokens, Sign::OpenParen)?;
    expect_reserved(tokens, Reserved::ExtensionName)?;
    expect(tokens, Sign::Path)?;
    word(tokens)
}

/// What follows the word that asks for an extension.
// implemented ::= extension ')'
#[tactic(auto, unfolding(idl_grammar::specs::ExprReader::implemented, idl_grammar::specs::ExprReader::extension))]
pub fn extension_test<'a>(alloc: Global, tokens: &mut Cursor<'a>) -> Result<Opening<'a>, Stop>
    ensures leads { OpensEach er.implemented tokens.old result tokens.new }
    ensures small { (n : ℕ) → OpensSmall n result }
{
    let name = extension(tokens)?;
    expect(tokens, Sign::CloseParen)?;
    let name = Name::of(alloc, name)?;
    Ok(whole(alloc, Expr::Implemented(name), 1)?)
}

fn text<'a>(tokens: &mut Cursor<'a>) -> Result<&'a str, Stop>
    ensures { Reads (λ x. x.now) quoted tokens.old result tokens.new }
{
    match tokens.peek() {
        Some(Seen::Quoted(text)) => {
            tokens.skip();
            Ok(text)
        }
        _ => Err(Stop::Fault),
    }
}

/// What follows the word that asks for a version of an extension.
// implemented_version ::= extension ',' text ')'
#[tactic(auto, unfolding(idl_grammar::specs::ExprReader::implemented_version, idl_grammar::specs::ExprReader::extension))]
pub fn version_test<'a>(alloc: Global, tokens: &mut Cursor<'a>) -> Result<Opening<'a>, Stop>
    ensures leads { OpensEach er.implemented_version tokens.old result tokens.new }
    ensures small { (n : ℕ) → OpensSmall n result }
{
    let extension = extension(tokens)?;
    expect(tokens, Sign::Comma)?;
    let text = text(tokens)?;
    expect(tokens, Sign::CloseParen)?;
    let (extension, text) = both(Name::of(alloc, extension), Chars::of(alloc, text))?;
    Ok(whole(alloc, Expr::ImplementedVersion { extension, text }, 1)?)
}

fn is_read(field: &str) -> bool
    ensures { result ≡ o.same_text field.now sw_read }
{
    field == "sw_read"
}

// After `CSR[x].sw_read` and its opening parenthesis: ')'
fn word_read<'a>(
    alloc: Global,
    tokens: &mut Cursor<'a>,
    below: u32,
    csr: &str,
) -> Result<Opening<'a>, Stop>
    requires { 1 ≤ below }
    ensures leads { Opens below (word_read csr.now) tokens.old result tokens.new }
    ensures small { OpensSmall below result }
{
    expect(tokens, Sign::CloseParen)?;
    let csr = Name::of(alloc, csr)?;
    let csr = Boxed::new(alloc, Expr::Word(csr))?;
    Ok(whole(alloc, Expr::SoftRead(csr), 2)?)
}

#[tactic(auto, unfolding(idl_grammar::specs::ExprReader::field_or_read))]
fn field_or_read<'a>(
    alloc: Global,
    tokens: &mut Cursor<'a>,
    below: u32,
    csr: &str,
    field: &str,
) -> Result<Opening<'a>, Stop>
    ensures leads { Opens below (in_expr er.field_or_read below csr.now field.now) tokens.old
        result tokens.new }
    ensures small { OpensSmall below result }
{
    if !is_read(field) || !tokens.sees(Sign::OpenParen) {
        let (csr, field) = both(Name::of(alloc, csr), Name::of(alloc, field))?;
        return Ok(whole(alloc, Expr::Field { csr, field }, 1)?);
    }
    if below == 0 {
        return Err(Stop::Fault);
    }
    tokens.skip();
    word_read(alloc, tokens, below, csr)
}

/// A field of the CSR of that name, or the CSR as software reads it.
// field ::= '.' word | '.' 'sw_read' '(' ')'
#[tactic(auto, unfolding(idl_grammar::specs::ExprReader::field))]
pub fn field<'a>(
    alloc: Global,
    tokens: &mut Cursor<'a>,
    below: u32,
    csr: &str,
) -> Result<Opening<'a>, Stop>
    ensures leads { Opens below (in_expr er.field below csr.now) tokens.old result tokens.new }
    ensures small { OpensSmall below result }
{
    expect(tokens, Sign::Dot)?;
    let field = word(tokens)?;
    field_or_read(alloc, tokens, below, csr, field)
}
