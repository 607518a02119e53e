//! Widths. A reader answers the width, whether it may be multiplied, and its nesting.

ghost use Rattle.std.specs.Prelude.{◌≡◌, ◌≤◌, ◌<◌, IfOk};
ghost use Rattle.idl_grammar.specs.Outcome as o;
ghost use Rattle.idl_grammar.specs.WidthReader as spec;
ghost use Rattle.idl_grammar.specs.Tables.{is_short};
ghost use Rattle.idl_exprs.specs.Gives.{Reads, pair, triple, widths_below, in_width, ahead};
ghost use Rattle.idl_exprs.specs.Widths.{sums, multiplied, atom, word_bits, field_bits, part_of, sum_sign_at, sum_of};

use crate::cursor::{Cursor, expect, word};
use crate::stop::{Stop, keep};
use idl_token::{Reserved, Seen, Sign, Special};
use idl_tree::{Boxed, Name, Width};
use std::alloc::Global;
use udb_base::both;

/// What is read of a width: an atom, a term or all of it; a factor is an atom that may be
/// multiplied, and a product a term that may stand in a factor's parentheses.
#[derive(Clone, Copy)]
pub enum WidthPart {
    Atom,
    Term,
    Whole,
    Factor,
    Product,
}

/// The sign of a sum of widths.
#[derive(Clone, Copy)]
pub enum SumSign {
    Plus,
    Minus,
}

/// Whether a number may stand in a width.
pub fn is_short(number: u128) -> bool
    ensures { result ≡ is_short number }
{
    number <= 65_535
}

fn next_sum_sign(tokens: &Cursor<'_>) -> Option<SumSign>
    ensures { result ≡ sum_sign_at (o.head (ahead tokens.now)) }
{
    match tokens.peek() {
        Some(Seen::Sign(Sign::Plus)) => Some(SumSign::Plus),
        Some(Seen::Sign(Sign::Minus)) => Some(SumSign::Minus),
        _ => None,
    }
}

fn sum(sign: SumSign, left: Boxed<Width>, right: Boxed<Width>) -> Width
    ensures { result ≡ sum_of sign left right }
{
    match sign {
        SumSign::Plus => Width::Plus(left, right),
        SumSign::Minus => Width::Minus(left, right),
    }
}

// word_bits ::= word ')', behind the word
fn word_bits(
    alloc: Global,
    tokens: &mut Cursor<'_>,
    text: &str,
) -> Result<(Boxed<Width>, bool, u64), Stop>
    ensures { Reads triple (word_bits text.now) tokens.old result tokens.new }
{
    expect(tokens, Sign::CloseParen)?;
    let name = Name::of(alloc, text)?;
    let width = Boxed::new(alloc, Width::Bits { csr: None, name })?;
    Ok((width, true, 0))
}

// field_bits ::= '[' word ']' '.' word ')'
fn field_bits(alloc: Global, tokens: &mut Cursor<'_>) -> Result<(Boxed<Width>, bool, u64), Stop>
    ensures { Reads triple field_bits tokens.old result tokens.new }
{
    expect(tokens, Sign::OpenBracket)?;
    let csr = word(tokens)?;
    expect(tokens, Sign::CloseBracket)?;
    expect(tokens, Sign::Dot)?;
    let name = word(tokens)?;
    expect(tokens, Sign::CloseParen)?;
    let (csr, name) = both(Name::of(alloc, csr), Name::of(alloc, name))?;
    let csr = Some(csr);
    let width = Boxed::new(alloc, Width::Bits { csr, name })?;
    Ok((width, true, 0))
}

// inside ::= word ')' | 'CSR' field_bits
fn bits_inside(alloc: Global, tokens: &mut Cursor<'_>) -> Result<(Boxed<Width>, bool, u64), Stop>
    ensures { Reads triple (o.among spec.bits_by) tokens.old result tokens.new }
{
    match tokens.peek() {
        Some(Seen::Word(text)) => {
            tokens.skip();
            word_bits(alloc, tokens, text)
        }
        Some(Seen::Reserved(Reserved::Csr)) => {
            tokens.skip();
            field_bits(alloc, tokens)
        }
        _ => Err(Stop::Fault),
    }
}

// bits ::= '(' inside
#[tactic(auto, unfolding(idl_grammar::specs::WidthReader::bits))]
fn bits(alloc: Global, tokens: &mut Cursor<'_>) -> Result<(Boxed<Width>, bool, u64), Stop>
    ensures { Reads triple spec.bits tokens.old result tokens.new }
{
    expect(tokens, Sign::OpenParen)?;
    bits_inside(alloc, tokens)
}

/// A part of a width, of nesting at most `depth`.
#[cycle(widths)]
pub fn width_part(
    alloc: Global,
    tokens: &mut Cursor<'_>,
    depth: u32,
    part: WidthPart,
) -> Result<(Boxed<Width>, bool, u64), Stop>
    ensures { Reads triple (spec.width_part depth (part_of part)) tokens.old result tokens.new }
{
    match part {
        WidthPart::Atom => atoms(alloc, tokens, depth, false),
        WidthPart::Term => terms(alloc, tokens, depth, false),
        WidthPart::Whole => {
            let (first, may, nesting) = terms(alloc, tokens, depth, false)?;
            sums(alloc, tokens, depth, first, may, nesting)
        }
        WidthPart::Factor => atoms(alloc, tokens, depth, true),
        WidthPart::Product => terms(alloc, tokens, depth, true),
    }
}

// The same within one level less.
#[cycle(widths)]
fn below(
    alloc: Global,
    tokens: &mut Cursor<'_>,
    depth: u32,
    part: WidthPart,
) -> Result<(Boxed<Width>, bool, u64), Stop>
    requires { 1 ≤ depth }
    ensures { Reads triple (widths_below depth (part_of part)) tokens.old result tokens.new }
{
    width_part(alloc, tokens, depth - 1, part)
}

// The sums that begin with the term `first`, of nesting `high`: { ( '+' | '-' ) term }
#[cycle(widths)]
fn sums(
    alloc: Global,
    tokens: &mut Cursor<'_>,
    depth: u32,
    first: Boxed<Width>,
    first_may: bool,
    high: u64,
) -> Result<(Boxed<Width>, bool, u64), Stop>
    ensures { Reads triple (sums depth first first_may high) tokens.old result tokens.new }
{
    let mut left = first;
    let mut may = first_may;
    let mut nesting = high;
    while let Some(sign) = next_sum_sign(tokens) {
        if nesting >= u64::from(depth) {
            return Err(Stop::Fault);
        }
        tokens.skip();
        let (right, _, inner) = below(alloc, tokens, depth, WidthPart::Term)?;
        left = Boxed::new(alloc, sum(sign, left, right))?;
        may = false;
        nesting = nesting.max(inner) + 1;
    }
    Ok((left, may, nesting))
}

// After the opening one of parens ::= '(' sums ')'
#[cycle(widths)]
#[tactic(auto, unfolding(idl_grammar::specs::WidthReader::parens))]
fn parens(
    alloc: Global,
    tokens: &mut Cursor<'_>,
    depth: u32,
) -> Result<(Boxed<Width>, bool, u64), Stop>
    requires { 1 ≤ depth }
    ensures { Reads triple (in_width spec.parens depth) tokens.old result tokens.new }
{
    let (first, first_may, low) = below(alloc, tokens, depth, WidthPart::Term)?;
    let (inner, may, nesting) = sums(alloc, tokens, depth, first, first_may, low)?;
    let (inner, _) = keep(inner, expect(tokens, Sign::CloseParen))?;
    Ok((inner, may, (low + 1).max(nesting)))
}

// The same of a factor: '(' product ')'
#[cycle(widths)]
#[tactic(auto, unfolding(idl_grammar::specs::WidthReader::factor_parens))]
fn factor_parens(
    alloc: Global,
    tokens: &mut Cursor<'_>,
    depth: u32,
) -> Result<(Boxed<Width>, bool, u64), Stop>
    requires { 1 ≤ depth }
    ensures { Reads triple (in_width spec.factor_parens depth) tokens.old result tokens.new }
{
    let (inner, may, nesting) = below(alloc, tokens, depth, WidthPart::Product)?;
    let (inner, _) = keep(inner, expect(tokens, Sign::CloseParen))?;
    Ok((inner, may, nesting + 1))
}

// After the word of greatest ::= 'max' '(' width ',' width ')'
#[cycle(widths)]
#[tactic(auto, unfolding(idl_grammar::specs::WidthReader::greatest))]
fn greatest(
    alloc: Global,
    tokens: &mut Cursor<'_>,
    depth: u32,
) -> Result<(Boxed<Width>, bool, u64), Stop>
    requires { 1 ≤ depth }
    ensures { Reads triple (in_width spec.greatest depth) tokens.old result tokens.new }
{
    expect(tokens, Sign::OpenParen)?;
    let (left, _, low) = below(alloc, tokens, depth, WidthPart::Whole)?;
    let (left, _) = keep(left, expect(tokens, Sign::Comma))?;
    let (left, (right, _, high)) = keep(left, below(alloc, tokens, depth, WidthPart::Whole))?;
    let ((left, right), _) = keep((left, right), expect(tokens, Sign::CloseParen))?;
    Ok((
        Boxed::new(alloc, Width::Max(left, right))?,
        false,
        low.max(high) + 1,
    ))
}

// atom ::= number | word | '$width' bits | parens | greatest. A factor has no greatest, and its
// parentheses hold a product.
#[cycle(widths)]
#[tactic(auto, unfolding(idl_grammar::specs::WidthReader::atoms))]
fn atoms(
    alloc: Global,
    tokens: &mut Cursor<'_>,
    depth: u32,
    multiplied: bool,
) -> Result<(Boxed<Width>, bool, u64), Stop>
    ensures { Reads triple (in_width spec.atoms depth multiplied) tokens.old result tokens.new }
{
    match tokens.peek() {
        Some(Seen::Number(number)) => {
            if !is_short(number) {
                return Err(Stop::Fault);
            }
            tokens.skip();
            Ok((Boxed::new(alloc, Width::Number(number as u32))?, true, 0))
        }
        Some(Seen::Word(text)) => {
            tokens.skip();
            let name = Name::of(alloc, text)?;
            Ok((Boxed::new(alloc, Width::Word(name))?, true, 0))
        }
        Some(Seen::Special(Special::WidthOf)) => {
            tokens.skip();
            bits(alloc, tokens)
        }
        Some(Seen::Sign(Sign::OpenParen)) => {
            if depth == 0 {
                return Err(Stop::Fault);
            }
            tokens.skip();
            if multiplied {
                factor_parens(alloc, tokens, depth)
            } else {
                parens(alloc, tokens, depth)
            }
        }
        Some(Seen::Reserved(Reserved::Max)) => {
            if multiplied || depth == 0 {
                return Err(Stop::Fault);
            }
            tokens.skip();
            greatest(alloc, tokens, depth)
        }
        _ => Err(Stop::Fault),
    }
}

// term ::= number [ '*' factor ] | atom [ '*' number ]
#[cycle(widths)]
#[tactic(auto, unfolding(idl_grammar::specs::WidthReader::terms))]
fn terms(
    alloc: Global,
    tokens: &mut Cursor<'_>,
    depth: u32,
    multiplied: bool,
) -> Result<(Boxed<Width>, bool, u64), Stop>
    ensures { Reads triple (in_width spec.terms depth multiplied) tokens.old result tokens.new }
{
    match tokens.peek() {
        Some(Seen::Number(number)) => {
            if !is_short(number) {
                return Err(Stop::Fault);
            }
            tokens.skip();
            after_number(alloc, tokens, depth, number as u32)
        }
        _ => {
            let (first, may, nesting) = atoms(alloc, tokens, depth, multiplied)?;
            times_number(alloc, tokens, depth, first, may, nesting)
        }
    }
}

// After a number: [ '*' factor ]
#[cycle(widths)]
#[tactic(auto, unfolding(idl_grammar::specs::WidthReader::after_number))]
fn after_number(
    alloc: Global,
    tokens: &mut Cursor<'_>,
    depth: u32,
    number: u32,
) -> Result<(Boxed<Width>, bool, u64), Stop>
    ensures { Reads triple (in_width spec.after_number depth number) tokens.old result tokens.new }
{
    if !tokens.sees(Sign::Times) {
        return Ok((Boxed::new(alloc, Width::Number(number))?, true, 0));
    }
    if depth == 0 {
        return Err(Stop::Fault);
    }
    tokens.skip();
    let (right, _, nesting) = below(alloc, tokens, depth, WidthPart::Factor)?;
    let (right, left) = keep(right, Boxed::new(alloc, Width::Number(number)))?;
    Ok((
        Boxed::new(alloc, Width::Times(left, right))?,
        true,
        nesting + 1,
    ))
}

// After an atom: [ '*' number ], where the atom may be multiplied
#[tactic(auto, unfolding(idl_grammar::specs::WidthReader::multiplied))]
fn times_number(
    alloc: Global,
    tokens: &mut Cursor<'_>,
    depth: u32,
    first: Boxed<Width>,
    may: bool,
    nesting: u64,
) -> Result<(Boxed<Width>, bool, u64), Stop>
    ensures { Reads triple (multiplied depth first may nesting) tokens.old result tokens.new }
{
    if !may || !tokens.sees(Sign::Times) {
        return Ok((first, may, nesting));
    }
    if nesting >= u64::from(depth) {
        return Err(Stop::Fault);
    }
    tokens.skip();
    match tokens.peek() {
        Some(Seen::Number(number)) => {
            if !is_short(number) {
                return Err(Stop::Fault);
            }
            tokens.skip();
            let (left, right) = keep(first, Boxed::new(alloc, Width::Number(number as u32)))?;
            Ok((
                Boxed::new(alloc, Width::Times(left, right))?,
                true,
                nesting + 1,
            ))
        }
        _ => Err(Stop::Fault),
    }
}

/// A whole width, of nesting at most `depth`.
pub fn width(
    alloc: Global,
    tokens: &mut Cursor<'_>,
    depth: u32,
) -> Result<(Boxed<Width>, u64), Stop>
    ensures read { Reads pair (spec.width depth) tokens.old result tokens.new }
    ensures small { IfOk result (λ x. x.1 ≤ depth) }
{
    let (found, _, nesting) = width_part(alloc, tokens, depth, WidthPart::Whole)?;
    Ok((found, nesting))
}

/// An atom of a width, of nesting at most `depth`.
pub fn width_atom(
    alloc: Global,
    tokens: &mut Cursor<'_>,
    depth: u32,
) -> Result<(Boxed<Width>, u64), Stop>
    ensures read { Reads pair (atom depth) tokens.old result tokens.new }
    ensures small { IfOk result (λ x. x.1 ≤ depth) }
{
    let (found, _, nesting) = width_part(alloc, tokens, depth, WidthPart::Atom)?;
    Ok((found, nesting))
}
