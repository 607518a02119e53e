//! Names and types. A reader answers a type and its nesting, which is that of its width.

ghost use Rattle.std.specs.Prelude.{◌≡◌, ◌≤◌, false, IfOk};
ghost use Rattle.idl_grammar.specs.Outcome as o;
ghost use Rattle.idl_grammar.specs.StmtReader as spec;
ghost use Rattle.idl_tree.specs.declared.widths.Shape.TheVariants as shape;
ghost use Rattle.idl_exprs.specs.Gives.{Reads, pair};

use idl_exprs::{Cursor, Stop, expect, expect_reserved, keep, width, word};
use idl_token::{Reserved, Seen, Sign};
use idl_tree::{EnumKind, Name, Shape, Width};
use std::alloc::Global;

/// A word as a name, or stops.
pub fn name(alloc: Global, tokens: &mut Cursor<'_>) -> Result<Name, Stop>
    ensures { Reads (λ x. x) o.name tokens.old result tokens.new }
{
    let text = word(tokens)?;
    Ok(Name::of(alloc, text)?)
}

// bits ::= '<' width '>'
#[tactic(auto, unfolding(idl_grammar::specs::StmtReader::bits))]
fn bits(
    alloc: Global,
    tokens: &mut Cursor<'_>,
    depth: u32,
    signed: bool,
) -> Result<(Shape, u64), Stop>
    ensures { Reads pair (spec.bits depth signed) tokens.old result tokens.new }
{
    expect(tokens, Sign::Less)?;
    let (width, nesting) = width(alloc, tokens, depth)?;
    let (width, _) = keep(width, expect(tokens, Sign::Greater))?;
    let width = width.into_inner();
    Ok((Shape::Bits { signed, width }, nesting))
}

// signed_bits ::= 'Bits' bits
#[tactic(auto, unfolding(idl_grammar::specs::StmtReader::signed_bits))]
fn signed_bits(alloc: Global, tokens: &mut Cursor<'_>, depth: u32) -> Result<(Shape, u64), Stop>
    ensures { Reads pair (spec.signed_bits depth) tokens.old result tokens.new }
{
    expect_reserved(tokens, Reserved::Bits)?;
    bits(alloc, tokens, depth, true)
}

fn unsigned(width: Width) -> (Shape, u64)
    ensures { result ≡ (shape.Bits false width, 0) }
{
    let signed = false;
    (Shape::Bits { signed, width }, 0)
}

// shape ::= 'Bits' bits | 'signed' signed_bits | 'XReg' | 'U32' | 'U64' | 'Boolean' | enumeration
#[tactic(auto, unfolding(idl_grammar::specs::StmtReader::shape))]
fn any_shape(alloc: Global, tokens: &mut Cursor<'_>, depth: u32) -> Result<(Shape, u64), Stop>
    ensures { Reads pair (spec.shape depth) tokens.old result tokens.new }
{
    match tokens.peek() {
        Some(Seen::Reserved(Reserved::Bits)) => {
            tokens.skip();
            bits(alloc, tokens, depth, false)
        }
        Some(Seen::Reserved(Reserved::Signed)) => {
            tokens.skip();
            signed_bits(alloc, tokens, depth)
        }
        Some(Seen::Reserved(Reserved::XReg)) => {
            tokens.skip();
            Ok(unsigned(Width::Word(Name::of(alloc, "MXLEN")?)))
        }
        Some(Seen::Reserved(Reserved::U32)) => {
            tokens.skip();
            Ok(unsigned(Width::Number(32)))
        }
        Some(Seen::Reserved(Reserved::U64)) => {
            tokens.skip();
            Ok(unsigned(Width::Number(64)))
        }
        Some(Seen::Reserved(Reserved::Boolean)) => {
            tokens.skip();
            Ok((Shape::Boolean, 0))
        }
        Some(Seen::Reserved(Reserved::PrivilegeMode)) => {
            tokens.skip();
            Ok((Shape::Enum(EnumKind::PrivilegeMode), 0))
        }
        Some(Seen::Reserved(Reserved::ExceptionCode)) => {
            tokens.skip();
            Ok((Shape::Enum(EnumKind::ExceptionCode), 0))
        }
        Some(Seen::Reserved(Reserved::CsrFieldType)) => {
            tokens.skip();
            Ok((Shape::Enum(EnumKind::CsrFieldType), 0))
        }
        _ => Err(Stop::Fault),
    }
}

/// A type, with widths of nesting at most `depth`.
pub fn shape(alloc: Global, tokens: &mut Cursor<'_>, depth: u32) -> Result<(Shape, u64), Stop>
    ensures read { Reads pair (spec.shape depth) tokens.old result tokens.new }
    ensures small { IfOk result (λ x. x.1 ≤ depth) }
{
    any_shape(alloc, tokens, depth)
}
