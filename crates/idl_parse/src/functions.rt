//! Functions.

ghost use Rattle.std.specs.Prelude.{◌≡◌};
ghost use Rattle.idl_grammar.specs.Outcome as o;
ghost use Rattle.idl_grammar.specs.StmtReader as spec;
ghost use Rattle.idl_exprs.specs.Gives.{Reads, pair};
ghost use Rattle.idl_parse.specs.Statements.{close, about_text, function_body};

use crate::stmts::stmts;
use crate::types::{name, shape};
use idl_exprs::{Cursor, Stop, expect, expect_reserved, keep, only, with, word};
use idl_token::{Reserved, Seen, Sign};
use idl_tree::{Argument, Arguments, Body, Function, Functions, Many, Name, Shape};
use std::alloc::Global;

// result ::= [ 'returns' shape ]
#[tactic(auto, unfolding(idl_grammar::specs::StmtReader::result))]
fn result_type(
    alloc: Global,
    tokens: &mut Cursor<'_>,
    depth: u32,
) -> Result<(Option<Shape>, u64), Stop>
    ensures { Reads pair (spec.result depth) tokens.old result tokens.new }
{
    if !tokens.sees_reserved(Reserved::Returns) {
        return Ok((None, 0));
    }
    tokens.skip();
    let (found, nesting) = shape(alloc, tokens, depth)?;
    Ok((Some(found), nesting))
}

// argument ::= shape word
#[tactic(auto, unfolding(idl_grammar::specs::StmtReader::argument))]
fn argument(alloc: Global, tokens: &mut Cursor<'_>, depth: u32) -> Result<(Argument, u64), Stop>
    ensures { Reads pair (spec.argument depth) tokens.old result tokens.new }
{
    let (shape, nesting) = shape(alloc, tokens, depth)?;
    let (shape, name) = keep(shape, name(alloc, tokens))?;
    Ok((Argument { shape, name }, nesting))
}

// argument { ',' argument }
fn argument_list(
    alloc: Global,
    tokens: &mut Cursor<'_>,
    depth: u32,
) -> Result<(Arguments, u64), Stop>
    ensures { Reads pair (o.commas (spec.argument depth)) tokens.old result tokens.new }
{
    let (first, low) = argument(alloc, tokens, depth)?;
    let mut found = only(alloc, first)?;
    let mut nesting = low;
    'rows: while tokens.sees(Sign::Comma) {
        tokens.skip();
        let (all, (next, high)) = keep(found, argument(alloc, tokens, depth))?;
        found = with(all, next)?;
        nesting = nesting.max(high);
    }
    Ok((found, nesting))
}

// arguments ::= [ 'arguments' argument_list ]
#[tactic(auto, unfolding(idl_grammar::specs::StmtReader::taken))]
fn arguments(alloc: Global, tokens: &mut Cursor<'_>, depth: u32) -> Result<(Arguments, u64), Stop>
    ensures { Reads pair (spec.taken depth) tokens.old result tokens.new }
{
    if !tokens.sees_reserved(Reserved::Arguments) {
        return Ok((Many::new(alloc), 0));
    }
    tokens.skip();
    argument_list(alloc, tokens, depth)
}

fn close(tokens: &mut Cursor<'_>) -> Result<(), Stop>
    ensures { Reads (λ _. tt) close tokens.old result tokens.new }
{
    expect(tokens, Sign::CloseBrace)?;
    Ok(())
}

// [ description ] '}'
fn description_text(tokens: &mut Cursor<'_>) -> Result<(), Stop>
    ensures { Reads (λ _. tt) about_text tokens.old result tokens.new }
{
    match tokens.peek() {
        Some(Seen::Described) => {
            tokens.skip();
            close(tokens)
        }
        _ => close(tokens),
    }
}

// description ::= [ 'description' '{' description_text ], which leaves nothing
#[tactic(auto, unfolding(idl_grammar::specs::StmtReader::about))]
fn description(tokens: &mut Cursor<'_>) -> Result<(), Stop>
    ensures { Reads (λ _. tt) spec.about tokens.old result tokens.new }
{
    if !tokens.sees_reserved(Reserved::Description) {
        return Ok(());
    }
    tokens.skip();
    expect(tokens, Sign::OpenBrace)?;
    description_text(tokens)
}

// function_body ::= 'body' '{' stmts '}' '}', after what stands before it, with its nesting
fn function_body(
    alloc: Global,
    tokens: &mut Cursor<'_>,
    depth: u32,
    name: &str,
    gives: (Option<Shape>, u64),
    taken: (Arguments, u64),
) -> Result<(Function, u64), Stop>
    ensures { Reads pair (function_body depth name.now gives taken) tokens.old result tokens.new }
{
    let head = (gives, taken);
    let (head, _) = keep(head, expect_reserved(tokens, Reserved::Body))?;
    let (head, _) = keep(head, expect(tokens, Sign::OpenBrace))?;
    let (head, (statements, inner)) = keep(head, stmts(alloc, tokens, depth))?;
    let (parts, _) = keep((head, statements), expect(tokens, Sign::CloseBrace))?;
    let (parts, _) = keep(parts, expect(tokens, Sign::CloseBrace))?;
    let ((head, statements), name) = keep(parts, Name::of(alloc, name))?;
    let variables = Many::new(alloc);
    let body = Body {
        variables,
        statements,
    };
    let ((result, high), (arguments, low)) = head;
    let found = Function {
        name,
        result,
        arguments,
        body,
    };
    Ok((found, high.max(low.max(inner))))
}

// function ::= 'function' word '{' result arguments description function_body
#[tactic(auto, unfolding(idl_grammar::specs::StmtReader::function))]
fn function(alloc: Global, tokens: &mut Cursor<'_>, depth: u32) -> Result<(Function, u64), Stop>
    ensures { Reads pair (spec.function depth) tokens.old result tokens.new }
{
    expect_reserved(tokens, Reserved::Function)?;
    let name = word(tokens)?;
    expect(tokens, Sign::OpenBrace)?;
    let gives = result_type(alloc, tokens, depth)?;
    let (gives, taken) = keep(gives, arguments(alloc, tokens, depth))?;
    let ((gives, taken), _) = keep((gives, taken), description(tokens))?;
    function_body(alloc, tokens, depth, name, gives, taken)
}

/// Functions, with bodies of nesting at most `depth`, for as long as one begins.
#[tactic(auto, unfolding(idl_grammar::specs::StmtReader::functions))]
pub fn functions(
    alloc: Global,
    tokens: &mut Cursor<'_>,
    depth: u32,
) -> Result<(Functions, u64), Stop>
    ensures { Reads pair (spec.functions depth) tokens.old result tokens.new }
{
    let mut found = Many::new(alloc);
    let mut nesting: u64 = 0;
    'rows: while tokens.sees_reserved(Reserved::Function) {
        let (all, (next, high)) = keep(found, function(alloc, tokens, depth))?;
        found = with(all, next)?;
        nesting = nesting.max(high);
    }
    Ok((found, nesting))
}
