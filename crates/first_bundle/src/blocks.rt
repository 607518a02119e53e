//! The lines of a body as statements, with the blocks that are frames.

ghost use Rattle.std.specs.Prelude.{◌≡◌, ◌++◌, ◌∷◌, [], Some, None, IfOk, OnOk, string_bytes};
ghost use Rattle.std.specs.Option.{option_map};
ghost use Rattle.idl_tree.specs.declared.expressions.Unary.TheVariants.{Not};
ghost use Rattle.idl_tree.specs.declared.expressions.Expr.TheVariants as e;
ghost use Rattle.first_bundle.specs.Blocks.{if_taken, read_switch, switch_or_none, read_test, enter, closed, otherwise};
ghost use Rattle.first_bundle.specs.Blocks as spec;
ghost use Rattle.first_spec.specs.Bundle as bundle;
ghost use Rattle.first_bundle.specs.Statements.{read_statement, assignment_tree};

use crate::lines::{Line, lines_from, past, plain_text, until};
use crate::statements::{assignment_of, begins, tree_of_assignment};
use entry_tree::ParamEntry;
use idl_tree::{Expr, Stmt, Stmts, Unary};
use std::alloc::Global;
use std::mem::replace;
use udb_base::{Boxed, Domain, Many, Name, NoMemory};

/// What an open block belongs to: a bare block, the block of an `if`, or its other block, with the
/// first one.
#[derive(Drop)]
pub enum Opening {
    Bare,
    Taken(Expr),
    Other { test: Expr, taken: Stmts },
}

/// An open block, and the statements before it in the block round it.
#[derive(Drop)]
pub struct Frame {
    pub before: Stmts,
    pub opening: Opening,
}

fn is_flags(domain: &Domain) -> bool
    ensures { result ≡ bundle.is_flags domain.now }
{
    matches!(domain, Domain::Flags)
}

/// Whether the parameter of a name is Boolean.
pub fn is_switch_name(params: &[ParamEntry], name: &[u8]) -> bool
    ensures { result ≡ bundle.is_switch_name params.now name.now }
{
    for param in params {
        if param.name.as_str().as_bytes() == name {
            return is_flags(&param.domain);
        }
    }
    false
}

// The name of a Boolean parameter at the front of a text, up to a parenthesis.
fn switch_of(alloc: Global, params: &[ParamEntry], text: &[u8]) -> Result<Option<Name>, NoMemory>
    ensures { IfOk result (λ name. name ≡ read_switch params.now text.now) }
{
    let name = plain_text(alloc, until(text, b')'))?;
    if is_switch_name(params, name.as_bytes()) {
        return Ok(Some(Name::of(alloc, name.as_str())?));
    }
    Ok(None)
}

fn negation(alloc: Global, name: Name) -> Result<Expr, NoMemory>
    ensures { IfOk result (λ test. test ≡ e.Unary Not (e.Word name)) }
{
    Ok(Expr::Unary {
        sign: Unary::Not,
        of: Boxed::new(alloc, Expr::Word(name))?,
    })
}

fn negated_test(alloc: Global, params: &[ParamEntry], text: &[u8]) -> Result<Option<Expr>, NoMemory>
    ensures { IfOk result (λ test.
        test ≡ option_map (λ name. e.Unary Not (e.Word name)) (read_switch params.now text.now)) }
{
    match switch_of(alloc, params, text)? {
        None => Ok(None),
        Some(name) => Ok(Some(negation(alloc, name)?)),
    }
}

fn plain_test(alloc: Global, params: &[ParamEntry], text: &[u8]) -> Result<Option<Expr>, NoMemory>
    ensures { IfOk result (λ test.
        test ≡ option_map (λ name. e.Word name) (read_switch params.now text.now)) }
{
    match switch_of(alloc, params, text)? {
        None => Ok(None),
        Some(name) => Ok(Some(Expr::Word(name))),
    }
}

// The test at the front of a text, up to a parenthesis.
fn test_of(alloc: Global, params: &[ParamEntry], text: &[u8]) -> Result<Option<Expr>, NoMemory>
    ensures { IfOk result (λ test. test ≡ read_test params.now text.now) }
{
    if begins(text, b"!") {
        negated_test(alloc, params, past(text, 1))
    } else {
        plain_test(alloc, params, text)
    }
}

// A block begins.
fn enter(
    alloc: Global,
    frames: &mut Vec<Frame>,
    done: &mut Stmts,
    opening: Opening,
) -> Result<(), NoMemory>
    ensures { OnOk result
        ((frames.new.items, done.new) ≡ enter opening (frames.old.items, done.old)) }
{
    let before = replace(done, Many::new(alloc));
    frames.insert(0, Frame { before, opening })?;
    Ok(())
}

// The statement that a block ends.
fn closed(opening: Opening, inner: Stmts) -> Stmt
    ensures { result ≡ closed opening inner }
{
    match opening {
        Opening::Bare => Stmt::Block(inner),
        Opening::Taken(test) => Stmt::If {
            test,
            yes: inner,
            no: None,
        },
        Opening::Other { test, taken } => Stmt::If {
            test,
            yes: taken,
            no: Some(inner),
        },
    }
}

// The block that is open ends, where there is one.
fn close(frames: &mut Vec<Frame>, done: &mut Stmts) -> Result<bool, NoMemory>
    ensures { IfOk result (λ taken.
        spec.close (frames.old.items, done.old) ≡ if_taken taken (frames.new.items, done.new)) }
{
    if frames.is_empty() {
        return Ok(false);
    }
    let Frame { before, opening } = frames.remove(0);
    let inner = replace(done, before);
    done.push(closed(opening, inner))?;
    Ok(true)
}

// No block begins, and two values go.
fn no_opening<A: Drop, B: Drop>(_first: A, _second: B) -> Option<Opening>
    ensures { result ≡ None }
{
    None
}

fn otherwise(opening: Opening, inner: Stmts) -> Option<Opening>
    ensures { result ≡ otherwise opening inner }
{
    match opening {
        Opening::Taken(test) => Some(Opening::Other { test, taken: inner }),
        other => no_opening(other, inner),
    }
}

// The block of an `if` that is open ends, and its other block begins.
fn turn(alloc: Global, frames: &mut Vec<Frame>, done: &mut Stmts) -> Result<bool, NoMemory>
    ensures { IfOk result (λ taken.
        spec.turn (frames.old.items, done.old) ≡ if_taken taken (frames.new.items, done.new)) }
{
    if frames.is_empty() {
        return Ok(false);
    }
    let Frame { before, opening } = frames.remove(0);
    let inner = replace(done, before);
    match otherwise(opening, inner) {
        None => Ok(false),
        Some(other) => {
            enter(alloc, frames, done, other)?;
            Ok(true)
        }
    }
}

fn begin_if(
    alloc: Global,
    params: &[ParamEntry],
    frames: &mut Vec<Frame>,
    done: &mut Stmts,
    text: &[u8],
) -> Result<bool, NoMemory>
    ensures { IfOk result (λ taken.
        option_map (λ test. enter (Opening.Taken test) (frames.old.items, done.old))
        (read_test params.now text.now)
        ≡ if_taken taken (frames.new.items, done.new)) }
{
    match test_of(alloc, params, text)? {
        None => Ok(false),
        Some(test) => {
            enter(alloc, frames, done, Opening::Taken(test))?;
            Ok(true)
        }
    }
}

fn assign(alloc: Global, done: &mut Stmts, text: &[u8]) -> Result<bool, NoMemory>
    ensures { IfOk result (λ taken.
        option_map (λ a. done.old ++ assignment_tree a ∷ []) (read_statement text.now)
        ≡ if_taken taken done.new) }
{
    match assignment_of(text) {
        None => Ok(false),
        Some(assignment) => {
            done.push(tree_of_assignment(alloc, assignment)?)?;
            Ok(true)
        }
    }
}

// A statement begins.
fn begin(
    alloc: Global,
    params: &[ParamEntry],
    frames: &mut Vec<Frame>,
    done: &mut Stmts,
    text: &[u8],
) -> Result<bool, NoMemory>
    ensures { IfOk result (λ taken.
        spec.begin params.now (frames.old.items, done.old) text.now
        ≡ if_taken taken (frames.new.items, done.new)) }
{
    if begins(text, b"{") {
        enter(alloc, frames, done, Opening::Bare)?;
        return Ok(true);
    }
    if begins(text, b"if (") {
        return begin_if(alloc, params, frames, done, past(text, 4));
    }
    assign(alloc, done, text)
}

fn end(
    alloc: Global,
    frames: &mut Vec<Frame>,
    done: &mut Stmts,
    text: &[u8],
) -> Result<bool, NoMemory>
    ensures { IfOk result (λ taken.
        spec.end (frames.old.items, done.old) text.now
        ≡ if_taken taken (frames.new.items, done.new)) }
{
    if begins(text, b"} else {") {
        turn(alloc, frames, done)
    } else {
        close(frames, done)
    }
}

// A line of a body; false where it is none.
fn step(
    alloc: Global,
    params: &[ParamEntry],
    frames: &mut Vec<Frame>,
    done: &mut Stmts,
    line: &[u8],
) -> Result<bool, NoMemory>
    ensures { IfOk result (λ taken.
        spec.step params.now (frames.old.items, done.old) line.now
        ≡ if_taken taken (frames.new.items, done.new)) }
{
    let text = past(line, 2 * frames.len());
    if begins(text, b"}") {
        return end(alloc, frames, done, text);
    }
    if frames.len() <= 8 {
        return begin(alloc, params, frames, done, past(text, 2));
    }
    Ok(false)
}

/// The statements of the lines at the front that begin with two spaces, and the lines after them.
pub fn body<'a>(
    alloc: Global,
    params: &[ParamEntry],
    lines: &'a [Line],
) -> Result<Option<(Stmts, &'a [Line])>, NoMemory>
    ensures { IfOk result (λ o.
        option_map (λ r. (r.0, r.1.now)) o ≡ spec.read_body params.now lines.now) }
{
    let mut frames = Vec::new(alloc);
    let mut done = Many::new(alloc);
    for (at, line) in lines.iter().enumerate() {
        let text = line.as_slice();
        if !begins(text, b"  ") {
            return Ok(finished(frames.as_slice(), done, lines_from(lines, at)));
        }
        if !step(alloc, params, &mut frames, &mut done, text)? {
            return Ok(None);
        }
    }
    Ok(finished(frames.as_slice(), done, &[]))
}

fn finished<'a>(frames: &[Frame], done: Stmts, rest: &'a [Line]) -> Option<(Stmts, &'a [Line])>
    ensures { option_map (λ r. (r.0, r.1.now)) result ≡ spec.finish (frames.now, done) rest.now }
{
    if frames.is_empty() {
        Some((done, rest))
    } else {
        None
    }
}
