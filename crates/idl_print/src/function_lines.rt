//! The text of functions.

ghost use Rattle.std.specs.Prelude.{◌≡◌, ◌++◌, ◌∷◌, [], IfOk, OnOk};
ghost use Rattle.std.specs.List.{flat_map};
ghost use Rattle.udb_base.specs.Lines.{text_of_lines};
ghost use Rattle.idl_tree.specs.PrintFunctions.{header_text, argument_text, arguments_text, returns_lines, arguments_lines, block_lines, function_lines, functions_text};

use crate::expression_text::separator;
use crate::statement_lines::push_body;
use crate::width_text::push_shape;
use idl_tree::{Argument, Body, Function, Shape};
use std::alloc::Global;
use udb_base::{Chars, Lines, Many, Name, NoMemory, text_of_lines};

fn push_text(alloc: Global, out: &mut Lines, text: &str) -> Result<(), NoMemory>
    ensures { OnOk result (out.new ≡ out.old ++ text.now ∷ []) }
{
    let line = Chars::of(alloc, text)?;
    out.push(line)
}

fn push_header(alloc: Global, out: &mut Lines, name: &Name) -> Result<(), NoMemory>
    ensures { OnOk result (out.new ≡ out.old ++ header_text name.now ∷ []) }
{
    let mut line = Chars::of(alloc, "function ")?;
    line.push_str(name.as_str())?;
    line.push_str(" {")?;
    out.push(line)
}

#[tactic(auto, using(idl_tree::proofs::FunctionLemmas::returns_forms))]
fn push_returns(alloc: Global, out: &mut Lines, given: &Option<Shape>) -> Result<(), NoMemory>
    ensures { OnOk result (out.new ≡ out.old ++ returns_lines given.now) }
{
    match given {
        None => Ok(()),
        Some(shape) => {
            let mut line = Chars::of(alloc, "  returns ")?;
            push_shape(alloc, &mut line, shape)?;
            out.push(line)
        }
    }
}

#[tactic(auto, using(idl_tree::proofs::FunctionLemmas::argument_forms))]
fn push_argument(alloc: Global, out: &mut Chars, argument: &Argument) -> Result<(), NoMemory>
    ensures { OnOk result (out.new ≡ out.old ++ argument_text argument.now) }
{
    push_shape(alloc, out, &argument.shape)?;
    out.push_str(" ")?;
    out.push_str(argument.name.as_str())
}

#[tactic(auto, using(idl_tree::proofs::FunctionLemmas::argument_steps))]
fn push_argument_list(alloc: Global, out: &mut Chars, all: &[Argument]) -> Result<(), NoMemory>
    ensures { OnOk result (out.new ≡ out.old ++ arguments_text all.now) }
{
    for (place, next) in all.iter().enumerate() {
        out.push_str(separator(place))?;
        push_argument(alloc, out, next)?;
    }
    Ok(())
}

fn push_argument_line(
    alloc: Global,
    out: &mut Lines,
    before: &str,
    all: &[Argument],
) -> Result<(), NoMemory>
    ensures { OnOk result (out.new ≡ out.old ++ (before.now ++ arguments_text all.now) ∷ []) }
{
    let mut line = Chars::of(alloc, before)?;
    push_argument_list(alloc, &mut line, all)?;
    out.push(line)
}

#[tactic(auto, using(idl_tree::proofs::FunctionLemmas::arguments_forms))]
fn push_arguments(alloc: Global, out: &mut Lines, all: &[Argument]) -> Result<(), NoMemory>
    ensures { OnOk result (out.new ≡ out.old ++ arguments_lines all.now) }
{
    if all.is_empty() {
        return Ok(());
    }
    push_argument_line(alloc, out, "  arguments ", all)
}

#[tactic(auto, using(idl_tree::proofs::FunctionLemmas::block_forms))]
fn push_block(alloc: Global, out: &mut Lines, body: &Body) -> Result<(), NoMemory>
    ensures { OnOk result (out.new ≡ out.old ++ block_lines body.now) }
{
    push_text(alloc, out, "  body {")?;
    push_body(alloc, out, "    ", body)?;
    push_text(alloc, out, "  }")?;
    push_text(alloc, out, "}")
}

#[tactic(auto, using(idl_tree::proofs::FunctionLemmas::function_forms))]
fn push_function(alloc: Global, out: &mut Lines, function: &Function) -> Result<(), NoMemory>
    ensures { OnOk result (out.new ≡ out.old ++ function_lines function.now) }
{
    push_header(alloc, out, &function.name)?;
    push_returns(alloc, out, &function.result)?;
    push_arguments(alloc, out, function.arguments.as_slice())?;
    push_block(alloc, out, &function.body)
}

#[tactic(auto, using(idl_tree::proofs::FunctionLemmas::more_functions))]
fn all_lines(alloc: Global, all: &[Function]) -> Result<Lines, NoMemory>
    ensures { IfOk result (λ lines. lines ≡ flat_map function_lines all.now) }
{
    let mut lines = Many::new(alloc);
    for next in all {
        push_function(alloc, &mut lines, next)?;
    }
    Ok(lines)
}

/// The printed text of functions, each with its header, its result's type and its arguments where it
/// has any, and its body two levels in; nothing stands between two functions. Descriptions that a
/// source gave are no part of the tree and aren't printed. The one refusal is want of memory.
pub fn print_functions(alloc: Global, functions: &[Function]) -> Result<Chars, NoMemory>
    ensures { IfOk result (λ text. text ≡ functions_text functions.now) }
{
    let lines = all_lines(alloc, functions)?;
    text_of_lines(alloc, lines.as_slice())
}
