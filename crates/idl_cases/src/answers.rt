//! What is printed of sources, or the fault and its place.

use idl_copy::copy_statements;
use idl_parse::{ParseFault, parse_body, parse_functions, parse_shown, parse_shown_functions};
use idl_print::{print_body, print_functions, print_node};
use idl_tree::{Body, Function, Functions};
use std::alloc::Global;
use udb_base::{Chars, Many, NoMemory, text_of_lines};

/// No source is longer.
const LONGEST: usize = 16_777_216;

/// How a source is read.
#[derive(Clone, Copy)]
pub enum Reader {
    Body,
    Shown,
    Functions,
    ShownFunctions,
}

// The text of a tree, or why there is none.
#[derive(Drop)]
enum Reading {
    Text(Chars),
    Refusal(Chars),
}

fn refusal(alloc: Global, fault: ParseFault) -> Result<Chars, NoMemory> {
    let text = match fault {
        ParseFault::Memory => format!(in alloc; "no memory")?,
        ParseFault::BadToken { at } => format!(in alloc; "bad token at {at}")?,
        ParseFault::Unexpected { at } => format!(in alloc; "unexpected at {at}")?,
        ParseFault::TooDeep { at } => format!(in alloc; "too deep at {at}")?,
    };
    Ok(Chars::from_string(text))
}

// Whether a copy prints the same.
fn copy_prints(alloc: Global, body: &Body, text: &str) -> Result<bool, NoMemory> {
    let statements = copy_statements(alloc, body.statements.as_slice())?;
    let variables = Many::new(alloc);
    let copy = Body {
        variables,
        statements,
    };
    let printed = print_body(alloc, &copy)?;
    Ok(printed.as_str() == text)
}

fn body_text(alloc: Global, body: &Body) -> Result<Reading, NoMemory> {
    Ok(Reading::Text(print_body(alloc, body)?))
}

fn text_with_copy(alloc: Global, body: &Body) -> Result<Reading, NoMemory> {
    let text = print_body(alloc, body)?;
    if copy_prints(alloc, body, text.as_str())? {
        return Ok(Reading::Text(text));
    }
    Ok(Reading::Refusal(Chars::of(alloc, "copy differs")?))
}

fn functions_text(alloc: Global, functions: &[Function]) -> Result<Reading, NoMemory> {
    Ok(Reading::Text(print_functions(alloc, functions)?))
}

// A written body nests at most 64 levels, and is copied; a shown one nests deeper, and isn't.
fn written_body(alloc: Global, read: Result<Body, ParseFault>) -> Result<Reading, NoMemory> {
    match read {
        Ok(body) => text_with_copy(alloc, &body),
        Err(fault) => Ok(Reading::Refusal(refusal(alloc, fault)?)),
    }
}

fn shown_body(alloc: Global, read: Result<Body, ParseFault>) -> Result<Reading, NoMemory> {
    match read {
        Ok(body) => body_text(alloc, &body),
        Err(fault) => Ok(Reading::Refusal(refusal(alloc, fault)?)),
    }
}

fn read_functions(alloc: Global, read: Result<Functions, ParseFault>) -> Result<Reading, NoMemory> {
    match read {
        Ok(functions) => functions_text(alloc, functions.as_slice()),
        Err(fault) => Ok(Reading::Refusal(refusal(alloc, fault)?)),
    }
}

fn read_source(alloc: Global, reader: Reader, source: &str) -> Result<Reading, NoMemory> {
    if source.len() > LONGEST {
        return Ok(Reading::Refusal(Chars::of(alloc, "too long")?));
    }
    match reader {
        Reader::Body => written_body(alloc, parse_body(alloc, source)),
        Reader::Shown => shown_body(alloc, parse_shown(alloc, source)),
        Reader::Functions => read_functions(alloc, parse_functions(alloc, source)),
        Reader::ShownFunctions => read_functions(alloc, parse_shown_functions(alloc, source)),
    }
}

fn reads_as(alloc: Global, reader: Reader, source: &str, text: &str) -> Result<bool, NoMemory> {
    match read_source(alloc, reader, source)? {
        Reading::Text(again) => Ok(again.as_str() == text),
        Reading::Refusal(_) => Ok(false),
    }
}

/// What is printed of a source, which is read and printed again.
pub fn source_answer(alloc: Global, reader: Reader, source: &str) -> Result<Chars, NoMemory> {
    match read_source(alloc, reader, source)? {
        Reading::Refusal(text) => Ok(text),
        Reading::Text(text) => {
            if reads_as(alloc, reader, text.as_str(), text.as_str())? {
                return Ok(text);
            }
            Chars::of(alloc, "again differs")
        }
    }
}

fn node_text(alloc: Global, body: &Body, node: u32) -> Result<Chars, NoMemory> {
    match print_node(alloc, body, node)? {
        Some(lines) => text_of_lines(alloc, lines.as_slice()),
        None => Chars::of(alloc, "none"),
    }
}

/// The lines of a node: its number and the source of the body.
pub fn node_answer(alloc: Global, case: &str) -> Result<Chars, NoMemory> {
    let (number, source) = case.split_once(' ').unwrap_or((case, ""));
    let node = number.parse::<u32>().unwrap_or(0);
    if source.len() > LONGEST {
        return Chars::of(alloc, "too long");
    }
    match parse_body(alloc, source) {
        Ok(body) => node_text(alloc, &body, node),
        Err(fault) => refusal(alloc, fault),
    }
}
