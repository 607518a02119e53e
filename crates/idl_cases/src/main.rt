//! Reads cases of the language, one a line, and prints each with its answer.
//!
//! - `body`, `shown`, `functions` and `shown_functions` with a source: what is printed of it once it
//!   is read, or the fault and the byte at which it stands. What is printed is read and printed
//!   again, and a copy of a `body` is printed too: that one of these differs is told.
//! - `node` with a number and a source: the lines of that node of the body, or `none`.
//! - `width` with the values of MXLEN and N, a scope and a width: the number of the width. A scope
//!   is `-` or names with their bits for 32 and for 64, as `v=12/20,c.F=0/7`.
//!
//! A source stands in its line as `case_text` says. Between two ` :: ` stands a number and a text
//! that is repeated so many times.
#![tactic(auto)]

mod answers;
mod sources;
mod widths;

use answers::{Reader, node_answer, source_answer};
use sources::{shown_line, source_of};
use std::alloc::{AllocError, Global};
use std::io;
use udb_base::Chars;
use widths::width_answer;

fn printed(alloc: Global, reader: Reader, case: &str) -> Result<Chars, AllocError> {
    let source = source_of(alloc, case)?;
    source_answer(alloc, reader, source.as_str())
}

fn answer(alloc: Global, line: &str) -> Result<Chars, AllocError> {
    let (command, case) = line.split_once(' ').unwrap_or((line, ""));
    match command {
        "body" => printed(alloc, Reader::Body, case),
        "shown" => printed(alloc, Reader::Shown, case),
        "functions" => printed(alloc, Reader::Functions, case),
        "shown_functions" => printed(alloc, Reader::ShownFunctions, case),
        "node" => node_answer(alloc, case),
        "width" => width_answer(alloc, case),
        _ => Chars::of(alloc, "no case"),
    }
}

fn main(rt: HostRuntime) -> io::Result<()> {
    for line in rt.lines(rt.alloc()) {
        let line = line?;
        let text = answer(rt.alloc(), line.as_str())?;
        let told = shown_line(rt.alloc(), text.as_str())?;
        println!(rt; "{line}\n    {told}")?;
    }
    Ok(())
}
