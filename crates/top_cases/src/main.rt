//! Reads cases, one a line, and prints each with the status of the run, what it wrote on the output
//! and on the output for errors, each in one line, `-` for nothing, and how many bytes the input
//! still has and how many of its reads failed.
//!
//! A case is the words, then what is special about its objects, then pieces of the bundle below,
//! each with what replaces it; all with ` :: ` between them. Special is that `read N`, `write N`
//! or `refusal N`, the N-th call of the input, of the output or of the output for errors, fails,
//! or that the input is `bytes N`, so many bytes `x`; or `text`, and then the input follows in one
//! piece; or nothing, written `-`.
#![tactic(auto)]

use case_text::{line_of, text_of};
use std::alloc::{AllocError, Global};
use std::{io, str};
use udb_base::{MemorySink, MemorySource, Source};
use udb_top::run;

const BUNDLE: &str =
    "=== parameter A 6\nkind: parameter\nname: A\nlong_name: First\ndescription: A switch\nschema:\n  type: boolean\n=== parameter MXLEN 7\nkind: parameter\nname: MXLEN\nlong_name: Width\ndescription: Always 32\nschema:\n  type: integer\n  enum: [32]\n=== instruction t 14\nkind: instruction\nname: t\nlong_name: Test\ndescription: One body\nassembly: \"\"\nencoding:\n  match: -------------------------1111011\noperation(): |\n  if (A) {\n    if (!A) {\n      X[1] = 32'd1;\n    }\n    X[2] = X[1] + 32'd2;\n  }\n=== config c 4\nkind: architecture configuration\nname: c\ntype: unconfigured\ndescription: Nothing given\n";

fn words_of(alloc: Global, field: &str) -> Result<Vec<String>, AllocError> {
    let mut words = Vec::new(alloc);
    for word in field.split(' ') {
        words.push(String::from_str(alloc, word)?)?;
    }
    Ok(words)
}

// The number behind a word, or 0.
fn number_after(field: &str, word: &str) -> u64 {
    match field.strip_prefix(word) {
        Some(digits) => digits.parse::<u64>().unwrap_or(0),
        None => 0,
    }
}

fn bundle_of(alloc: Global, pieces: &[&str]) -> Result<String, AllocError> {
    let mut text = String::from_str(alloc, BUNDLE)?;
    for pair in pieces.chunks(2) {
        if let [piece, new] = pair {
            let piece = text_of(alloc, piece)?;
            let new = text_of(alloc, new)?;
            text = text.replace(alloc, piece.as_str(), new.as_str())?;
        }
    }
    Ok(text)
}

fn input_of(alloc: Global, special: &str, pieces: &[&str]) -> Result<Vec<u8>, AllocError> {
    if special.starts_with("bytes ") {
        return vec![in alloc; b'x'; number_after(special, "bytes ") as usize];
    }
    let text = if special == "text" {
        text_of(alloc, pieces.first().copied().unwrap_or(""))?
    } else {
        bundle_of(alloc, pieces)?
    };
    Vec::from_slice(alloc, text.as_bytes())
}

fn line_of_bytes(alloc: Global, bytes: &[u8]) -> Result<String, AllocError> {
    if bytes.is_empty() {
        return "-".to_string(alloc);
    }
    match str::from_utf8(bytes) {
        Ok(text) => line_of(alloc, text),
        Err(_) => "no text".to_string(alloc),
    }
}

// How many bytes a source still gives, past reads that fail.
fn bytes_left(input: &mut MemorySource) -> usize {
    let mut buffer = [0; 4096];
    let mut left: usize = 0;
    for _turn in 0..8192 {
        match input.read(&mut buffer) {
            Ok(0) => return left,
            Ok(count) => left = left.saturating_add(count),
            Err(_) => {}
        }
    }
    left
}

fn answer(
    alloc: Global,
    words: &str,
    special: &str,
    pieces: &[&str],
) -> Result<String, AllocError> {
    let words = words_of(alloc, words)?;
    let input = input_of(alloc, special, pieces)?;
    let failed_read = number_after(special, "read ");
    let mut input = MemorySource::new(alloc, input.as_slice(), &[failed_read])?;
    let mut out = MemorySink::new(alloc, 4096, &[number_after(special, "write ")])?;
    let mut err = MemorySink::new(alloc, 4096, &[number_after(special, "refusal ")])?;
    let status = run(alloc, words.as_slice(), &mut input, &mut out, &mut err);
    let printed = line_of_bytes(alloc, out.written())?;
    let refused = line_of_bytes(alloc, err.written())?;
    let failed = input.faults();
    let left = bytes_left(&mut input);
    format!(in alloc;
        "    {status}\n    {printed}\n    {refused}\n    {left} left, {failed} failed"
    )
}

fn main(rt: HostRuntime) -> io::Result<()> {
    for line in rt.lines(rt.alloc()) {
        let line = line?;
        let fields: Vec<&str> = line.as_str().split(" :: ").collect(rt.alloc())?;
        let told = match fields.as_slice() {
            [words, special, pieces @ ..] => answer(rt.alloc(), words, special, pieces)?,
            _ => "    no case".to_string(rt.alloc())?,
        };
        println!(rt; "{line}\n{told}")?;
    }
    Ok(())
}
