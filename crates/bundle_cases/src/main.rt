//! Reads cases, one a line, and prints each with what `read_bundle` answers for it.
//!
//! - `bundle TEXT`: the text, in which `\n` is a line feed.
//! - `bytes TEXT`: the same, but each character up to U+00FF is one byte of that number.
//! - `built N TEXT|MORE`: the text, and N times more.
//! - `rows N`: N rows without lines, whose names are different.
//!
//! The answer is the line of the fault, or how many rows, words and lines of a proof the bundle has,
//! whether the word for the shipped rows stood there, and its first rows, words and lines.
#![tactic(auto)]

use case_text::{line_of, text_of};
use std::alloc::{AllocError, Global};
use std::io;
use udb_base::Row;
use udb_bundle::{Bundle, BundleFault, read_bundle};

/// No input is built of more pieces.
const MOST: usize = 17_000_000;

/// So many rows, words and lines are told.
const TOLD: usize = 3;

fn row_told(alloc: Global, row: &Row) -> Result<String, AllocError> {
    let text = row.text.as_str();
    if text.len() > 40 {
        let kind = row.kind;
        return format!(in alloc; " [{kind:?} {}: {} bytes]", row.name.as_str(), text.len());
    }
    let line = line_of(alloc, text)?;
    let kind = row.kind;
    format!(in alloc; " [{kind:?} {}: {line}]", row.name.as_str())
}

fn bundle_told(alloc: Global, bundle: &Bundle) -> Result<String, AllocError> {
    let rows = bundle.rows.as_slice();
    let words = bundle.image.as_slice();
    let lines = bundle.proof.as_slice();
    let ships = if bundle.shipped { " shipped" } else { "" };
    let mut told = format!(in alloc;
        "ok rows {} words {} lines {}{ships}",
        rows.len(),
        words.len(),
        lines.len()
    )?;
    for row in rows.iter().take(TOLD) {
        told.push_str(row_told(alloc, row)?.as_str())?;
    }
    for word in words.iter().take(TOLD) {
        told.push_str(format!(in alloc; " {word}")?.as_str())?;
    }
    for line in lines.iter().take(TOLD) {
        told.push_str(format!(in alloc; " <{}>", line.as_str())?.as_str())?;
    }
    Ok(told)
}

fn answer(alloc: Global, bytes: &[u8]) -> Result<String, AllocError> {
    match read_bundle(alloc, bytes) {
        Ok(bundle) => bundle_told(alloc, &bundle),
        Err(BundleFault::Line { number }) => format!(in alloc; "line {number}"),
        Err(BundleFault::Memory) => "out of memory".to_string(alloc),
    }
}

fn bytes_of(alloc: Global, text: &str) -> Result<Vec<u8>, AllocError> {
    let mut bytes = Vec::new(alloc);
    for letter in text.chars() {
        bytes.push(u8::try_from(u32::from(letter)).unwrap_or(b'?'))?;
    }
    Ok(bytes)
}

fn number(word: &str) -> usize {
    word.parse::<usize>().unwrap_or(0).min(MOST)
}

// `TEXT|MORE` with so many times more.
fn built(alloc: Global, count: usize, pattern: &str) -> Result<String, AllocError> {
    let (text, more) = pattern.split_once('|').unwrap_or((pattern, ""));
    let mut all = text_of(alloc, text)?;
    let more = text_of(alloc, more)?;
    for _ in 0..count {
        all.push_str(more.as_str())?;
    }
    Ok(all)
}

fn rows(alloc: Global, count: usize) -> Result<String, AllocError> {
    let mut all = String::new(alloc);
    for row in 0..count {
        let heading = format!(in alloc; "=== extension row{row} 0\n")?;
        all.push_str(heading.as_str())?;
    }
    Ok(all)
}

fn case(alloc: Global, line: &str) -> Result<String, AllocError> {
    match line.split_once(' ') {
        Some(("bundle", text)) => answer(alloc, text_of(alloc, text)?.as_bytes()),
        Some(("bytes", text)) => {
            let text = text_of(alloc, text)?;
            answer(alloc, bytes_of(alloc, text.as_str())?.as_slice())
        }
        Some(("built", rest)) => {
            let (count, pattern) = rest.split_once(' ').unwrap_or((rest, ""));
            answer(alloc, built(alloc, number(count), pattern)?.as_bytes())
        }
        Some(("rows", count)) => answer(alloc, rows(alloc, number(count))?.as_bytes()),
        _ => "no case".to_string(alloc),
    }
}

fn main(rt: HostRuntime) -> io::Result<()> {
    for line in rt.lines(rt.alloc()) {
        let line = line?;
        let told = case(rt.alloc(), line.as_str())?;
        println!(rt; "{line}\n    {told}")?;
    }
    Ok(())
}
