//! Sources and answers as lines.

use case_text::{line_of, text_of};
use std::alloc::{AllocError, Global};

/// A longer answer is told by its beginning and its length.
const LONGEST_ANSWER: usize = 400;

const BEGINNING: usize = 60;

fn push_repeated(alloc: Global, source: &mut String, piece: &str) -> Result<(), AllocError> {
    let (count, part) = piece.split_once(' ').unwrap_or(("1", piece));
    let times = count.parse::<u32>().unwrap_or(0);
    let text = text_of(alloc, part)?;
    for _ in 0..times {
        source.push_str(text.as_str())?;
    }
    Ok(())
}

/// The source of a case: every second piece between ` :: ` is repeated.
pub fn source_of(alloc: Global, case: &str) -> Result<String, AllocError> {
    let mut source = String::new(alloc);
    let mut is_repeated = false;
    for piece in case.split(" :: ") {
        if is_repeated {
            push_repeated(alloc, &mut source, piece)?;
        } else {
            let text = text_of(alloc, piece)?;
            source.push_str(text.as_str())?;
        }
        is_repeated = !is_repeated;
    }
    Ok(source)
}

fn beginning(alloc: Global, text: &str) -> Result<String, AllocError> {
    let mut front = String::new(alloc);
    for letter in text.chars().take(BEGINNING) {
        front.push(letter)?;
    }
    let line = line_of(alloc, front.as_str())?;
    let length = text.len();
    format!(in alloc; "{line} .. {length} bytes")
}

/// The line that stands for an answer.
pub fn shown_line(alloc: Global, text: &str) -> Result<String, AllocError> {
    if text.len() > LONGEST_ANSWER {
        return beginning(alloc, text);
    }
    line_of(alloc, text)
}
