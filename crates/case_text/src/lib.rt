//! Texts of cases: how a text of any characters stands in one line.
#![tactic(auto)]

use std::alloc::{AllocError, Global};

fn character_of(letter: char) -> char {
    match letter {
        'n' => '\n',
        'r' => '\r',
        't' => '\t',
        '0' => '\0',
        other => other,
    }
}

/// The text that a line stands for: `\n`, `\r`, `\t` and `\0` are a line feed, a carriage return,
/// a tab and a zero byte, and `\` before any other character is that character.
pub fn text_of(alloc: Global, line: &str) -> Result<String, AllocError> {
    let mut text = String::new(alloc);
    let mut escaped = false;
    for letter in line.chars() {
        if escaped {
            text.push(character_of(letter))?;
            escaped = false;
        } else if letter == '\\' {
            escaped = true;
        } else {
            text.push(letter)?;
        }
    }
    Ok(text)
}

/// A line that stands for a text.
pub fn line_of(alloc: Global, text: &str) -> Result<String, AllocError> {
    let mut line = String::new(alloc);
    for letter in text.chars() {
        match letter {
            '\n' => line.push_str("\\n")?,
            '\r' => line.push_str("\\r")?,
            '\t' => line.push_str("\\t")?,
            '\0' => line.push_str("\\0")?,
            '\\' => line.push_str("\\\\")?,
            other => line.push(other)?,
        }
    }
    Ok(line)
}
