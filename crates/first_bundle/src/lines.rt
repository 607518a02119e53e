//! Lines, and the texts that stand in them.

ghost use Rattle.std.specs.Prelude.{◌≡◌, [], drop, slice_index_or, string_bytes, IfOk};
ghost use Rattle.first_bundle.specs.Lines.{split_lines, plain, until};

use std::alloc::Global;
use udb_base::{Many, NoMemory};

/// A line without its line feed.
pub type Line = Many<u8>;

/// The lines of bytes, each ended by a line feed; what follows the last one is left out.
pub fn split(alloc: Global, bytes: &[u8]) -> Result<Many<Line>, NoMemory>
    ensures { IfOk result (λ lines. lines ≡ split_lines bytes.now) }
{
    let mut lines = Many::new(alloc);
    let mut line = Many::new(alloc);
    for byte in bytes {
        if *byte == b'\n' {
            lines.push(line)?;
            line = Many::new(alloc);
        } else {
            line.push(*byte)?;
        }
    }
    Ok(lines)
}

/// The line at a place, empty past the last.
pub fn line_at(lines: &[Line], at: usize) -> &[u8]
    ensures { result.now ≡ slice_index_or lines.now at [] }
{
    match lines.get(at) {
        Some(line) => line.as_slice(),
        None => &[],
    }
}

/// The lines from a place on.
pub fn lines_from(lines: &[Line], at: usize) -> &[Line]
    ensures { result.now ≡ drop at lines.now }
{
    if at < lines.len() { &lines[at..] } else { &[] }
}

/// What follows the first `skip` bytes.
pub fn past(text: &[u8], skip: usize) -> &[u8]
    ensures { result.now ≡ drop skip text.now }
{
    if skip < text.len() {
        &text[skip..]
    } else {
        &[]
    }
}

/// The bytes as text, with `?` for each that isn't ASCII.
pub fn plain_text(alloc: Global, bytes: &[u8]) -> Result<String, NoMemory>
    ensures { IfOk result (λ text. string_bytes text ≡ plain bytes.now) }
{
    let mut text = String::new(alloc);
    for byte in bytes {
        let shown = if *byte < 128 { *byte } else { b'?' };
        text.push(char::from(shown))?;
    }
    Ok(text)
}

/// What stands before a byte; all where the byte isn't there.
pub fn until(text: &[u8], byte: u8) -> &[u8]
    ensures { result.now ≡ until byte text.now }
{
    for (at, other) in text.iter().enumerate() {
        if *other == byte {
            return &text[..at];
        }
    }
    text
}
