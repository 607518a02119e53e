//! Lines of text.

ghost use Rattle.std.specs.Prelude.{◌≡◌, IfOk};
ghost use Rattle.udb_base.specs.Lines.{text_of_lines};

use crate::characters::Chars;
use crate::{Many, NoMemory};
use std::alloc::Global;

/// Lines of text, without the line feeds that end them.
pub type Lines = Many<Chars>;

/// The text of lines: each is ended by a line feed, the last one too. The one refusal is want of
/// memory.
pub fn text_of_lines(alloc: Global, lines: &[Chars]) -> Result<Chars, NoMemory>
    ensures { IfOk result (λ text. text ≡ text_of_lines lines.now) }
{
    let mut text = Chars::new(alloc);
    for line in lines {
        text.push_str(line.as_str())?;
        text.push_str("\n")?;
    }
    Ok(text)
}
