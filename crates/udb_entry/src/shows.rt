//! The lines that show what a text or its tree lacks.

ghost use Rattle.std.specs.Prelude.{◌≡◌, ◌∷◌, [], None, Some, IfOk};
ghost use Rattle.udb_entry.specs.Rules as rules;
ghost use Rattle.udb_entry.specs.First as spec;

use crate::rules::one_line;
use std::alloc::Global;
use udb_base::{Chars, Lines, Many, NoMemory};
use udb_schema::Word;
use yaml_spec::Mark;

fn mark_word(mark: Mark) -> &'static str
    ensures { result.now ≡ spec.mark_word mark }
{
    match mark {
        Mark::Anchor => "anchor",
        Mark::Alias => "alias",
        Mark::Tag => "tag",
        Mark::Document => "document",
        Mark::Directive => "directive",
    }
}

/// The line at which a text spells no tree.
pub fn bad_line(alloc: Global, line: u32) -> Result<Lines, NoMemory>
    ensures { IfOk result (λ lines. lines ≡ rules.one_line (spec.fault_line line None)) }
{
    let text = format!(in alloc; "line {line}")?;
    one_line(alloc, text.as_str())
}

/// The same, with what stands there that the profile leaves out.
pub fn outside_line(alloc: Global, line: u32, mark: Mark) -> Result<Lines, NoMemory>
    ensures { IfOk result (λ lines. lines ≡ rules.one_line (spec.fault_line line (Some mark))) }
{
    let word = mark_word(mark);
    let text = format!(in alloc; "line {line} {word}")?;
    one_line(alloc, text.as_str())
}

fn word_text(word: Word) -> &'static str
    ensures { result.now ≡ spec.word_text word }
{
    match word {
        Word::Type => "type",
        Word::Enum => "enum",
        Word::Const => "const",
        Word::Minimum => "minimum",
        Word::Maximum => "maximum",
        Word::MinLength => "minLength",
        Word::MinItems => "minItems",
        Word::MaxItems => "maxItems",
        Word::UniqueItems => "uniqueItems",
        Word::MinProperties => "minProperties",
        Word::MaxProperties => "maxProperties",
        Word::Required => "required",
        Word::AdditionalProperties => "additionalProperties",
        Word::Properties => "properties",
        Word::Items => "items",
        Word::AllOf => "allOf",
        Word::AnyOf => "anyOf",
        Word::OneOf => "oneOf",
        Word::Not => "not",
    }
}

/// A place of a tree, and the word that fails there.
pub fn place_lines(alloc: Global, path: Chars, word: Word) -> Result<Lines, NoMemory>
    ensures { IfOk result (λ lines. lines ≡ path ∷ spec.word_text word ∷ []) }
{
    let word = Chars::of(alloc, word_text(word))?;
    let mut lines = Many::new(alloc);
    lines.push(path)?;
    lines.push(word)?;
    Ok(lines)
}
