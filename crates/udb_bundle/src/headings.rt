//! The headings of parts.

ghost use Rattle.std.specs.Prelude.{◌≡◌, None, Some, MatchOption, IfOk, if◌then◌else◌};
ghost use Rattle.udb_bundle.specs.Reading as reading;

use std::alloc::{AllocError, Global};
use udb_base::{Kind, Name, NameFault, NoMemory, name};

/// What a part is: the entry of a kind, the word for the shipped rows, the image or the proof.
#[derive(Clone, Copy)]
pub enum PartKind {
    Entry(Kind),
    Shipped,
    Image,
    Proof,
}

/// The part that the first word of a heading names.
pub fn part_kind(word: &str) -> Option<PartKind>
    ensures { result ≡ reading.part_kind word.now }
{
    match word {
        "extension" => Some(PartKind::Entry(Kind::Extension)),
        "parameter" => Some(PartKind::Entry(Kind::Parameter)),
        "instruction" => Some(PartKind::Entry(Kind::Instruction)),
        "csr" => Some(PartKind::Entry(Kind::Csr)),
        "functions" => Some(PartKind::Entry(Kind::Functions)),
        "config" => Some(PartKind::Entry(Kind::Config)),
        "shipped" => Some(PartKind::Shipped),
        "image" => Some(PartKind::Image),
        "proof" => Some(PartKind::Proof),
        _ => None,
    }
}

// What stands before the first space, and behind it.
fn cut(text: &str) -> Option<(&str, &str)>
    ensures { MatchOption result (reading.cut text.now ≡ None)
        (λ p. reading.cut text.now ≡ Some (p.0.now, p.1.now)) }
{
    text.split_once(' ')
}

/// The kind, the name and the count of a line `=== kind name count` with single spaces.
pub fn heading_words(line: &str) -> Option<(&str, &str, &str)>
    ensures { MatchOption result (reading.heading_words line.now ≡ None)
        (λ w. reading.heading_words line.now ≡ Some (w.0.now, (w.1.now, w.2.now))) }
{
    let (mark, rest) = cut(line)?;
    if mark != "===" {
        return None;
    }
    let (kind, rest) = cut(rest)?;
    let (name, count) = cut(rest)?;
    Some((kind, name, count))
}

/// The name that a text is, where it is one.
pub fn name_of(alloc: Global, text: &str) -> Result<Option<Name>, NoMemory>
    ensures { IfOk result (λ o. o ≡ (if reading.is_name text.now then Some text.now else None)) }
{
    match name(alloc, text) {
        Ok(name) => Ok(Some(name)),
        Err(NameFault::BadName) => Ok(None),
        Err(NameFault::Memory) => Err(AllocError),
    }
}
