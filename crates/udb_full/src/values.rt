//! Choices and values, read from their texts.

ghost use Rattle.std.specs.Prelude.{Contains, IfOk};
ghost use Rattle.std.specs.Fmt.{decimal};
ghost use Rattle.udb_spec.specs.Versions.{IsListed};
ghost use Rattle.udb_spec.specs.Spaces.{InDomain};
ghost use Rattle.udb_spec.specs.ProofText.{json_text, value_text, version_text};
ghost use Rattle.udb_full.specs.Found.{IsFound, IsShort};

use crate::printing::{json_text, text_of_version};
use std::alloc::Global;
use udb_base::{Chars, Copied, Domain, Listed, NoMemory, Value, Version, number_of_text};

/// The listed version that a text is.
pub(crate) fn version_of_text(
    alloc: Global,
    versions: &[Listed],
    text: &[u8],
) -> Result<Option<Version>, NoMemory>
    ensures { IfOk result (IsFound (IsListed versions.now) version_text text.now) }
{
    let mut found = None;
    for listed in versions {
        let printed = text_of_version(alloc, listed.version)?;
        if printed.as_bytes() == text {
            found = Some(listed.version);
        }
    }
    Ok(found)
}

// The number of 64 bits that a text is, which no other number has.
#[tactic(auto, using(crate::proofs::FoundLaws::found_number))]
fn number_found(alloc: Global, text: &[u8]) -> Result<Option<u64>, NoMemory>
    ensures { IfOk result (IsFound IsShort decimal text.now) }
{
    Ok(number_of_text(alloc, text)?)
}

// The listed word whose JSON text a text is.
fn word_of_text(alloc: Global, words: &[Chars], text: &[u8]) -> Result<Option<Chars>, NoMemory>
    ensures { IfOk result (IsFound (Contains words.now) json_text text.now) }
{
    for word in words {
        let printed = json_text(alloc, word.as_str())?;
        if printed.as_bytes() == text {
            return Ok(Some(word.copy(alloc)?));
        }
    }
    Ok(None)
}

// The truth value that a text is.
fn flag_of_text(text: &[u8]) -> Option<Value>
    ensures { IsFound (InDomain Domain.Flags) value_text text.now result }
{
    if text == b"true".as_slice() {
        return Some(Value::Flag(true));
    }
    if text == b"false".as_slice() {
        return Some(Value::Flag(false));
    }
    None
}

fn listed_number(alloc: Global, numbers: &[u64], text: &[u8]) -> Result<Option<Value>, NoMemory>
    ensures { IfOk result (IsFound (InDomain (Domain.Numbers numbers.now)) value_text text.now) }
{
    match number_found(alloc, text)? {
        Some(number) => {
            if numbers.contains(&number) {
                Ok(Some(Value::Number(number)))
            } else {
                Ok(None)
            }
        }
        None => Ok(None),
    }
}

fn number_between(
    alloc: Global,
    low: u64,
    high: u64,
    text: &[u8],
) -> Result<Option<Value>, NoMemory>
    ensures { IfOk result (IsFound (InDomain (Domain.Range low high)) value_text text.now) }
{
    match number_found(alloc, text)? {
        Some(number) => {
            if low <= number && number <= high {
                Ok(Some(Value::Number(number)))
            } else {
                Ok(None)
            }
        }
        None => Ok(None),
    }
}

fn listed_word(alloc: Global, words: &[Chars], text: &[u8]) -> Result<Option<Value>, NoMemory>
    ensures { IfOk result (IsFound (InDomain (Domain.Words words.now)) value_text text.now) }
{
    match word_of_text(alloc, words, text)? {
        Some(word) => Ok(Some(Value::Word(word))),
        None => Ok(None),
    }
}

/// The value of a domain that a text is.
pub(crate) fn value_of_text(
    alloc: Global,
    domain: &Domain,
    text: &[u8],
) -> Result<Option<Value>, NoMemory>
    ensures { IfOk result (IsFound (InDomain domain.now) value_text text.now) }
{
    match domain {
        Domain::Flags => Ok(flag_of_text(text)),
        Domain::Numbers(numbers) => listed_number(alloc, numbers.as_slice(), text),
        Domain::Range { low, high } => number_between(alloc, *low, *high, text),
        Domain::Words(words) => listed_word(alloc, words.as_slice(), text),
    }
}
