//! Decoders of cases.

ghost use Rattle.udb_spec.specs.Lawful.{Lawful};
ghost use Rattle.case_space.specs.Small.{IsSmall};

use crate::matches::{pattern_of, word_of};
use case_space::{cond_of, is_small, part_of, space_of};
use std::alloc::Global;
use udb_base::{Name, NoMemory, Partial, Space, both};
use udb_decode::{Coding, Decoder};
use udb_lawful::is_lawful;

fn coding_of(alloc: Global, text: &str) -> Result<Coding, NoMemory> {
    let (name, rest) = text.split_once('=').unwrap_or((text, ""));
    let (digits, present) = rest.split_once('=').unwrap_or((rest, "always"));
    let (name, present) = both(Name::of(alloc, name), cond_of(alloc, present))?;
    Ok(Coding {
        name,
        pattern: pattern_of(digits),
        present,
    })
}

fn add(to: &mut Vec<Coding>, one: Result<Coding, NoMemory>) -> Result<(), NoMemory> {
    to.push(one?)?;
    Ok(())
}

fn codings_of(alloc: Global, text: &str) -> Result<Vec<Coding>, NoMemory> {
    let mut codings = Vec::new(alloc);
    for word in text.split(' ') {
        add(&mut codings, coding_of(alloc, word))?;
    }
    Ok(codings)
}

fn told_picks(alloc: Global, decoder: &Decoder, word: u32) -> Result<String, NoMemory> {
    let mut told = format!(in alloc; "picks {}", decoder.decode(word).count())?;
    for name in decoder.decode(word) {
        told.push_str(" ")?;
        told.push_str(name.as_str())?;
    }
    Ok(told)
}

fn built_answer(
    alloc: Global,
    space: &Space,
    part: &Partial,
    word: u32,
    codings: &[Coding],
) -> Result<String, NoMemory>
    requires lawful { Lawful space.now }
    requires small { IsSmall space.now part.now }
{
    let decoder = Decoder::build(alloc, space, part, codings)?;
    told_picks(alloc, &decoder, word)
}

fn tested_answer(
    alloc: Global,
    space: &Space,
    part: &Partial,
    word: u32,
    codings: &[Coding],
) -> Result<String, NoMemory> {
    if !is_lawful(space) || !is_small(space, part) {
        return "unlawful".to_string(alloc);
    }
    built_answer(alloc, space, part, word, codings)
}

/// The picks of a word.
pub fn decode_answer(alloc: Global, rest: &str) -> Result<String, NoMemory> {
    let (space, rest) = rest.split_once(' ').unwrap_or((rest, ""));
    let (part, rest) = rest.split_once(' ').unwrap_or((rest, ""));
    let (word, rest) = rest.split_once(' ').unwrap_or((rest, ""));
    let codings = codings_of(alloc, rest)?;
    let (space, part) = both(space_of(alloc, space), part_of(alloc, part))?;
    tested_answer(alloc, &space, &part, word_of(word), codings.as_slice())
}
