//! Bodies and functions of cases.

use idl_parse::{ParseFault, parse_body, parse_functions};
use idl_tree::{Base, BitPart, BitParts, Body, Functions, Variable, Variables};
use std::alloc::{AllocError, Global};
use udb_base::{Many, Name, NoMemory, both};

/// No source is longer.
const LONGEST: usize = 16_777_216;

fn unless_memory<T: Drop>(read: Result<T, ParseFault>) -> Result<Option<T>, NoMemory> {
    match read {
        Ok(tree) => Ok(Some(tree)),
        Err(ParseFault::Memory) => Err(AllocError),
        Err(_) => Ok(None),
    }
}

/// The body that a source spells, where it spells one.
pub fn body_of(alloc: Global, source: &str) -> Result<Option<Body>, NoMemory> {
    if source.len() > LONGEST {
        return Ok(None);
    }
    unless_memory(parse_body(alloc, source))
}

/// The functions that a source spells, where it spells some.
pub fn functions_of(alloc: Global, source: &str) -> Result<Option<Functions>, NoMemory> {
    if source.len() > LONGEST {
        return Ok(None);
    }
    unless_memory(parse_functions(alloc, source))
}

fn place_number(text: &str) -> u16 {
    text.parse::<u16>().unwrap_or(0)
}

fn parts_of(alloc: Global, text: &str) -> Result<BitParts, NoMemory> {
    let mut parts = Many::new(alloc);
    for word in text.split('+') {
        let (high, low) = word.split_once('-').unwrap_or((word, word));
        parts.push(BitPart {
            high: place_number(high),
            low: place_number(low),
        })?;
    }
    Ok(parts)
}

fn variable_of(alloc: Global, name: &str, text: &str) -> Result<Variable, NoMemory> {
    let (text, base) = match text.split_once('@') {
        Some((text, "32")) => (text, Base::Rv32),
        Some((text, _)) => (text, Base::Rv64),
        None => (text, Base::All),
    };
    let (parts, shift) = text.split_once('<').unwrap_or((text, "0"));
    let (name, location) = both(Name::of(alloc, name), parts_of(alloc, parts))?;
    Ok(Variable {
        base,
        name,
        location,
        shift: shift.parse::<u8>().unwrap_or(0),
    })
}

fn push_variable(to: &mut Variables, one: Result<Variable, NoMemory>) -> Result<(), NoMemory> {
    to.push(one?)?;
    Ok(())
}

/// The variables of an encoding among words: `$NAME=PARTS`, where the parts are runs of bits joined by `+`, the first
/// highest, behind which may stand `<` and a shift to the left, and `@` and the width of the registers that it
/// stands for.
pub fn variables_of(alloc: Global, words: &str) -> Result<Variables, NoMemory> {
    let mut variables = Many::new(alloc);
    for word in words.split(' ') {
        if let Some(rest) = word.strip_prefix('$') {
            let (name, text) = rest.split_once('=').unwrap_or((rest, ""));
            push_variable(&mut variables, variable_of(alloc, name, text))?;
        }
    }
    Ok(variables)
}
