//! Numbers and parts of locations, read from their texts.

ghost use Rattle.std.specs.Prelude.{◌≡◌, IsTrue, IfOk, map};
ghost use Rattle.std.specs.Str.{all_ascii_digits};
ghost use Rattle.std.specs.List.{slice_split};
ghost use Rattle.udb_base.specs.Lists as lists;
ghost use Rattle.entry_place.specs.Places as spec;

use idl_tree::{BitPart, BitParts};
use std::alloc::Global;
use udb_base::{Many, NoMemory};

fn all_digits(text: &[u8]) -> bool
    ensures { result ≡ all_ascii_digits text.now }
{
    for byte in text {
        if !byte.is_ascii_digit() {
            return false;
        }
    }
    true
}

fn is_number(text: &str) -> bool
    ensures { result ≡ spec.is_number text.now }
{
    let bytes = text.as_bytes();
    all_digits(bytes) && (!bytes.is_empty() && (bytes.len() == 1 || bytes[0] != b'0'))
}

// A number of at most 65,535.
fn number(text: &str) -> Option<u16>
    ensures { result ≡ spec.number_of text.now }
{
    if is_number(text) {
        text.parse::<u16>().ok()
    } else {
        None
    }
}

fn run(high: u16, low: u16) -> Option<BitPart>
    ensures { result ≡ spec.run high low }
{
    if low <= high {
        Some(BitPart { high, low })
    } else {
        None
    }
}

fn run_of(high: Option<u16>, low: Option<u16>) -> Option<BitPart>
    ensures { result ≡ spec.run_of high low }
{
    let high = high?;
    let low = low?;
    run(high, low)
}

/// The part that is one bit.
pub fn bit_of(bit: Option<u16>) -> Option<BitPart>
    ensures { result ≡ spec.bit_of bit }
{
    let bit = bit?;
    Some(BitPart {
        high: bit,
        low: bit,
    })
}

// part = number "-" number | number
fn part(text: &str) -> Option<BitPart>
    ensures { result ≡ spec.part_of text.now }
{
    match text.split_once('-') {
        Some((high, low)) => run_of(number(high), number(low)),
        None => bit_of(number(text)),
    }
}

fn pieces<'a>(alloc: Global, text: &'a str) -> Result<Vec<&'a str>, NoMemory>
    ensures { IfOk result (λ v. map (λ x. x.now) v.items ≡ slice_split spec.is_bar text.now) }
{
    text.split('|').collect(alloc)
}

#[tactic(auto, using(udb_base::specs::Lists::part_steps))]
fn each_part(alloc: Global, texts: &[&str]) -> Result<Option<BitParts>, NoMemory>
    ensures { IfOk result (λ r. r ≡ lists.each (λ x. spec.part_of x.now) texts.now) }
{
    let mut parts = Many::new(alloc);
    for text in texts {
        match part(text) {
            Some(part) => parts.push(part)?,
            None => return Ok(None),
        }
    }
    Ok(Some(parts))
}

/// The parts that a text spells: `location = part { "|" part }`.
pub fn parts(alloc: Global, text: &str) -> Result<Option<BitParts>, NoMemory>
    ensures { IfOk result (λ r. r ≡ spec.parts_of text.now) }
{
    let texts = pieces(alloc, text)?;
    each_part(alloc, texts.as_slice())
}
