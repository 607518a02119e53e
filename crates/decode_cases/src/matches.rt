//! Patterns of cases.

use std::alloc::Global;
use udb_base::NoMemory;
use udb_decode::{Pattern, overlap};

/// The pattern of a match. Other characters than 0 and 1 leave their bit free.
pub fn pattern_of(text: &str) -> Pattern {
    let mut mask: u32 = 0;
    let mut bits: u32 = 0;
    for digit in text.bytes() {
        mask = mask.wrapping_mul(2) | u32::from(digit == b'0' || digit == b'1');
        bits = bits.wrapping_mul(2) | u32::from(digit == b'1');
    }
    Pattern { mask, bits }
}

/// The number of hexadecimal digits.
pub fn word_of(text: &str) -> u32 {
    u32::from_str_radix(text, 16).unwrap_or(0)
}

fn truth(alloc: Global, holds: bool) -> Result<String, NoMemory> {
    if holds {
        "true".to_string(alloc)
    } else {
        "false".to_string(alloc)
    }
}

/// Whether a word has a match.
pub fn matches_answer(alloc: Global, rest: &str) -> Result<String, NoMemory> {
    let (text, word) = rest.split_once(' ').unwrap_or((rest, ""));
    truth(alloc, pattern_of(text).matches(word_of(word)))
}

/// Whether a word has a pattern that is given by its numbers.
pub fn bits_answer(alloc: Global, rest: &str) -> Result<String, NoMemory> {
    let (mask, rest) = rest.split_once(' ').unwrap_or((rest, ""));
    let (bits, word) = rest.split_once(' ').unwrap_or((rest, ""));
    let pattern = Pattern {
        mask: word_of(mask),
        bits: word_of(bits),
    };
    truth(alloc, pattern.matches(word_of(word)))
}

/// The least word that has two matches.
pub fn overlap_answer(alloc: Global, rest: &str) -> Result<String, NoMemory> {
    let (first, second) = rest.split_once(' ').unwrap_or((rest, ""));
    match overlap(&pattern_of(first), &pattern_of(second)) {
        Some(word) => format!(in alloc; "0x{word:08x}"),
        None => "none".to_string(alloc),
    }
}
