//! Matches, and which variables they have.

ghost use Rattle.std.specs.Prelude.{◌≡◌, take, drop};
ghost use Rattle.std.specs.List.{list_all};
ghost use Rattle.entry_place.specs.Places as spec;

use crate::bits::{is_apart_from, width};
use idl_tree::{BitPart, Variable};

fn is_match_digit(byte: u8) -> bool
    ensures { result ≡ spec.is_match_digit byte }
{
    byte == b'0' || byte == b'1' || byte == b'-'
}

fn all_match_digits(bytes: &[u8]) -> bool
    ensures { result ≡ list_all spec.is_match_digit bytes.now }
{
    for byte in bytes {
        if !is_match_digit(*byte) {
            return false;
        }
    }
    true
}

/// Whether a text is a match: 32 of `0`, `1` and `-`, bit 31 first.
pub fn is_match(digits: &str) -> bool
    ensures { result ≡ spec.is_match digits.now }
{
    digits.len() == 32 && all_match_digits(digits.as_bytes())
}

fn all_dashes(bytes: &[u8]) -> bool
    ensures { result ≡ list_all spec.is_dash bytes.now }
{
    for byte in bytes {
        if *byte != b'-' {
            return false;
        }
    }
    true
}

// So many bytes from a place on, or as many as there are.
fn bytes_at(bytes: &[u8], at: usize, count: usize) -> &[u8]
    ensures { result.now ≡ take count (drop at bytes.now) }
{
    let rest = bytes.split_at(at.min(bytes.len())).1;
    rest.split_at(count.min(rest.len())).0
}

fn is_free_part(digits: &[u8], part: &BitPart) -> bool
    ensures { result ≡ spec.is_free_part digits.now part.now }
{
    part.high < 32
        && all_dashes(bytes_at(digits, usize::from(31 - part.high), width(part) as usize))
}

fn are_free_parts(digits: &[u8], parts: &[BitPart]) -> bool
    ensures { result ≡ list_all (spec.is_free_part digits.now) parts.now }
{
    for part in parts {
        if !is_free_part(digits, part) {
            return false;
        }
    }
    true
}

fn are_parts_apart(others: &[BitPart], parts: &[BitPart]) -> bool
    ensures { result ≡ list_all (spec.is_apart_from others.now) parts.now }
{
    for part in parts {
        if !is_apart_from(others, part) {
            return false;
        }
    }
    true
}

fn are_separate(variable: &Variable, other: &Variable) -> bool
    ensures { result ≡ spec.are_separate variable.now other.now }
{
    variable.name != other.name
        && are_parts_apart(other.location.as_slice(), variable.location.as_slice())
}

fn is_separate_from(before: &[Variable], variable: &Variable) -> bool
    ensures { result ≡ list_all (spec.are_separate variable.now) before.now }
{
    for other in before {
        if !are_separate(variable, other) {
            return false;
        }
    }
    true
}

/// Whether a variable fits a match beside the variables before it: its bits are `-` in the match,
/// and no variable before it has its name or one of its bits.
pub fn fits_match(digits: &str, before: &[Variable], variable: &Variable) -> bool
    ensures { result ≡ spec.fits_match digits.now before.now variable.now }
{
    are_free_parts(digits.as_bytes(), variable.location.as_slice())
        && is_separate_from(before, variable)
}
