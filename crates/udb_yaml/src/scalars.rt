//! What plain scalars stand for.

ghost use Rattle.std.specs.Prelude.{◌≡◌, ◌^◌, ◌≤◌, ◌<◌, ◌-◌, length, IfOk, if◌then◌else◌, option_map, pos, neg_ℤ};
ghost use Rattle.yaml_spec.specs.Line as line;
ghost use Rattle.udb_yaml.specs.Places.{digit_in, base_of};

use crate::quotes::hex_digit;
use std::alloc::Global;
use udb_base::{Chars, NoMemory};
use yaml_spec::Tree;

/// The value of a decimal digit.
fn digit(byte: u8) -> Option<u32>
    ensures { result ≡ line.digit byte }
{
    match byte {
        b'0'..=b'9' => Some((byte - b'0') as u32),
        _ => None,
    }
}

/// The value of a digit, hexadecimal or decimal.
fn digit_in(hex: bool, byte: u8) -> Option<u32>
    ensures { result ≡ digit_in hex byte }
{
    if hex { hex_digit(byte) } else { digit(byte) }
}

/// The number that digits write, up to a limit.
fn digits(hex: bool, limit: u64, text: &[u8]) -> Option<u64>
    ensures { result ≡ line.at_most limit (line.digits (digit_in hex) (base_of hex) 0 text.now) }
{
    let base: u128 = if hex { 16 } else { 10 };
    let mut value: u128 = 0;
    'digits: for byte in text {
        match digit_in(hex, *byte) {
            None => return None,
            Some(digit) => value = value * base + digit as u128,
        }
        if value > limit as u128 {
            return None;
        }
    }
    Some(value as u64)
}

/// A decimal without leading zero, up to a limit.
fn decimal(limit: u64, text: &[u8]) -> Option<u64>
    ensures { result ≡ line.decimal_to limit text.now }
{
    if text.len() == 0 || text[0] == b'0' {
        return None;
    }
    digits(false, limit, text)
}

/// Hexadecimal digits.
fn hexadecimal(text: &[u8]) -> Option<u64>
    ensures { result ≡ line.hexadecimal text.now }
{
    if text.len() == 0 {
        return None;
    }
    digits(true, u64::MAX, text)
}

fn positive(value: Option<u64>) -> Option<i128>
    ensures { result ≡ option_map pos value }
{
    match value {
        Some(value) => Some(value as i128),
        None => None,
    }
}

fn negative(value: Option<u64>) -> Option<i128>
    ensures { result ≡ option_map (λ n. neg_ℤ (pos n)) value }
{
    match value {
        Some(value) => Some(-(value as i128)),
        None => None,
    }
}

/// The number that a plain scalar stands for, if it does for one.
fn number(text: &[u8]) -> Option<i128>
    ensures { result ≡ line.number text.now }
{
    if text.len() == 0 {
        return None;
    }
    if text.len() == 1 {
        return match digit(text[0]) {
            Some(value) => Some(value as i128),
            None => None,
        };
    }
    if text[0] == b'-' {
        return negative(decimal(1 << 63, &text[1..]));
    }
    if text[0] == b'0' && text[1] == b'x' {
        return positive(hexadecimal(&text[2..]));
    }
    positive(decimal(u64::MAX, text))
}

fn is_null(text: &str) -> bool
    ensures { result ≡ line.is_null text.now }
{
    text == "null" || text == "~"
}

fn is_true(text: &str) -> bool
    ensures { result ≡ line.is_true text.now }
{
    text == "true"
}

fn is_false(text: &str) -> bool
    ensures { result ≡ line.is_false text.now }
{
    text == "false"
}

/// Whether a plain scalar stands for a text.
pub fn means_text(text: &str) -> bool
    ensures { result ≡ line.means_text text.now }
{
    !is_null(text) && !is_true(text) && !is_false(text) && number(text.as_bytes()).is_none()
}

/// What a plain scalar stands for.
pub fn meaning(alloc: Global, text: &str) -> Result<Tree, NoMemory>
    ensures { IfOk result (λ x. x ≡ line.meaning text.now) }
{
    if is_null(text) {
        return Ok(Tree::Null);
    }
    if is_true(text) {
        return Ok(Tree::Flag(true));
    }
    if is_false(text) {
        return Ok(Tree::Flag(false));
    }
    match number(text.as_bytes()) {
        Some(value) => Ok(Tree::Int(value)),
        None => Ok(Tree::Text(Chars::of(alloc, text)?)),
    }
}
