//! The values of the texts of numbers, sized numbers and quoted texts.

ghost use Rattle.std.specs.Prelude.{◌≡◌, ◌<◌, ◌≤◌, ◌^◌, length, drop};
ghost use Rattle.std.specs.List.{position_or_len, before_first, after_first};
ghost use Rattle.idl_token.specs.Numbers.{number_value, sized_parts, is_quote, is_short, past_signed, literal_value, text_value};
ghost use Rattle.idl_token.specs.Values.{IsLiteral, IsQuoted, literal_of};

use crate::bytes::{base_of, begins, digits_value, letter_base, mark_of, past};

/// The parts of the text of a sized number.
#[derive(Clone, Copy, Drop)]
pub struct SizedText<'a> {
    /// What stands before the quote: a number where it begins with a digit, else the name of a
    /// parameter.
    pub width: &'a str,
    /// Whether an `s` follows the quote.
    pub signed: bool,
    /// The value as it is written.
    pub value: u128,
}

/// The greatest number that may stand in a width, or before the quote of a sized number.
const GREATEST_SHORT: u128 = 65_535;

/// Whether a number may stand in a width, or before the quote of a sized number: whether it is at
/// most 65,535.
pub fn is_short(number: u128) -> bool
    ensures { result ≡ is_short number }
{
    number <= GREATEST_SHORT
}

/// The value of a number token's text, decimal, hexadecimal after `0x` or binary after `0b`. The
/// text of any number token may be given: its value is below 2^128.
#[tactic(auto, unfolding(crate::specs::Numbers::number_value))]
pub fn number_value(text: &str) -> u128
    requires { number_value text.now < 2 ^ 128 }
    ensures { result ≡ number_value text.now }
{
    let bytes = text.as_bytes();
    let base = base_of(bytes);
    match digits_value(base, past(bytes, mark_of(base))) {
        Some(value) => value,
        None => unreachable!(),
    }
}

// How many bytes stand before the first quote.
fn quote_at(text: &[u8]) -> usize
    ensures place { result ≡ position_or_len is_quote text.now }
    ensures within { result ≤ length text.now }
{
    text.iter().take_while(|byte| **byte != b'\'').count()
}

fn past_signed(text: &[u8]) -> &[u8]
    ensures { result.now ≡ past_signed text.now }
{
    past(text, if begins(b's', text) { 1 } else { 0 })
}

// The value of the letter of a base and its digits.
fn literal_value(text: &[u8]) -> u128
    requires { IsLiteral text.now }
    ensures { result ≡ literal_value text.now }
{
    match digits_value(letter_base(text), past(text, 1)) {
        Some(value) => value,
        None => unreachable!(),
    }
}

/// The parts of a sized number token's text. The value is as it is written, and not taken modulo
/// two to the power of the width.
#[tactic(auto, unfolding(crate::specs::Numbers::sized_parts))]
pub fn sized(text: &str) -> SizedText<'_>
    requires { IsLiteral (literal_of text.now) }
    ensures width { result.width.now ≡ before_first is_quote text.now }
    ensures signed { result.signed ≡ (sized_parts text.now).is_signed }
    ensures value { result.value ≡ (sized_parts text.now).value }
{
    let at = quote_at(text.as_bytes());
    let after = past(text.as_bytes(), at + 1);
    SizedText {
        width: text.split_at(at).0,
        signed: begins(b's', after),
        value: literal_value(past_signed(after)),
    }
}

/// The part of a text token between its quotes, which has no escapes.
pub fn text_value(text: &str) -> &str
    requires { IsQuoted text.now }
    ensures { result.now ≡ text_value text.now }
{
    let inside = text.split_at(1).1;
    inside.split_at(inside.len() - 1).0
}
