//! The token that stands at the front of a text.

ghost use Rattle.std.specs.Prelude.{◌≡◌, ◌<◌, ◌≤◌, ◌+◌, ◌^◌, length, take, drop};
ghost use Rattle.std.specs.Char.{is_digit};
ghost use Rattle.std.specs.List.{prefix_len};
ghost use Rattle.idl_token.specs.Front as spec;

use crate::before::Before;
use crate::bytes::{
    base_of, begins, begins_digit, begins_word, digits_len, digits_value, letter_base, mark_of,
    past, word_len,
};
use crate::front::Front;
use crate::kinds::{Sign, TokenKind};
use crate::words::{reserved_of, sign_len, sign_of, special_len, special_of};

// How many bytes separate: a space, a line feed, or a comment up to its line feed.
fn gap_at(text: &[u8]) -> usize
    ensures { result ≡ spec.gap_at text.now }
{
    match text {
        [] => 0,
        [b' ' | b'\n', ..] => 1,
        [b'#', ..] => line_len(text),
        _ => 0,
    }
}

fn line_len(text: &[u8]) -> usize
    ensures { result ≡ prefix_len spec.is_no_line_feed text.now }
{
    text.iter().take_while(|byte| **byte != b'\n').count()
}

fn unquoted_len(text: &[u8]) -> usize
    ensures { result ≡ prefix_len spec.is_no_quote text.now }
{
    text.iter().take_while(|byte| **byte != b'"').count()
}

fn unbraced_len(text: &[u8]) -> usize
    ensures { result ≡ prefix_len spec.is_no_brace text.now }
{
    text.iter()
        .take_while(|byte| !(**byte == b'{' || **byte == b'}'))
        .count()
}

// The digits of a base in front.
fn digits_of(base: u8, text: &[u8]) -> &[u8]
    ensures { result.now ≡ spec.digits_of base text.now }
{
    text.split_at(digits_len(base, text)).0
}

// Whether there are digits, and what they write is below 2^128. A base of 0 has no digits.
fn is_number(base: u8, digits: &[u8]) -> bool
    requires { 0 < length digits.now → 0 < base }
    ensures { result ≡ spec.is_number base digits.now }
{
    digits.len() > 0 && digits_value(base, digits).is_some()
}

fn number_in(base: u8, text: &[u8]) -> usize
    requires { 0 < base }
    ensures count { result ≡ spec.number_in base text.now }
    ensures within { result ≤ length text.now }
{
    let digits = digits_of(base, past(text, mark_of(base)));
    if is_number(base, digits) {
        mark_of(base) + digits.len()
    } else {
        0
    }
}

fn number_at(text: &[u8]) -> usize
    ensures count { result ≡ spec.number_at text.now }
    ensures within { result ≤ length text.now }
{
    number_in(base_of(text), text)
}

fn literal_at(text: &[u8]) -> usize
    ensures count { result ≡ spec.literal_at text.now }
    ensures within { result ≤ length text.now }
{
    let base = letter_base(text);
    let digits = digits_of(base, past(text, 1));
    if is_number(base, digits) {
        1 + digits.len()
    } else {
        0
    }
}

// A length behind a front, or 0.
fn behind(front: usize, len: usize) -> usize
    requires { front + len < 2 ^ 64 }
    ensures { result ≡ spec.behind front len }
{
    if len == 0 { 0 } else { front + len }
}

// How many bytes make a sized number of the number or word before them: a quote, an `s` or none,
// the letter of a base and its digits; 0 where they don't stand there.
fn tail_at(text: &[u8]) -> usize
    ensures count { result ≡ spec.tail_at text.now }
    ensures within { result ≤ length text.now }
{
    if !begins(b'\'', text) {
        return 0;
    }
    if begins(b's', past(text, 1)) {
        behind(2, literal_at(past(text, 2)))
    } else {
        behind(1, literal_at(past(text, 1)))
    }
}

fn with_tail(kind: TokenKind, len: usize, tail: usize) -> Front
    requires { len + tail < 2 ^ 64 }
    ensures { result ≡ spec.with_tail kind len tail }
{
    if tail == 0 {
        Front::Token(kind, len)
    } else {
        Front::Token(TokenKind::Sized, len + tail)
    }
}

fn number(text: &[u8]) -> Front
    ensures { result ≡ spec.numbered (spec.number_at text.now) text.now }
{
    let len = number_at(text);
    if len == 0 {
        return Front::Nothing;
    }
    with_tail(TokenKind::Number, len, tail_at(past(text, len)))
}

fn word(text: &[u8]) -> Front
    ensures { result ≡ spec.word_at text.now }
{
    let len = word_len(text);
    match reserved_of(text.split_at(len).0) {
        Some(word) => Front::Token(TokenKind::Reserved(word), len),
        None => with_tail(TokenKind::Word, len, tail_at(past(text, len))),
    }
}

fn text_token(text: &[u8]) -> Front
    ensures { result ≡ spec.text_at text.now }
{
    let inside = past(text, 1);
    let len = unquoted_len(inside);
    if len < inside.len() {
        Front::Token(TokenKind::Text, len + 2)
    } else {
        Front::Nothing
    }
}

fn sign(in_width: bool, text: &[u8]) -> Front
    ensures { result ≡ spec.sign_at in_width text.now }
{
    if in_width && begins(b'>', text) {
        return Front::Token(TokenKind::Sign(Sign::Greater), 1);
    }
    match sign_of(text) {
        Some(sign) => Front::Token(TokenKind::Sign(sign), sign_len(sign)),
        None => Front::Nothing,
    }
}

fn other(in_width: bool, text: &[u8]) -> Front
    ensures { result ≡ spec.other_at in_width text.now }
{
    if begins_digit(10, text) {
        number(text)
    } else if begins_word(text) {
        word(text)
    } else if begins(b'"', text) {
        text_token(text)
    } else {
        sign(in_width, text)
    }
}

fn token(in_width: bool, text: &[u8]) -> Front
    ensures { result ≡ spec.token_at in_width text.now }
{
    match special_of(text) {
        Some(word) => Front::Token(TokenKind::Special(word), special_len(word)),
        None => other(in_width, text),
    }
}

fn plain(in_width: bool, text: &[u8]) -> Front
    ensures { result ≡ spec.plain_at in_width text.now }
{
    let gap = gap_at(text);
    if gap == 0 {
        token(in_width, text)
    } else {
        Front::Gap(gap)
    }
}

#[tactic(auto, unfolding(crate::specs::Front::front_at))]
fn front_of(before: Before, text: &[u8]) -> Front
    ensures { result ≡ spec.front_at before text.now }
{
    if !before.in_description {
        return plain(before.in_width, text);
    }
    let len = unbraced_len(text);
    if len == 0 {
        plain(before.in_width, text)
    } else {
        Front::Token(TokenKind::Description, len)
    }
}

/// What stands at the front of a text, by what stands before it.
pub fn front(before: Before, text: &str) -> Front
    ensures value { result ≡ spec.front_at before text.now }
    ensures cut { spec.IsCut text.now result }
{
    front_of(before, text.as_bytes())
}
