//! What stands between quotes.

ghost use Rattle.std.specs.Prelude.{◌≡◌, ◌++◌, length, drop, IfOk, OnOk, IsUtf8, encode_utf8, ◌<◌, ◌^◌};
ghost use Rattle.yaml_spec.specs.Line as line;
ghost use Rattle.yaml_spec.specs.Reading as spec;
ghost use Rattle.udb_yaml.specs.Places.{Takes};

use std::alloc::Global;
use udb_base::{Chars, NoMemory};
use yaml_spec::{Inner, Turn};

/// The character that a byte behind a backslash stands for.
fn escape_code(byte: u8) -> Option<char>
    ensures { result ≡ line.escape_code byte }
{
    match byte {
        b'"' => Some('"'),
        b'\\' => Some('\\'),
        b'/' => Some('/'),
        b'n' => Some('\n'),
        b't' => Some('\t'),
        b'r' => Some('\r'),
        b'0' => Some('\0'),
        _ => None,
    }
}

/// How many hexadecimal digits follow a byte behind a backslash.
fn escape_digits(byte: u8) -> Option<u32>
    ensures { result ≡ line.escape_digits byte }
{
    match byte {
        b'x' => Some(2),
        b'u' => Some(4),
        _ => None,
    }
}

/// The value of a hexadecimal digit.
pub fn hex_digit(byte: u8) -> Option<u32>
    ensures { result ≡ line.hex_digit byte }
{
    match byte {
        b'0'..=b'9' => Some((byte - b'0') as u32),
        b'A'..=b'F' => Some((byte - b'A') as u32 + 10),
        b'a'..=b'f' => Some((byte - b'a') as u32 + 10),
        _ => None,
    }
}

/// What a byte behind a backslash does (YAML 1.2.2, 5.7).
fn escape_turn(byte: u8) -> Turn
    ensures { result ≡ spec.turn_at Inner.Escaped byte }
{
    match escape_code(byte) {
        Some(code) => Turn::Gives(code),
        None => match escape_digits(byte) {
            Some(left) => Turn::Goes(Inner::Digits(left, 0)),
            None => Turn::Fault,
        },
    }
}

fn last_digit(value: u32) -> Turn
    requires { value < 2 ^ 17 }
    ensures { result ≡ spec.last_digit value }
{
    match char::from_u32(value) {
        Some(code) => Turn::Gives(code),
        None => Turn::Fault,
    }
}

fn digit(left: u32, value: u32, byte: u8) -> Turn
    ensures { result ≡ spec.turn_at (Inner.Digits left value) byte }
{
    match hex_digit(byte) {
        None => Turn::Fault,
        Some(digit) => {
            if value >= 4096 {
                Turn::Fault
            } else if left <= 1 {
                last_digit(value * 16 + digit)
            } else {
                Turn::Goes(Inner::Digits(left - 1, value * 16 + digit))
            }
        }
    }
}

/// What a byte does at a place between quotes.
fn turn(place: Inner, byte: u8) -> Turn
    ensures { result ≡ spec.turn_at place byte }
{
    match place {
        Inner::Double => match byte {
            b'"' => Turn::Last,
            b'\\' => Turn::Goes(Inner::Escaped),
            _ => Turn::Byte(Inner::Double),
        },
        Inner::Escaped => escape_turn(byte),
        Inner::Digits(left, value) => digit(left, value, byte),
        Inner::Single => {
            if byte == b'\'' {
                Turn::Goes(Inner::Quote)
            } else {
                Turn::Byte(Inner::Single)
            }
        }
        Inner::Quote => {
            if byte == b'\'' {
                Turn::Byte(Inner::Single)
            } else {
                Turn::Past
            }
        }
    }
}

/// The place behind a first quote.
pub fn quote_of(text: &[u8]) -> Option<Inner>
    ensures { result ≡ spec.quote_of text.now }
{
    if text.len() == 0 {
        return None;
    }
    match text[0] {
        b'"' => Some(Inner::Double),
        b'\'' => Some(Inner::Single),
        _ => None,
    }
}

/// Appends a character.
fn push(bytes: &mut Vec<u8>, code: char) -> Result<(), NoMemory>
    ensures { OnOk result (bytes.new.items ≡ bytes.old.items ++ encode_utf8 code) }
{
    let mut room = [0u8; 4];
    let text = code.encode_utf8(&mut room);
    bytes.extend_from_slice(text.as_bytes())
}

/// The text of bytes.
fn chars(bytes: Vec<u8>) -> Chars
    requires { IsUtf8 bytes.items }
    ensures { result ≡ bytes.items }
{
    match String::from_utf8(bytes) {
        Ok(text) => Chars::from_string(text),
        Err(_) => unreachable!(),
    }
}

/// The text of a quoted scalar from a place between its quotes on (YAML 1.2.2, 7.3.1 and 7.3.2), and how
/// long it is with its closing quote.
pub fn read_quoted(
    alloc: Global,
    first: Inner,
    text: &str,
) -> Result<Option<(Chars, usize)>, NoMemory>
    ensures { IfOk result (λ o. Takes text.now (spec.quoted first text.now) o) }
{
    let mut place = first;
    let mut bytes = Vec::new(alloc);
    'bytes: for (at, byte) in text.as_bytes().iter().enumerate() {
        match turn(place, *byte) {
            Turn::Fault => return Ok(None),
            Turn::Last => return Ok(Some((chars(bytes), at + 1))),
            Turn::Past => return Ok(Some((chars(bytes), at))),
            Turn::Goes(next) => place = next,
            Turn::Byte(next) => {
                bytes.push(*byte)?;
                place = next;
            }
            Turn::Gives(code) => {
                push(&mut bytes, code)?;
                place = Inner::Double;
            }
        }
    }
    match place {
        Inner::Quote => Ok(Some((chars(bytes), text.len()))),
        _ => Ok(None),
    }
}
