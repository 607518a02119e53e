//! What the head of a request says of its body, and whether the session closes after it.

ghost use Rattle.std.specs.Prelude.{◌≡◌, ◌||◌, ◌&&◌, ◌==◌, not, map, length, codes, true, All, Option, option_map, if◌then◌else◌, Some, None};
ghost use Rattle.std.specs.List.{list_any, list_all};
ghost use Rattle.std.specs.Char.{is_ascii_digit};
ghost use Rattle.std.specs.Str.{bytes_eq};
ghost use Rattle.std.specs.Str.Parse.{digits_value};
ghost use Rattle.httparse.specs.Spans.{IsHeaderWithin, header_bytes};
ghost use Rattle.udb_http.specs.Framing.{same_word, is_named, has_field, first_value, agree, is_length, needs_length, stated_length, body_length, closes};

use crate::requests::ReadFault;
use httparse::spans::HeaderSpan;

/// The most bytes of a body.
pub const BODY_LIMIT: usize = 65_536;

fn same_word(a: &[u8], b: &[u8]) -> bool
    ensures { result ≡ same_word a.now b.now }
{
    a.eq_ignore_ascii_case(b)
}

fn is_named(head: &[u8], field: &HeaderSpan, name: &[u8]) -> bool
    requires { IsHeaderWithin (length head.now) field.now }
    ensures { result ≡ is_named name.now (header_bytes head.now field.now) }
{
    same_word(name, field.name.of(head))
}

fn has_field(head: &[u8], fields: &[HeaderSpan], name: &[u8]) -> bool
    requires { All (IsHeaderWithin (length head.now)) fields.now }
    ensures { result ≡ has_field name.now (map (header_bytes head.now) fields.now) }
{
    for field in fields {
        if is_named(head, field, name) {
            return true;
        }
    }
    false
}

fn first_value<'a>(head: &'a [u8], fields: &[HeaderSpan], name: &[u8]) -> Option<&'a [u8]>
    requires { All (IsHeaderWithin (length head.now)) fields.now }
    ensures { option_map (λ v. v.now) result
        ≡ first_value name.now (map (header_bytes head.now) fields.now) }
{
    for field in fields {
        if is_named(head, field, name) {
            return Some(field.value.of(head));
        }
    }
    None
}

fn agree(head: &[u8], fields: &[HeaderSpan], name: &[u8], value: &[u8]) -> bool
    requires { All (IsHeaderWithin (length head.now)) fields.now }
    ensures { result ≡ agree name.now value.now (map (header_bytes head.now) fields.now) }
{
    for field in fields {
        if is_named(head, field, name) && value != field.value.of(head) {
            return false;
        }
    }
    true
}

fn are_digits(bytes: &[u8]) -> bool
    ensures { result ≡ list_all is_ascii_digit bytes.now }
{
    for byte in bytes {
        if !byte.is_ascii_digit() {
            return false;
        }
    }
    true
}

fn is_length(value: &[u8]) -> bool
    ensures { result ≡ is_length value.now }
{
    1 <= value.len() && value.len() <= 18 && are_digits(value)
}

// The number that digits write (RFC 9110, section 8.6).
fn length_of(digits: &[u8]) -> usize
    requires { is_length digits.now ≡ true }
    ensures { result ≡ digits_value 10 digits.now }
{
    let mut number = 0;
    for digit in digits {
        number = number * 10 + usize::from(*digit - b'0');
    }
    number
}

fn needs_length(method: &[u8]) -> bool
    ensures { result ≡ needs_length method.now }
{
    method == b"PUT".as_slice() || method == b"POST".as_slice()
}

/// The length of the body of a request, or why its head is refused.
pub fn body_length(head: &[u8], fields: &[HeaderSpan], method: &[u8]) -> Result<usize, ReadFault>
    requires { All (IsHeaderWithin (length head.now)) fields.now }
    ensures { result ≡ body_length method.now (map (header_bytes head.now) fields.now) }
{
    if has_field(head, fields, b"transfer-encoding") {
        return Err(ReadFault::BadHead);
    }
    let Some(value) = first_value(head, fields, b"content-length") else {
        return if needs_length(method) {
            Err(ReadFault::NoLength)
        } else {
            Ok(0)
        };
    };
    if !is_length(value) || !agree(head, fields, b"content-length", value) {
        return Err(ReadFault::BadHead);
    }
    let length = length_of(value);
    if length > BODY_LIMIT {
        Err(ReadFault::TooLong)
    } else {
        Ok(length)
    }
}

fn says_close(head: &[u8], field: &HeaderSpan) -> bool
    requires { IsHeaderWithin (length head.now) field.now }
    ensures { result ≡ (is_named (codes "connection") (header_bytes head.now field.now)
        && same_word (codes "close") (header_bytes head.now field.now).1) }
{
    is_named(head, field, b"connection") && same_word(b"close", field.value.of(head))
}

/// Whether the session closes after the request.
pub fn closes(head: &[u8], fields: &[HeaderSpan], minor: u8) -> bool
    requires { All (IsHeaderWithin (length head.now)) fields.now }
    ensures { result ≡ closes minor (map (header_bytes head.now) fields.now) }
{
    if minor == 0 {
        return true;
    }
    for field in fields {
        if says_close(head, field) {
            return true;
        }
    }
    false
}
