//! Keys and marks of a line.

ghost use Rattle.std.specs.Prelude.{◌≡◌, ◌+◌, ◌<◌, ◌≤◌, ◌^◌, ◌∷◌, [], length, drop, IfOk, slice_index};
ghost use Rattle.std.specs.Bool.{OnTrue};
ghost use Rattle.yaml_spec.specs.Line as line;
ghost use Rattle.yaml_spec.specs.Reading as spec;
ghost use Rattle.udb_yaml.specs.Places as place;
ghost use Rattle.udb_yaml.specs.Places.{Takes, key_in, plain_key_in, Shows};
ghost use Rattle.udb_yaml.specs.Clauses.{TakesQuotedKey};

use crate::bytes;
use crate::quotes::{quote_of, read_quoted};
use crate::scalars::means_text;
use std::alloc::Global;
use udb_base::{Chars, NoMemory};
use yaml_spec::{Group, Inner, Sight};

/// Whether a plain scalar can't begin with this byte.
fn is_sign(byte: u8) -> bool
    ensures { result ≡ line.is_sign byte }
{
    bytes::is_flow(byte)
        || matches!(
            byte,
            b'#' | b'&' | b'*' | b'!' | b'|' | b'>' | b'\'' | b'"' | b'%' | b'@' | b'`'
        )
}

/// Whether a plain scalar can't begin with this byte before a space or the end.
fn is_mark(byte: u8) -> bool
    ensures { result ≡ line.is_mark byte }
{
    matches!(byte, b'-' | b'?' | b':')
}

fn may_begin(text: &[u8], after: &[u8]) -> bool
    ensures { result ≡ line.may_begin text.now after.now }
{
    if text.len() == 0 || is_sign(text[0]) || text[0] == b' ' {
        return false;
    }
    if text.len() == 1 {
        return !(is_mark(text[0]) && bytes::parts_here(after));
    }
    !(is_mark(text[0]) && text[1] == b' ')
}

fn has(byte: u8, text: &[u8]) -> bool
    ensures { result ≡ line.has byte text.now }
{
    'bytes: for other in text {
        if *other == byte {
            return true;
        }
    }
    false
}

fn ends_in(byte: u8, text: &[u8]) -> bool
    ensures { result ≡ line.ends_in byte text.now }
{
    text.len() > 0 && text[text.len() - 1] == byte
}

/// Whether a text is a plain scalar, before what follows it (YAML 1.2.2, 7.3.3).
pub fn is_plain(text: &[u8], after: &[u8]) -> bool
    ensures { result ≡ line.is_plain text.now after.now }
{
    may_begin(text, after)
        && !has(b'\t', text)
        && !bytes::has_pair(b':', b' ', text)
        && !bytes::has_pair(b' ', b'#', text)
        && !ends_in(b' ', text)
        && !ends_in(b':', text)
}

/// Whether a text has one of `, [ ] { }`.
pub fn has_flow(text: &[u8]) -> bool
    ensures { result ≡ line.has_flow text.now }
{
    bytes::signless(text) < text.len()
}

fn is_plain_key(flow: bool, key: &str) -> bool
    ensures { result ≡ place.is_plain_key flow key.now }
{
    is_plain(key.as_bytes(), b":") && !(flow && has_flow(key.as_bytes())) && means_text(key)
}

/// A plain key, and how long it is with its colon.
fn plain_key(alloc: Global, flow: bool, text: &str) -> Result<Option<(Chars, usize)>, NoMemory>
    ensures { IfOk result (λ o. Takes text.now (plain_key_in flow text.now) o) }
{
    match bytes::colon(text.as_bytes()) {
        None => Ok(None),
        Some(at) => {
            let key = bytes::text_before(text, at);
            if is_plain_key(flow, key) {
                Ok(Some((Chars::of(alloc, key)?, at + 1)))
            } else {
                Ok(None)
            }
        }
    }
}

/// A quoted key, and how long it is with its colon.
fn quoted_key(alloc: Global, place: Inner, text: &str) -> Result<Option<(Chars, usize)>, NoMemory>
    requires some { 0 < length text.now }
    requires quote { slice_index text.now 0 < 128 }
    ensures { IfOk result (λ o. TakesQuotedKey place text.now o) }
{
    match read_quoted(alloc, place, bytes::text_after(text, 1))? {
        None => Ok(None),
        Some((key, count)) => {
            let at = count + 1;
            let bytes = text.as_bytes();
            if at < bytes.len()
                && bytes[at] == b':'
                && bytes::parts_here(bytes::after(bytes, at + 1))
            {
                Ok(Some((key, at + 1)))
            } else {
                Ok(None)
            }
        }
    }
}

/// A key, and how long it is with its colon, behind which a space or the end stands.
pub fn key_of(alloc: Global, flow: bool, text: &str) -> Result<Option<(Chars, usize)>, NoMemory>
    ensures { IfOk result (λ o. Takes text.now (key_in flow text.now) o) }
{
    match quote_of(text.as_bytes()) {
        None => plain_key(alloc, flow, text),
        Some(place) => quoted_key(alloc, place, text),
    }
}

fn behind(group: Group, key: Chars, count: usize, rest: &[u8]) -> Sight
    requires { count + length rest.now < 2 ^ 64 }
    ensures { result ≡ spec.behind group key count rest.now }
{
    if bytes::is_tail(rest) {
        Sight::Bare(group, key)
    } else {
        Sight::Before(group, key, count + bytes::front(rest))
    }
}

/// Whether a line begins with `-` before a space or the end.
fn is_dash(text: &[u8]) -> bool
    ensures test { result ≡ place.is_dash text.now }
    ensures some { OnTrue result (0 < length text.now) }
{
    text.len() > 0 && text[0] == b'-' && bytes::parts_here(bytes::after(text, 1))
}

/// What a line begins with: `-`, a key with its colon, or neither (YAML 1.2.2, 8.2).
pub fn sees(alloc: Global, text: &str) -> Result<Sight, NoMemory>
    ensures { IfOk result (λ x. Shows text.now (spec.sees text.now) x) }
{
    let bytes = text.as_bytes();
    if is_dash(bytes) {
        return Ok(behind(Group::Listed, Chars::new(alloc), 1, bytes::after(bytes, 1)));
    }
    match key_of(alloc, false, text)? {
        None => Ok(Sight::Other),
        Some((key, count)) => Ok(behind(Group::Mapped, key, count, bytes::after(bytes, count))),
    }
}
