//! Inline values.

ghost use Rattle.std.specs.Prelude.{◌≡◌, ◌<◌, length, IfOk};
ghost use Rattle.yaml_spec.specs.Reading as spec;
ghost use Rattle.udb_yaml.specs.Places.{EndsWithin, ends_by};

use crate::bytes;
use crate::flow::{flow, quoted_text};
use crate::keys::is_plain;
use crate::quotes::quote_of;
use crate::scalars::meaning;
use std::alloc::Global;
use udb_base::NoMemory;
use yaml_spec::{Got, Tree};

/// A value behind which its line ends.
fn ends_line(read: Option<(Tree, usize)>, text: &[u8]) -> Option<Got>
    requires { EndsWithin text.now read }
    ensures { result ≡ ends_by text.now read }
{
    match read {
        None => None,
        Some((value, count)) => {
            if bytes::is_tail(bytes::after(text, count)) {
                Some(Got::Value(value))
            } else {
                None
            }
        }
    }
}

/// The head of a block scalar, behind `|` or `>`.
fn head(folds: bool, rest: &[u8]) -> Option<Got>
    ensures { result ≡ spec.head_value folds rest.now }
{
    if bytes::is_tail(rest) {
        return Some(Got::Head(folds, true));
    }
    if bytes::begins(b'-', rest) && bytes::is_tail(bytes::after(rest, 1)) {
        return Some(Got::Head(folds, false));
    }
    None
}

fn plain_value(alloc: Global, text: &str) -> Result<Option<Got>, NoMemory>
    ensures { IfOk result (λ o. o ≡ spec.plain_value (spec.lean text.now) (spec.tail text.now)) }
{
    let bytes = text.as_bytes();
    let count = bytes::lean(bytes);
    let scalar = bytes::text_before(text, count);
    if is_plain(scalar.as_bytes(), bytes::after(bytes, count)) {
        Ok(Some(Got::Value(meaning(alloc, scalar)?)))
    } else {
        Ok(None)
    }
}

/// The inline value that a text is, where so many lists and maps may still stand in one another.
pub fn inline(alloc: Global, room: u32, text: &str) -> Result<Option<Got>, NoMemory>
    ensures { IfOk result (λ o. o ≡ spec.inline room text.now) }
{
    match quote_of(text.as_bytes()) {
        Some(place) => {
            let read = quoted_text(alloc, place, text)?;
            Ok(ends_line(read, text.as_bytes()))
        }
        None => unquoted(alloc, room, text),
    }
}

fn unquoted(alloc: Global, room: u32, text: &str) -> Result<Option<Got>, NoMemory>
    ensures { IfOk result (λ o. o ≡ spec.other_value room text.now) }
{
    let bytes = text.as_bytes();
    if bytes.len() == 0 {
        return Ok(None);
    }
    match bytes[0] {
        b'|' => Ok(head(false, bytes::after(bytes, 1))),
        b'>' => Ok(head(true, bytes::after(bytes, 1))),
        b'[' | b'{' => {
            let read = flow(alloc, room, text)?;
            Ok(ends_line(read, bytes))
        }
        _ => plain_value(alloc, text),
    }
}
