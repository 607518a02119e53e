//! What a line at fault uses of that the profile leaves out.

ghost use Rattle.std.specs.Prelude.{◌≡◌, ◌≤◌, length, drop, false, IfOk};
ghost use Rattle.std.specs.Str.{IsCharBoundary};
ghost use Rattle.yaml_spec.specs.Spells.{at};
ghost use Rattle.yaml_spec.specs.Marks as spec;
ghost use Rattle.udb_yaml.specs.Answers as answers;

use crate::bytes;
use crate::keys::key_of;
use crate::steps::is_document;
use std::alloc::Global;
use udb_base::NoMemory;
use yaml_spec::Mark;

fn first_mark(text: &[u8]) -> Option<Mark>
    ensures { result ≡ spec.first_mark text.now }
{
    if text.len() == 0 {
        return None;
    }
    match text[0] {
        b'&' => Some(Mark::Anchor),
        b'*' => Some(Mark::Alias),
        b'!' => Some(Mark::Tag),
        _ => None,
    }
}

/// Whether a `- ` mark, or a space behind one, stands in front.
fn is_dashed(spaced: bool, text: &[u8]) -> bool
    ensures { result ≡ answers.is_dashed spaced text.now }
{
    if text.len() == 0 {
        return false;
    }
    (spaced && text[0] == b' ') || (text[0] == b'-' && bytes::begins(b' ', bytes::after(text, 1)))
}

/// How long the `- ` marks in front are.
fn dashes(text: &str) -> usize
    ensures rest { spec.undashed false text.now ≡ drop result text.now }
    ensures boundary { IsCharBoundary text.now result }
{
    let mut rest = text.as_bytes();
    let mut at = 0;
    let mut spaced = false;
    'marks: while is_dashed(spaced, rest) {
        rest = bytes::after(rest, 1);
        at += 1;
        spaced = true;
    }
    at
}

/// The mark behind `- ` marks and a key.
fn lead(alloc: Global, content: &str) -> Result<Option<Mark>, NoMemory>
    ensures { IfOk result (λ o. o ≡ spec.lead content.now) }
{
    let rest = bytes::text_after(content, dashes(content));
    match key_of(alloc, false, rest)? {
        None => Ok(first_mark(rest.as_bytes())),
        Some((_, count)) => {
            let behind = bytes::after(rest.as_bytes(), count);
            Ok(first_mark(bytes::after(behind, bytes::front(behind))))
        }
    }
}

fn own_mark(column: usize, content: &[u8]) -> Option<Mark>
    ensures { result ≡ spec.own_mark (at column content.now) }
{
    if column == 0 && bytes::begins(b'%', content) {
        return Some(Mark::Directive);
    }
    if is_document(b'-', column, content) || is_document(b'.', column, content) {
        return Some(Mark::Document);
    }
    None
}

/// The mark of a line.
pub fn line_mark(alloc: Global, column: usize, content: &str) -> Result<Option<Mark>, NoMemory>
    ensures { IfOk result (λ o. o ≡ spec.line_mark (at column content.now)) }
{
    match lead(alloc, content)? {
        Some(word) => Ok(Some(word)),
        None => Ok(own_mark(column, content.as_bytes())),
    }
}
