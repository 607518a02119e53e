//! Values in flow.

ghost use Rattle.std.specs.Prelude.{◌≡◌, ◌+◌, ◌<◌, ◌≤◌, length, drop, map, IfOk, slice_index, if◌then◌else◌, eqb, IsUtf8};
ghost use Rattle.std.specs.Str.{IsCharBoundary};
ghost use Rattle.yaml_spec.specs.Line as line;
ghost use Rattle.yaml_spec.specs.Reading as spec;
ghost use Rattle.udb_yaml.specs.Places.{Takes, Reads, ReadsPart, SignAt};
ghost use Rattle.udb_yaml.specs.Clauses.{ReadsQuoted, ReadsRest, ReadsAllParts};

use crate::bytes;
use crate::indexed::IndexedPairs;
use crate::keys::{has_flow, is_plain, key_of};
use crate::quotes::{quote_of, read_quoted};
use crate::scalars::meaning;
use std::alloc::Global;
use udb_base::{Chars, NoMemory};
use yaml_spec::{Group, Inner, Pair, Pairs, Tree, Trees};

/// Whether no part has this key.
pub fn is_new(group: Group, key: &Chars, parts: &IndexedPairs) -> bool
    ensures { result ≡ line.is_new group key.now parts.now }
{
    match group {
        Group::Listed => true,
        Group::Mapped => !parts.has(key),
    }
}

/// The values of parts.
fn values(alloc: Global, parts: Pairs) -> Result<Trees, NoMemory>
    ensures { IfOk result (λ xs. xs ≡ map line.value_of parts) }
{
    let mut all = Trees::new(alloc);
    let mut left = parts;
    let mut turned = Pairs::new(alloc);
    'turns: while let Some(part) = left.pop() {
        turned.push(part)?;
    }
    'values: while let Some(part) = turned.pop() {
        let Pair { key: _, value } = part;
        all.push(value)?;
    }
    Ok(all)
}

/// The list or map of parts.
pub fn whole(alloc: Global, group: Group, parts: Pairs) -> Result<Tree, NoMemory>
    ensures { IfOk result (λ x. x ≡ line.whole group parts) }
{
    match group {
        Group::Listed => Ok(Tree::List(values(alloc, parts)?)),
        Group::Mapped => Ok(Tree::Map(parts)),
    }
}

fn closing(group: Group) -> u8
    ensures { result ≡ line.closing group }
{
    match group {
        Group::Listed => b']',
        Group::Mapped => b'}',
    }
}

/// A plain scalar in flow, up to the first of `, [ ] { }` and without spaces at its end (YAML 1.2.2, 7.3.3).
fn plain(alloc: Global, text: &str) -> Result<Option<(Tree, usize)>, NoMemory>
    ensures { IfOk result (λ o. Reads text.now (spec.plain_in_flow text.now) o) }
{
    let bytes = text.as_bytes();
    let count = bytes::plain(bytes);
    let scalar = bytes::text_before(text, count);
    if is_plain(scalar.as_bytes(), bytes::after(bytes, count)) && !has_flow(scalar.as_bytes()) {
        Ok(Some((meaning(alloc, scalar)?, count)))
    } else {
        Ok(None)
    }
}

/// A quoted text from its first quote on.
pub fn quoted_text(
    alloc: Global,
    place: Inner,
    text: &str,
) -> Result<Option<(Tree, usize)>, NoMemory>
    requires some { 0 < length text.now }
    requires quote { slice_index text.now 0 < 128 }
    ensures { IfOk result (λ o. ReadsQuoted place text.now o) }
{
    match read_quoted(alloc, place, bytes::text_after(text, 1))? {
        None => Ok(None),
        Some((value, count)) => Ok(Some((Tree::Text(value), count + 1))),
    }
}

/// What stands before a part of a flow collection: nothing before an item; `key:` with spaces, or a
/// quoted key with them, before an entry (YAML 1.2.2, 7.4).
fn head(alloc: Global, group: Group, text: &str) -> Result<Option<(Chars, usize)>, NoMemory>
    ensures { IfOk result (λ o. Takes text.now (spec.flow_head group text.now) o) }
{
    match group {
        Group::Listed => Ok(Some((Chars::new(alloc), 0))),
        Group::Mapped => match key_of(alloc, true, text)? {
            None => Ok(None),
            Some((key, count)) => {
                let rest = bytes::after(text.as_bytes(), count);
                if bytes::begins(b' ', rest) {
                    Ok(Some((key, count + bytes::front(rest))))
                } else {
                    Ok(None)
                }
            }
        },
    }
}

/// A flow node, and how long it is: a quoted scalar, `[..]`, `{..}` or a plain scalar (YAML 1.2.2, 7.5).
/// So many lists and maps may still stand in one another.
#[cycle(flow)]
pub fn flow(alloc: Global, room: u32, text: &str) -> Result<Option<(Tree, usize)>, NoMemory>
    requires { IsUtf8 text.now }
    ensures { IfOk result (λ o. Reads text.now (spec.flow room text.now) o) }
{
    match quote_of(text.as_bytes()) {
        Some(place) => quoted_text(alloc, place, text),
        None => {
            if bytes::begins(b'[', text.as_bytes()) {
                group(alloc, room, Group::Listed, text)
            } else if bytes::begins(b'{', text.as_bytes()) {
                group(alloc, room, Group::Mapped, text)
            } else {
                plain(alloc, text)
            }
        }
    }
}

/// The place of the first part or the closing sign.
fn first(text: &str) -> usize
    requires some { 0 < length text.now }
    requires sign { slice_index text.now 0 < 128 }
    ensures place { result ≡ 1 + spec.front (drop 1 text.now) }
    ensures within { result ≤ length text.now }
    ensures boundary { IsCharBoundary text.now result }
{
    1 + bytes::front(bytes::after(text.as_bytes(), 1))
}

/// A flow sequence `[ part, .. ]` or a flow mapping `{ part, .. }` (YAML 1.2.2, 7.4), from its opening
/// sign on.
#[cycle(flow)]
fn group(
    alloc: Global,
    room: u32,
    group: Group,
    text: &str,
) -> Result<Option<(Tree, usize)>, NoMemory>
    requires utf8 { IsUtf8 text.now }
    requires some { 0 < length text.now }
    requires sign { slice_index text.now 0 ≡ line.opening group }
    ensures { IfOk result (λ o. Reads text.now (spec.flow room text.now) o) }
{
    if room == 0 {
        return Ok(None);
    }
    let place = first(text);
    rest(alloc, room - 1, group, place, text)
}

/// A flow collection behind its opening sign and spaces: the closing sign, or parts up to it.
#[cycle(flow)]
fn rest(
    alloc: Global,
    room: u32,
    group: Group,
    place: usize,
    text: &str,
) -> Result<Option<(Tree, usize)>, NoMemory>
    requires utf8 { IsUtf8 text.now }
    requires boundary { IsCharBoundary text.now place }
    ensures { IfOk result (λ o. ReadsRest room group place text.now o) }
{
    if place >= text.len() {
        return Ok(None);
    }
    if text.as_bytes()[place] == closing(group) {
        return Ok(Some((whole(alloc, group, Pairs::new(alloc))?, place + 1)));
    }
    match parts(alloc, room, group, bytes::text_after(text, place))? {
        None => Ok(None),
        Some((all, count)) => Ok(Some((whole(alloc, group, all)?, place + count))),
    }
}

/// The parts of a flow collection, with `,` and spaces between them, up to its closing sign.
#[cycle(flow)]
fn parts(
    alloc: Global,
    room: u32,
    group: Group,
    text: &str,
) -> Result<Option<(Pairs, usize)>, NoMemory>
    requires { IsUtf8 text.now }
    ensures { IfOk result (λ o. ReadsAllParts room group text.now o) }
{
    let mut before = IndexedPairs::new(alloc);
    let mut at = 0;
    let mut left = text.len() + 1;
    'parts: while left > 0 {
        left -= 1;
        match part(alloc, room, group, &before, bytes::text_after(text, at))? {
            None => return Ok(None),
            Some((part, count)) => {
                before = before.with(alloc, part)?;
                match find_sign(group, text.as_bytes(), at + count) {
                    Sign::Fault => return Ok(None),
                    Sign::Last(end) => return Ok(Some((before.into_pairs(), end))),
                    Sign::More(next) => at = next,
                }
            }
        }
    }
    Ok(None)
}

/// What stands behind a part and spaces.
enum Sign {
    Fault,
    /// The closing sign, and the place behind it.
    Last(usize),
    /// A comma, and the place behind it and spaces.
    More(usize),
}

fn find_sign(group: Group, bytes: &[u8], at: usize) -> Sign
    requires { at ≤ length bytes.now }
    ensures { SignAt group bytes.now at result }
{
    if at >= bytes.len() {
        return Sign::Fault;
    }
    if bytes[at] == closing(group) {
        return Sign::Last(at + 1);
    }
    if bytes[at] != b',' {
        return Sign::Fault;
    }
    Sign::More(at + 1 + bytes::front(bytes::after(bytes, at + 1)))
}

/// One part, an item or `key: value` with a new key, and how long it is with the spaces behind it.
#[cycle(flow)]
fn part(
    alloc: Global,
    room: u32,
    group: Group,
    before: &IndexedPairs,
    text: &str,
) -> Result<Option<(Pair, usize)>, NoMemory>
    requires { IsUtf8 text.now }
    ensures { IfOk result (λ o. ReadsPart group (spec.flow room) before.now text.now o) }
{
    match head(alloc, group, text)? {
        None => Ok(None),
        Some((key, count)) => {
            if !is_new(group, &key, before) {
                return Ok(None);
            }
            match flow(alloc, room, bytes::text_after(text, count))? {
                None => Ok(None),
                Some((value, more)) => {
                    let end = count + more;
                    let spaces = bytes::front(bytes::after(text.as_bytes(), end));
                    Ok(Some((Pair { key, value }, end + spaces)))
                }
            }
        }
    }
}
