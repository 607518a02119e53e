//! Which texts are names, and which bytes are texts of entries.

ghost use Rattle.std.specs.Prelude.{◌≡◌, ◌↔◌, ◌≤◌, ◌<◌, ◌+◌, ◌==◌, ℕ, length, IfOk, IsTrue, IsUtf8, count_by};
ghost use Rattle.udb_base.specs.Names.{IsName, IsNameByte};
ghost use Rattle.udb_base.specs.Texts.{IsBadLine, IsNotUtf8, IsNotUtf8At};

use crate::names::{Name, NameFault};
use crate::rows::{Text, TextFault};
use std::alloc::Global;

/// The most bytes that the text of one entry has.
pub const TEXT_LIMIT: usize = 65_536;

fn is_name_byte(byte: u8) -> bool
    ensures { IsTrue result ↔ IsNameByte byte }
{
    (0x21..=0x7e).contains(&byte) && byte != b'/' && byte != b'%' && byte != b'?' && byte != b'#'
}

fn is_name(text: &str) -> bool
    ensures { IsTrue result ↔ IsName text.now }
{
    let bytes = text.as_bytes();
    !bytes.is_empty() && bytes.len() <= 64 && bytes.iter().all(|byte| is_name_byte(*byte))
}

/// The name that a text is, as rows, commands and routes give it: 1 to 64 bytes, each visible ASCII
/// other than `/`, `%`, `?` and `#`, which have a meaning in a path (RFC 3986, section 2.2), so that
/// a name stands in a path as it is. `BadName` answers any other text, `Memory` want of memory.
pub fn name(alloc: Global, text: &str) -> Result<Name, NameFault>
    ensures ok { IfOk result (λ n. (n ≡ text.now) × IsName text.now) }
    ensures bad { (result ≡ Err NameFault.BadName) ↔ ¬ (IsName text.now) }
{
    if !is_name(text) {
        return Err(NameFault::BadName);
    }
    match Name::of(alloc, text) {
        Ok(name) => Ok(name),
        Err(_) => Err(NameFault::Memory),
    }
}

// The line in which the byte after a front stands.
fn line_after(front: &[u8]) -> u32
    requires { length front.now ≤ 65536 }
    ensures { result ≡ count_by (λ b. b == 10) front.now + 1 }
{
    front.iter().filter(|byte| **byte == b'\n').count() as u32 + 1
}

/// The text of an entry that bytes are: at most 65,536 of them, in UTF-8 (Unicode, table 3-7).
/// `TooLong` answers more bytes, whatever they are; `NotUtf8` names the line, from 1, of the first
/// byte that no UTF-8 text has at its place; `Memory` is want of memory.
pub fn text(alloc: Global, bytes: &[u8]) -> Result<Text, TextFault>
    ensures ok { IfOk result (λ t. (t ≡ bytes.now) × IsUtf8 bytes.now) }
    ensures too_long { (result ≡ Err TextFault.TooLong) ↔ (65536 < length bytes.now) }
    ensures not_utf8 { length bytes.now ≤ 65536 → ¬ (IsUtf8 bytes.now) → IsNotUtf8 result }
    ensures at_line { (line : ℕ) → IsNotUtf8At line result → IsBadLine bytes.now line }
{
    if bytes.len() > TEXT_LIMIT {
        return Err(TextFault::TooLong);
    }
    match std::str::from_utf8(bytes) {
        Ok(text) => match Text::of(alloc, text) {
            Ok(text) => Ok(text),
            Err(_) => Err(TextFault::Memory),
        },
        Err(fault) => Err(TextFault::NotUtf8 {
            line: line_after(&bytes[..fault.valid_up_to()]),
        }),
    }
}
