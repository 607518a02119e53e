//! Locations of variables and of fields, as the trees of entries spell them.

ghost use Rattle.std.specs.Prelude.{◌≡◌, IfOk};
ghost use Rattle.entry_place.specs.Places as spec;

use crate::bits::{has_bits_within, has_each_bit_once, width};
use crate::numbers::{bit_of, parts};
use idl_tree::{BitPart, BitParts};
use std::alloc::Global;
use udb_base::{Many, NoMemory};
use yaml_spec::Tree;

fn bit_number(number: i128) -> Option<u16>
    ensures { result ≡ spec.bit_number number }
{
    u16::try_from(number).ok()
}

fn number_location(alloc: Global, number: i128) -> Result<Option<BitParts>, NoMemory>
    ensures { IfOk result (λ r. r ≡ spec.number_location number) }
{
    match bit_of(bit_number(number)) {
        Some(part) => {
            let mut parts = Many::new(alloc);
            parts.push(part)?;
            Ok(Some(parts))
        }
        None => Ok(None),
    }
}

fn text_location(alloc: Global, tree: &Tree) -> Result<Option<BitParts>, NoMemory>
    ensures { IfOk result (λ r. r ≡ spec.text_location tree.now) }
{
    match tree.as_text() {
        Some(text) => parts(alloc, text),
        None => Ok(None),
    }
}

fn location(alloc: Global, tree: &Tree) -> Result<Option<BitParts>, NoMemory>
    ensures { IfOk result (λ r. r ≡ spec.location_of tree.now) }
{
    match tree.as_int() {
        Some(number) => number_location(alloc, number),
        None => text_location(alloc, tree),
    }
}

/// The parts of a variable's location, the highest bits of the value first: a text of parts that
/// are joined by `|`, each `h-l` or `b`, or the number of one bit. There are none where the tree
/// spells no location, or one of more than 32 bits or with a bit twice.
pub fn variable_location(alloc: Global, tree: &Tree) -> Result<Option<BitParts>, NoMemory>
    ensures { IfOk result (λ r. r ≡ spec.variable_location tree.now) }
{
    match location(alloc, tree)? {
        Some(parts) => {
            if has_bits_within(parts.as_slice(), 32) && has_each_bit_once(parts.as_slice()) {
                Ok(Some(parts))
            } else {
                Ok(None)
            }
        }
        None => Ok(None),
    }
}

fn field_part(parts: &[BitPart]) -> Option<BitPart>
    ensures { result ≡ spec.field_part parts.now }
{
    match parts {
        [part] => { if width(part) <= 64 { Some(*part) } else { None } }
        _ => None,
    }
}

/// The place of a field: a location of one part, which has at most 64 bits. There is none where the
/// tree spells no such location.
pub fn field_place(alloc: Global, tree: &Tree) -> Result<Option<BitPart>, NoMemory>
    ensures { IfOk result (λ r. r ≡ spec.field_place tree.now) }
{
    match location(alloc, tree)? {
        Some(parts) => Ok(field_part(parts.as_slice())),
        None => Ok(None),
    }
}
