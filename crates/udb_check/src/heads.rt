//! The heads of proofs, read line by line.

ghost use Rattle.std.specs.Prelude.{◌≡◌, IfOk};
ghost use Rattle.udb_spec.specs.ProofText.{HasShortPlaces};
ghost use Rattle.udb_check.specs.Heads.{IsHeadOf, IsNumberAfter, IsNamedBy, IsLeafAfter, IsSplitAfter, IsCutAfter, places, arity};

use crate::printing::name_at;
use std::alloc::Global;
use udb_base::{NoMemory, number_of_text, strip_prefix};
use udb_cond::Space;

/// A node of a proof without its children.
#[derive(Clone, Copy)]
pub(crate) enum Head {
    Leaf { number: u32 },
    Split { param: bool, place: u32, cells: u32 },
    Cut { place: u32, at: u64 },
}

impl Head {
    /// How many children the node has.
    pub(crate) fn arity(self) -> u32
        ensures { result ≡ arity self }
    {
        match self {
            Head::Leaf { number: _ } => 0,
            Head::Split {
                param: _,
                place: _,
                cells,
            } => cells,
            Head::Cut { place: _, at: _ } => 2,
        }
    }
}

// A number after a name and a space.
fn number_after(alloc: Global, text: &[u8], name: &[u8]) -> Result<Option<u64>, NoMemory>
    ensures { IfOk result (IsNumberAfter name.now text.now) }
{
    let Some(rest) = strip_prefix(text, name) else {
        return Ok(None);
    };
    match strip_prefix(rest, b" ") {
        Some(digits) => number_of_text(alloc, digits),
        None => Ok(None),
    }
}

fn places(space: &Space, param: bool) -> usize
    ensures { result ≡ places space.now param }
{
    if param {
        space.params.len()
    } else {
        space.extensions.len()
    }
}

// The place of a name of the space, and the number after it.
#[tactic(auto, using(crate::proofs::HeadLaws::place_laws))]
fn named(
    alloc: Global,
    space: &Space,
    param: bool,
    text: &[u8],
) -> Result<Option<(u32, u64)>, NoMemory>
    requires { HasShortPlaces space.now }
    ensures { IfOk result (IsNamedBy space.now param text.now) }
{
    for place in 0..places(space, param) {
        let name = name_at(space, param, place).as_bytes();
        if let Some(number) = number_after(alloc, text, name)? {
            return Ok(Some((place as u32, number)));
        }
    }
    Ok(None)
}

fn leaf(alloc: Global, text: &[u8]) -> Result<Option<Head>, NoMemory>
    ensures { IfOk result (IsLeafAfter text.now) }
{
    let Some(number) = number_of_text(alloc, text)? else {
        return Ok(None);
    };
    if number > u64::from(u32::MAX) {
        return Ok(None);
    }
    Ok(Some(Head::Leaf {
        number: number as u32,
    }))
}

fn split(alloc: Global, space: &Space, param: bool, text: &[u8]) -> Result<Option<Head>, NoMemory>
    requires { HasShortPlaces space.now }
    ensures { IfOk result (IsSplitAfter space.now param text.now) }
{
    let Some((place, cells)) = named(alloc, space, param, text)? else {
        return Ok(None);
    };
    if cells > u64::from(u32::MAX) {
        return Ok(None);
    }
    Ok(Some(Head::Split {
        param,
        place,
        cells: cells as u32,
    }))
}

fn cut(alloc: Global, space: &Space, text: &[u8]) -> Result<Option<Head>, NoMemory>
    requires { HasShortPlaces space.now }
    ensures { IfOk result (IsCutAfter space.now text.now) }
{
    match named(alloc, space, true, text)? {
        Some((place, at)) => Ok(Some(Head::Cut { place, at })),
        None => Ok(None),
    }
}

/// The head that a line spells.
pub(crate) fn read_head(alloc: Global, space: &Space, line: &[u8]) -> Result<Option<Head>, NoMemory>
    requires { HasShortPlaces space.now }
    ensures { IfOk result (IsHeadOf space.now line.now) }
{
    if let Some(text) = strip_prefix(line, b"leaf ") {
        return leaf(alloc, text);
    }
    if let Some(text) = strip_prefix(line, b"split extension ") {
        return split(alloc, space, false, text);
    }
    if let Some(text) = strip_prefix(line, b"split parameter ") {
        return split(alloc, space, true, text);
    }
    match strip_prefix(line, b"cut parameter ") {
        Some(text) => cut(alloc, space, text),
        None => Ok(None),
    }
}
