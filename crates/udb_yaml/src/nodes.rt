//! Nodes that begin on a line.

ghost use Rattle.std.specs.Prelude.{◌≡◌, ◌+◌, suc, IfOk, option_map};
ghost use Rattle.yaml_spec.specs.Machine as spec;
ghost use Rattle.udb_yaml.specs.Steps.{mark_of, CanCutAt};
ghost use Rattle.udb_yaml.specs.Clauses.{inline_leaf, BeginsNode, BeginsBehind};

use crate::bytes;
use crate::frames::OpenFrame;
use crate::indexed::IndexedPairs;
use crate::inline::inline;
use crate::keys::sees;
use crate::rows::open_block;
use std::alloc::{AllocError, Global};
use udb_base::{Chars, Many, NoMemory};
use yaml_spec::{Got, Group, Leaf, Sight};

fn leaf(alloc: Global, least: usize, got: Option<Got>) -> Option<Leaf>
    ensures { result ≡ option_map (spec.leaf_of least) got }
{
    match got {
        None => None,
        Some(Got::Value(value)) => Some(Leaf::Done(value)),
        Some(Got::Head(folds, keeps)) => Some(Leaf::Block(open_block(alloc, least, folds, keeps))),
    }
}

/// An inline value, whose parent stands left of the least column.
fn value(alloc: Global, room: u32, least: usize, text: &str) -> Result<Option<Leaf>, NoMemory>
    ensures { IfOk result (λ o. o ≡ inline_leaf room least text.now) }
{
    let got = inline(alloc, room, text)?;
    Ok(leaf(alloc, least, got))
}

/// The column behind a column.
pub fn right_of(column: usize) -> Result<usize, NoMemory>
    ensures { IfOk result (λ n. n ≡ suc column) }
{
    match column.checked_add(1) {
        Some(next) => Ok(next),
        None => Err(AllocError),
    }
}

/// What stands behind a mark on its line.
#[derive(Clone, Copy)]
pub enum Place {
    /// Nothing.
    End,
    /// Something, so many bytes behind the line's first.
    Behind(Group, usize),
}

/// A node behind a mark; the frames of lists and maps that begin there are appended.
#[cycle(nodes)]
pub fn behind(
    alloc: Global,
    room: u32,
    column: usize,
    text: &str,
    place: Place,
    frames: &mut Many<OpenFrame>,
) -> Result<Option<Leaf>, NoMemory>
    requires { CanCutAt text.now place }
    ensures { IfOk result (λ o. BeginsBehind room column text.now place frames.old frames.new o) }
{
    match place {
        Place::End => Ok(Some(Leaf::Hole)),
        Place::Behind(Group::Mapped, count) => value(
            alloc,
            room,
            right_of(column)?,
            bytes::text_after(text, count),
        ),
        Place::Behind(Group::Listed, count) => {
            let inner = add(column, count)?;
            begin(
                alloc,
                room,
                right_of(column)?,
                inner,
                bytes::text_after(text, count),
                frames,
            )
        }
    }
}

/// The sum of two columns.
fn add(column: usize, count: usize) -> Result<usize, NoMemory>
    ensures { IfOk result (λ n. n ≡ column + count) }
{
    match column.checked_add(count) {
        Some(sum) => Ok(sum),
        None => Err(AllocError),
    }
}

/// The group and key of a mark, and what stands behind it.
pub fn mark(sight: Sight) -> Option<(Group, Chars, Place)>
    ensures { result ≡ mark_of sight }
{
    match sight {
        Sight::Other => None,
        Sight::Bare(group, key) => Some((group, key, Place::End)),
        Sight::Before(group, key, count) => Some((group, key, Place::Behind(group, count))),
    }
}

/// A node that begins at a column: a block sequence or mapping where a mark stands, else an inline value
/// (YAML 1.2.2, 8.2). Its parent stands left of the least column.
#[cycle(nodes)]
pub fn begin(
    alloc: Global,
    room: u32,
    least: usize,
    column: usize,
    text: &str,
    frames: &mut Many<OpenFrame>,
) -> Result<Option<Leaf>, NoMemory>
    ensures { IfOk result (λ o. BeginsNode room least column text.now frames.old frames.new o) }
{
    match mark(sees(alloc, text)?) {
        None => value(alloc, room, least, text),
        Some((group, key, place)) => {
            if room == 0 {
                return Ok(None);
            }
            let parts = IndexedPairs::new(alloc);
            frames.push(OpenFrame {
                group,
                column,
                parts,
                key,
            })?;
            behind(alloc, room - 1, column, text, place, frames)
        }
    }
}
