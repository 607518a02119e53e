//! Machinery: what is open while lines are read.

use crate::tree::{Pairs, Tree};
use udb_base::{Chars, Many};

/// Lists and maps are read alike: an item of a list is a part without a key.
#[derive(Clone, Copy, Debug, PartialEq, Eq)]
pub enum Group {
    Listed,
    Mapped,
}

/// An open list or map: its column, its parts before the open one, and the key of that one.
#[derive(Drop)]
pub struct Frame {
    pub group: Group,
    pub column: usize,
    pub parts: Pairs,
    pub key: Chars,
}

/// A block scalar so far. `least` is the least column of its lines, `indentation` that of its first
/// line that isn't blank, `blanks` counts the blank lines since the last one that isn't, and
/// `deeper` says that the last one begins with a space.
#[derive(Drop)]
pub struct Block {
    pub least: usize,
    pub folds: bool,
    pub keeps: bool,
    pub indentation: Option<usize>,
    pub text: Chars,
    pub blanks: usize,
    pub deeper: bool,
}

/// What stands at the innermost place.
#[derive(Drop)]
pub enum Leaf {
    /// Nothing yet.
    Hole,
    /// A node that is whole.
    Done(Tree),
    /// A block scalar that more lines may follow.
    Block(Block),
}
