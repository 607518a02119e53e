//! Trees, and what is answered where a text spells none.

use udb_base::{Chars, Many};

/// What a text in the profile spells.
#[derive(Debug, Drop)]
#[cycle(trees)]
pub enum Tree {
    /// `null`, `~`, or nothing at all.
    Null,
    /// `true` or `false`.
    Flag(bool),
    /// A whole number from -2^63 to 2^64-1.
    Int(i128),
    /// Any other scalar.
    Text(Chars),
    /// The items of a list, in order.
    List(Trees),
    /// The entries of a map, in order; their keys differ.
    Map(Pairs),
}

/// An entry of a map.
#[derive(Debug, Drop)]
#[cycle(trees)]
pub struct Pair {
    pub key: Chars,
    pub value: Tree,
}

/// The items of a list.
pub type Trees = Many<Tree>;

/// The entries of a map.
pub type Pairs = Many<Pair>;

/// What YAML has and the profile leaves out.
#[derive(Clone, Copy, Debug, PartialEq, Eq)]
pub enum Mark {
    /// `&name`.
    Anchor,
    /// `*name`.
    Alias,
    /// `!tag`.
    Tag,
    /// `---` or `...` where no document may begin or end.
    Document,
    /// A line that begins with `%`.
    Directive,
}

/// Why no tree is answered. Lines count from 1.
#[derive(Debug, Drop)]
pub enum YamlFault {
    /// There was no memory.
    Memory,
    /// The first lines up to this one spell no tree.
    Bad { line: u32 },
    /// The same, at a line that uses what the profile leaves out.
    Outside { line: u32, word: Mark },
}
