//! Machinery: what one line shows.

use crate::state::Group;
use crate::tree::Tree;
use udb_base::Chars;

/// What a line begins with: a mark of a list or map with its key. The number is how many bytes of
/// the line stand before what follows the mark.
#[derive(Drop)]
pub enum Sight {
    /// A mark with nothing after it.
    Bare(Group, Chars),
    /// A mark, and something after it.
    Before(Group, Chars, usize),
    /// No mark.
    Other,
}

/// What stands on a line where no mark does.
#[derive(Drop)]
pub enum Got {
    Value(Tree),
    /// The head of a block scalar: whether it folds, and whether it keeps its last line's end.
    Head(bool, bool),
}

/// A place between quotes.
#[derive(Clone, Copy)]
pub enum Inner {
    /// Between double quotes.
    Double,
    /// Behind a backslash.
    Escaped,
    /// Before so many more hexadecimal digits, behind digits of this value.
    Digits(u32, u32),
    /// Between single quotes.
    Single,
    /// Behind a single quote, which may end the scalar or be doubled.
    Quote,
}

/// What one more byte does between quotes.
#[derive(Clone, Copy)]
pub enum Turn {
    Fault,
    /// The byte is the closing quote.
    Last,
    /// The byte before was the closing quote.
    Past,
    /// The byte gives nothing yet.
    Goes(Inner),
    /// The byte stands for itself.
    Byte(Inner),
    /// The byte ends an escape, which gives this character.
    Gives(char),
}
