//! Bundles.

use udb_base::{Lines, Many, Row};

/// Rows of the tables, which contracts see as the list itself.
pub type Rows = Many<Row>;

/// Words of 32 bits, which contracts see as the list of their numbers.
pub type Words = Many<u32>;

/// What a bundle holds. Its rows stand in the order of the text, and no two have the same kind and
/// name; the text of each ends every line in a line feed, so it has as many lines as its heading says.
#[derive(Debug, Drop)]
pub struct Bundle {
    pub rows: Rows,
    /// The words of the image from address 0, each to be placed with its low byte first; without an
    /// image there are none.
    pub image: Words,
    /// The lines of the proof, not read any further; without a proof there are none.
    pub proof: Lines,
    /// Whether the word `shipped` stood there. It adds no rows here.
    pub shipped: bool,
}

/// Why bytes are no bundle. Lines count from 1; where lines are missing the line is one past the last.
#[derive(Clone, Copy, Debug, PartialEq, Eq)]
pub enum BundleFault {
    Memory,
    Line { number: u32 },
}
