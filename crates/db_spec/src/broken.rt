//! The first broken rule.

use udb_base::{Kind, Lines, Name};

/// A rule that tables break, by its number, with the lines that show the breach. The kind and the name
/// are those of the entry at which it is broken; the rule that there is a valid full configuration
/// stands at no entry and has neither.
#[derive(Drop)]
pub struct Broken {
    pub kind: Option<Kind>,
    pub name: Option<Name>,
    pub rule: u8,
    pub shows: Lines,
}
