//! The bundle as a tree.

use entry_tree::{ConfigEntry, InstructionEntry, ParamEntry};
use udb_base::Many;

/// Parameters, in the order of their names.
pub type ParamEntries = Many<ParamEntry>;

/// The entries of a bundle of the first path.
#[derive(Drop)]
pub struct FirstBundle {
    pub params: ParamEntries,
    pub instruction: InstructionEntry,
    pub config: ConfigEntry,
}
