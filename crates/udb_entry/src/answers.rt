//! What is answered of a row.

use entry_tree::{
    ConfigEntry, CsrEntry, ExtensionEntry, FunctionsEntry, InstructionEntry, ParamEntry,
};
use std::alloc::AllocError;
use udb_base::{Lines, Many};

/// An entry, read from the text of its row.
#[derive(Drop)]
pub enum Entry {
    Extension(ExtensionEntry),
    Param(ParamEntry),
    Instruction(InstructionEntry),
    Csr(CsrEntry),
    Functions(FunctionsEntry),
    Config(ConfigEntry),
}

/// The instructions of a database as they were read, in the order of their names.
pub type Instructions = Many<InstructionEntry>;

/// A rule that an entry breaks, with the lines that show it. Rules are numbered as the documents of
/// the repository number them.
#[derive(Drop)]
pub struct Breach {
    pub rule: u8,
    pub shows: Lines,
}

/// Why a row gives no entry.
#[derive(Drop)]
pub enum EntryFault {
    /// There was no memory.
    Memory,
    /// The first rule that the row breaks, with the lines that show it.
    Broken { rule: u8, shows: Lines },
}

impl From<AllocError> for EntryFault {
    ghost use Rattle.std.specs.Prelude.{◌≡◌};
    ghost use Rattle.udb_entry.specs.declared.answers.EntryFault.TheVariants.{Memory};

    ghost from_gives = { λ _ e. e ≡ Memory };

    fn from(_: AllocError) -> EntryFault {
        EntryFault::Memory
    }
}
