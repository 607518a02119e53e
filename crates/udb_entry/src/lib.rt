//! The entries of the database, read from the texts of rows, and the constraints of a configuration.
#![tactic(auto)]

mod alphabets;
mod answers;
mod bodies;
mod chains;
mod conditions;
mod constraints;
mod domains;
mod encodings;
mod entries;
mod fields;
mod keys;
mod reading;
mod rules;
mod shows;
mod versions;

pub use alphabets::has_alphabet;
pub use answers::{Breach, Entry, EntryFault, Instructions};
pub use constraints::read_config;
pub use entry_tree::{
    ConfigEntry, ConfigKind, CsrEntry, Encoding, Encodings, ExtensionEntry, FieldEntries,
    FieldEntry, FunctionsEntry, Given, Givens, InstructionEntry, Member, Members, ParamEntry,
};
pub use reading::read_entry;
