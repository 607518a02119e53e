//! Manuals.

use idl_tree::{Body, FieldKind, Functions, ResetValue};
use udb_base::{Full, Lines, Many, Name};

/// The lines of an entry's long name, description and assembly; only instructions have assembly.
#[derive(Drop)]
pub struct PartText {
    pub long_name: Lines,
    pub description: Lines,
    pub assembly: Lines,
}

/// A field of a CSR as the manual shows it, with a completion that has it. `places` are the rows
/// of its table, each without the leading `| `.
#[derive(Drop)]
pub struct ShownField {
    pub name: Name,
    pub completion: Full,
    pub text: PartText,
    pub places: Lines,
    pub kind: FieldKind,
    pub reset: ResetValue,
    pub write: Option<Body>,
}

/// Shown fields, in name order.
pub type ShownFields = Many<ShownField>;

/// What a part shows beside its texts. Tables are kept as their rows, each without the leading
/// `| `; bodies are statements alone.
#[derive(Drop)]
pub enum Shown {
    Extension {
        versions: Lines,
    },
    Parameter {
        values: Lines,
    },
    Instruction {
        matches: Lines,
        variables: Lines,
        body: Body,
    },
    Csr {
        register: Lines,
        fields: ShownFields,
    },
    Functions {
        functions: Functions,
    },
}

/// An entry as the manual shows it, with a completion that has it.
#[derive(Drop)]
pub struct Part {
    pub name: Name,
    pub completion: Full,
    pub text: PartText,
    pub shown: Shown,
}

/// Parts, by kind and name.
pub type Parts = Many<Part>;

/// The manual of a configuration, with one of its completions.
#[derive(Drop)]
pub struct Manual {
    pub config: Name,
    pub completion: Full,
    pub parts: Parts,
}
