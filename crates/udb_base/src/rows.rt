//! Rows of the tables.

ghost use Rattle.std.specs.Prelude.{◌≡◌, IfOk};

use crate::{Kind, Many, Name, NoMemory};
use std::alloc::Global;
use std::marker::Model;

/// The text of an entry: UTF-8, seen as the list of its bytes.
#[derive(Debug, Drop)]
pub struct Text {
    text: String,
}

impl Model for Text {
    ghost use Rattle.std.specs.Prelude.{ℕ, List, string_bytes};

    ghost Value = { List ℕ };

    ghost view = { λ t. string_bytes t.text };
}

impl Text {
    // The text of bytes that were examined.
    pub(crate) fn of(alloc: Global, text: &str) -> Result<Text, NoMemory>
        ensures { IfOk result (λ t. t ≡ text.now) }
    {
        Ok(Text {
            text: String::from_str(alloc, text)?,
        })
    }

    /// The text as a slice.
    pub fn as_str(&self) -> &str
        ensures { result.now ≡ self.now }
    {
        self.text.as_str()
    }

    /// A copy.
    pub fn copy(&self, alloc: Global) -> Result<Text, NoMemory>
        ensures { IfOk result (λ t. t ≡ self.now) }
    {
        Text::of(alloc, self.as_str())
    }
}

/// A row: the entry of a kind and a name, as text.
#[derive(Debug, Drop)]
pub struct Row {
    pub kind: Kind,
    pub name: Name,
    pub text: Text,
}

/// The key of a row.
#[derive(Drop)]
pub struct RowKey {
    pub kind: Kind,
    pub name: Name,
}

/// Keys, which contracts see as the list itself.
pub type RowKeys = Many<RowKey>;

/// Why bytes are no text of an entry. Lines count from 1.
#[derive(Clone, Copy, Debug, PartialEq, Eq)]
pub enum TextFault {
    Memory,
    TooLong,
    NotUtf8 { line: u32 },
}
