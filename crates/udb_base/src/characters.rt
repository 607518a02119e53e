//! Text that a contract sees as the list of its bytes.

ghost use Rattle.std.specs.Prelude.{◌≡◌, [], ◌++◌, length, IfOk, OnOk, nat_eq, encode_utf8, string_bytes};
ghost use Rattle.std.specs.Cmp.Lexicographic.{pointwise, nat_list_eq_equiv};
ghost use Rattle.std.specs.Cmp.{partial_equiv_from_equiv};

use crate::NoMemory;
use std::alloc::Global;
use std::marker::Model;

/// A text in UTF-8, seen as the list of its bytes.
#[derive(Debug, Drop)]
pub struct Chars {
    text: String,
}

impl Model for Chars {
    ghost use Rattle.std.specs.Prelude.{ℕ, List, string_bytes};

    ghost Value = { List ℕ };

    ghost view = { λ c. string_bytes c.text };
}

impl Chars {
    /// The empty text.
    pub fn new(alloc: Global) -> Chars
        ensures { result ≡ [] }
    {
        Chars {
            text: String::new(alloc),
        }
    }

    /// A copy of a text.
    pub fn of(alloc: Global, text: &str) -> Result<Chars, NoMemory>
        ensures { IfOk result (λ c. c ≡ text.now) }
    {
        Ok(Chars {
            text: String::from_str(alloc, text)?,
        })
    }

    /// The text of a `String`, which takes no memory.
    pub fn from_string(text: String) -> Chars
        ensures { result ≡ string_bytes text }
    {
        Chars { text }
    }

    /// The text as a slice.
    pub fn as_str(&self) -> &str
        ensures { result.now ≡ self.now }
    {
        self.text.as_str()
    }

    /// The text's bytes.
    pub fn as_bytes(&self) -> &[u8]
        ensures { result.now ≡ self.now }
    {
        self.text.as_bytes()
    }

    /// How many bytes the text has.
    pub fn len(&self) -> usize
        ensures { result ≡ length self.now }
    {
        self.text.len()
    }

    /// Appends a text.
    pub fn push_str(&mut self, more: &str) -> Result<(), NoMemory>
        ensures { OnOk result (self.new ≡ self.old ++ more.now) }
    {
        self.text.push_str(more)
    }

    /// Appends a character.
    pub fn push(&mut self, character: char) -> Result<(), NoMemory>
        ensures { OnOk result (self.new ≡ self.old ++ encode_utf8 character) }
    {
        self.text.push(character)
    }
}

impl PartialEq for Chars {
    ghost eq = { pointwise nat_eq };

    ghost laws = { partial_equiv_from_equiv nat_list_eq_equiv };

    fn eq(&self, other: &Chars) -> bool {
        self.as_str() == other.as_str()
    }
}

impl Eq for Chars {
    ghost laws = { nat_list_eq_equiv };
}
