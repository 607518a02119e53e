//! What a tree is at its root, and what stands under a key of a map's entries.

ghost use Rattle.std.specs.Prelude.{◌≡◌};
ghost use Rattle.std.specs.Option.{option_map, option_copied};
ghost use Rattle.yaml_spec.specs.Trees as spec;

use crate::tree::{Pair, Tree};

impl Tree {
    /// Whether the tree is Null.
    #[tactic(auto, using(crate::proofs::TreeLaws::layers), unfolding(crate::specs::Trees::is_null))]
    pub fn is_null(&self) -> bool
        ensures { result ≡ spec.is_null self.now }
    {
        match self {
            Tree::Null => true,
            _ => false,
        }
    }

    /// The Flag that the tree is, or none.
    #[tactic(auto, using(crate::proofs::TreeLaws::layers), unfolding(crate::specs::Trees::flag_of))]
    pub fn as_flag(&self) -> Option<bool>
        ensures { result ≡ spec.flag_of self.now }
    {
        match self {
            Tree::Flag(flag) => Some(*flag),
            _ => None,
        }
    }

    /// The number that the tree is, or none.
    #[tactic(auto, using(crate::proofs::TreeLaws::layers), unfolding(crate::specs::Trees::int_of))]
    pub fn as_int(&self) -> Option<i128>
        ensures { result ≡ spec.int_of self.now }
    {
        match self {
            Tree::Int(number) => Some(*number),
            _ => None,
        }
    }

    /// The text that the tree is, or none.
    #[tactic(auto, using(crate::proofs::TreeLaws::layers), unfolding(crate::specs::Trees::text_of))]
    pub fn as_text(&self) -> Option<&str>
        ensures { option_map (λ s. s.now) result ≡ spec.text_of self.now }
    {
        match self {
            Tree::Text(text) => Some(text.as_str()),
            _ => None,
        }
    }

    /// The items of the list that the tree is, or none.
    #[tactic(auto, using(crate::proofs::TreeLaws::layers), unfolding(crate::specs::Trees::items_of))]
    pub fn as_list(&self) -> Option<&[Tree]>
        ensures { option_map (λ s. s.now) result ≡ spec.items_of self.now }
    {
        match self {
            Tree::List(items) => Some(items.as_slice()),
            _ => None,
        }
    }

    /// The entries of the map that the tree is, or none.
    #[tactic(auto, using(crate::proofs::TreeLaws::layers), unfolding(crate::specs::Trees::entries_of))]
    pub fn as_map(&self) -> Option<&[Pair]>
        ensures { option_map (λ s. s.now) result ≡ spec.entries_of self.now }
    {
        match self {
            Tree::Map(entries) => Some(entries.as_slice()),
            _ => None,
        }
    }
}

/// The value of the first entry with the key, or none.
pub fn value_under<'a>(entries: &'a [Pair], key: &str) -> Option<&'a Tree>
    ensures { option_copied result ≡ spec.value_under entries.now key.now }
{
    for entry in entries {
        if entry.key.as_str() == key {
            return Some(&entry.value);
        }
    }
    None
}
