//! Names, texts and rows, the plain types of conditions and spaces, and the traits of the outside
//! with objects in memory that meet them.
#![tactic(auto)]

mod accepted;
mod characters;
mod conditions;
mod copies;
mod fronts;
mod kinds;
mod lines;
mod lists;
mod memory;
mod memory_keeper;
mod memory_link;
mod names;
mod order;
mod outside;
mod refutations;
mod rows;
mod spaces;
mod versions;

pub use accepted::{TEXT_LIMIT, name, text};
pub use characters::Chars;
pub use conditions::{Cond, Conds, Test, Value};
pub use copies::{Copied, both, copy_all, copy_if_any, copy_three, copy_two};
pub use fronts::{number_of_text, strip_prefix};
pub use kinds::{Kind, kind_word};
pub use lines::{Lines, text_of_lines};
pub use lists::{are_distinct, is_among};
pub use memory::{MemorySink, MemorySource};
pub use memory_keeper::MemoryKeeper;
pub use memory_link::MemoryLink;
pub use names::{Name, NameFault};
pub use order::key_cmp;
pub use outside::{Failed, KeepFault, Keeper, Link, Sink, Source};
pub use refutations::{Known, Partial, Proof, Proofs};
pub use rows::{Row, RowKey, RowKeys, Text, TextFault};
pub use spaces::{
    Choices, Domain, ExtSpace, ExtSpaces, Full, Numbers, ParamSpace, ParamSpaces, Space, Values,
    Words,
};
pub use sqlite_items::{Boxed, Items};
pub use versions::{Compare, Listed, ListedVersions, Requirement, Requirements, Version};

/// A list of parts, which contracts see as the list itself: the one generic type for lists that
/// stand inside the type that they list.
pub type Many<T> = Items<T>;

/// Want of memory, the one answer that no clause ties to a cause.
pub type NoMemory = std::alloc::AllocError;
