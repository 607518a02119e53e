//! The manual as a tree, and the definitions of its text and of what it has to show.
#![tactic(auto)]

mod manuals;

pub use manuals::{Manual, Part, PartText, Parts, Shown, ShownField, ShownFields};
