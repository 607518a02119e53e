//! Manuals as text.
#![tactic(auto)]

mod printing;

pub use manual_spec::{Manual, Part, PartText, Parts, Shown, ShownField, ShownFields};
pub use printing::print_manual;
