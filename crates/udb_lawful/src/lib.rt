//! Whether a space is lawful, and which name of a condition doesn't fit a space.
#![tactic(auto)]

mod domains;
mod fitting;
mod spaces;

pub use domains::{fits_domain, is_lawful_domain, lists_widths};
pub use fitting::{fits, misfit};
pub use spaces::is_lawful;
