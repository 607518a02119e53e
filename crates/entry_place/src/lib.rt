//! Where the parts of instructions and registers stand: matches, and the locations of variables and
//! of fields.
#![tactic(auto)]

mod bits;
mod locations;
mod matches;
mod numbers;

pub use locations::{field_place, variable_location};
pub use matches::{fits_match, is_match};
