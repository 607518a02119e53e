//! The whole numbers of widths.
#![tactic(auto)]

mod numbers;
mod scopes;

pub use numbers::{clip, difference, larger, product, sum, width_value};
pub use scopes::{BitsOf, BitsScope, bits_among};
