//! The exact reader of bundles: rows of the tables, an image, a proof, and whether the shipped rows
//! belong to it, from bytes, or the line at which no bundle goes on.
#![tactic(auto)]

mod bundle;
mod faults;
mod headings;
mod lines;
mod numbers;
mod reader;
mod reading;

pub use bundle::{Bundle, BundleFault, Rows, Words};
pub use reader::read_bundle;
