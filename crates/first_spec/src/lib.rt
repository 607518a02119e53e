//! Bundles of the first path: their tree, and which bytes are which bundle.
#![tactic(auto)]

mod bundle;

pub use bundle::{FirstBundle, ParamEntries};
