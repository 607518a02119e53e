//! Demands on full configurations: which of them are costly, and in which full configuration one is
//! broken.
#![tactic(auto)]

mod breaches;
mod cases;
mod costs;
mod numbers;
mod presence;
mod search;
mod widths;

pub use costs::{Named, is_costly, named_by_both, named_in};
pub use search::breaker;
