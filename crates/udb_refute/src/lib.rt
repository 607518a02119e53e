//! The search for a completion that meets a condition, or a proof that there is none.
#![tactic(auto)]

mod boards;
mod cells;
mod choices;
mod completions;
mod search;
mod truth;
mod variables;

pub use search::{Found, find};
