//! The commands over a bundle's tables that search for a completion or check a proof that there is
//! none.
#![tactic(auto)]

mod answers;
mod commands;
mod texts;

pub use commands::{check_proof, refute};
