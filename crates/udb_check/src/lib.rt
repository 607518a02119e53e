//! The checker of refutations, and the lines of proofs and of full configurations.
#![tactic(auto)]

mod cells;
mod checker;
mod heads;
mod nodes;
mod printing;
mod reading;

pub use checker::{Path, check, find_flaw, none_meets};
pub use printing::print_proof;
pub use reading::{ProofFault, read_proof};
