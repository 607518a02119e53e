//! The pruner of bundles of the first path: bodies as far as given values and the tests round a
//! place settle them, and the completion that a manual shows.
#![tactic(auto)]

mod completing;
mod facts;
mod pruning;

pub use completing::{complete_bundle, completion};
pub use pruning::{prune, prune_bundle};
