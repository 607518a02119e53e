//! The commands of the program over a bundle on its input.
#![tactic(auto)]

mod making;
mod manual;
mod running;
mod spaces;

pub use manual::manual_statuses;
pub use running::{one_status, run};
