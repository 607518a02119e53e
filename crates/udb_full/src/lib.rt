//! Full configurations as lines, and read from their lines.
#![tactic(auto)]

mod lines;
mod printing;
mod reading;
mod values;

pub use printing::{print_full, text_of_value};
pub use reading::{FullFault, read_full};
