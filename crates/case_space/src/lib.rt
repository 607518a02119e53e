//! Small spaces for programs of cases, and whether a search can be asked about them.
#![tactic(auto)]

mod limits;
mod spaces;

pub use limits::is_small;
pub use spaces::{cond_of, part_of, space_of};
