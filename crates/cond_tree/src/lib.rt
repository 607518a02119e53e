//! Conditions, requirements and members of extension lists, as the trees of entries spell them.
#![tactic(auto)]

mod conds;
mod forms;
mod members;
mod values;

pub use conds::{DEEPEST, read_cond};
pub use members::{read_implemented, read_members, read_requirements};
pub use values::read_value;
