//! What texts in the YAML profile spell, the types of trees with look-up in them, and, as machinery
//! of the crate above, a reader of lists of lines with the laws on it. The calls on texts stand in
//! the crate above.
#![tactic(auto)]

mod look_up;
mod sights;
mod state;
mod tree;

pub use look_up::value_under;
pub use sights::{Got, Inner, Sight, Turn};
pub use state::{Block, Frame, Group, Leaf};
pub use tree::{Mark, Pair, Pairs, Tree, Trees, YamlFault};
