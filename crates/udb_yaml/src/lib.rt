//! Reads and writes trees in the YAML profile.
#![tactic(auto)]

mod bytes;
mod flow;
mod frames;
mod indexed;
mod inline;
mod keys;
mod marks;
mod nodes;
mod print;
mod quotes;
mod reader;
mod rows;
mod scalars;
mod steps;

pub use print::write_tree;
pub use reader::read_tree;
pub use yaml_spec::{Mark, Pair, Pairs, Tree, Trees, YamlFault};
