//! The grammar of bodies in the ISA Description Language as a relation between tokens and trees,
//! readers of lists of tokens, and the laws that tie the two.
#![tactic(auto)]

mod laws;

pub use laws::{body_faults, body_readings, function_faults, function_readings, one_tree};
