//! A recogniser of bodies and functions with its stack on the heap and no limit of nesting, as a
//! definition with its laws and in code: it finds the first token at which nothing goes on.
#![tactic(auto)]

mod exprs;
mod functions;
mod items;
mod laws;
mod parts;
mod pieces;
mod plans;
mod primaries;
mod stack;
mod stmts;
mod stops;
mod turns;
mod widths;

pub use laws::machine_reads;
pub use stops::{body_stop, functions_stop};
