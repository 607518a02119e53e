//! Copies of the trees of the instruction description language. A copy equals its source, and the one
//! refusal is want of memory; the source is left as it was.
#![tactic(auto)]

mod expressions;
mod programs;
mod statements;
mod widths;

pub use expressions::{copy_expression, copy_expressions};
pub use programs::{CopiedPart, copy_parts};
pub use statements::{copy_statement, copy_statements};
pub use widths::{copy_shape, copy_width};
