//! The text of the trees of the instruction description language: of bodies, of functions and of
//! single nodes.
#![tactic(auto)]

mod expression_text;
mod function_lines;
mod nodes;
mod statement_lines;
mod width_text;

pub use function_lines::print_functions;
pub use nodes::print_node;
pub use statement_lines::{body_lines, print_body};
