//! The checks of a body's nodes, in prefix order: what typing asks of each, and in which context.
#![tactic(auto)]

mod bodies;
mod expressions;
mod own;
mod statements;
mod targets;

pub use bodies::body_checks;
pub use expressions::push_checks;
