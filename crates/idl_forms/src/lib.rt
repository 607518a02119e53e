//! What single forms of the ISA Description Language do: the values and the state that an evaluator
//! keeps, and each step that reads or changes them once its operands have their values.
#![tactic(auto)]

pub mod assignments;
pub mod bits;
pub mod fields;
pub mod harts;
pub mod kinds;
pub mod memory;
pub mod names;
pub mod operators;
pub mod results;
pub mod scenes;
pub mod values;
