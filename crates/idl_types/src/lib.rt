//! Bodies that are typed, and programs all of whose bodies are.
#![tactic(auto)]

mod bodies;
mod costs;
mod demands;
mod faults;
mod laws;
mod names;
mod programs;

pub use bodies::{Typed, TypedBodies, check_body};
pub use faults::TypeFault;
pub use laws::{formulas_are_true, typed_bodies_are_never_stuck};
pub use programs::{TypedProgram, assemble};
pub use type_kinds::as_formula;
