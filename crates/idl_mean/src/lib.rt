//! The evaluator of the ISA Description Language: what bodies do to the state of a hart, and the
//! values that fields hold at reset.
#![tactic(auto)]

mod calls;
mod depth;
mod evaluator;
mod expressions;
mod prepared;
mod statements;
mod writes;

pub use evaluator::{Evaluator, Outcome};
pub use idl_forms::harts::{FieldValue, FieldValues, HartState, Ram, Registers};
pub use idl_forms::values::Stop;
pub use prepared::Prepared;
