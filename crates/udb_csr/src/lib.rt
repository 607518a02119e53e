//! The CSRs of a program: the fields that share a bit or pass the register's length, the number of a
//! CSR in a state, and the state at reset.
#![tactic(auto)]

mod faults;
mod parts;
mod reading;
mod reset;
mod searching;

pub use faults::{FieldFault, field_fault};
pub use reading::read_csr;
pub use reset::reset_state;
