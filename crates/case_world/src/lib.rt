//! Small worlds for programs of cases: spaces, configurations, CSRs with their fields, functions and
//! bodies, and states, made from short texts.
#![tactic(auto)]

mod bodies;
mod conds;
mod csrs;
mod fulls;
mod numbers;
mod spaces;
mod states;

pub use bodies::{body_of, functions_of, variables_of};
pub use conds::cond_of;
pub use csrs::{csrs_of, shipped_csrs};
pub use fulls::full_of;
pub use numbers::{bytes_of, number_of};
pub use spaces::space_of;
pub use states::state_of;
