//! Whether spaces, programs, bodies and states of a hart are what checking and running bodies asks
//! for.
#![tactic(auto)]

mod bodies;
mod literals;
mod places;
mod programs;
mod spaces;
mod states;
mod variables;

pub use bodies::{is_bare_program, is_read_body};
pub use programs::is_lawful_program;
pub use spaces::is_read_space;
pub use states::is_state;
pub use variables::are_lawful_variables;
