//! What bodies do beside giving values: which functions they reach, which expressions are quiet, what
//! bodies of fields keep to, and which bodies end in a return.
#![tactic(auto)]

mod deeds;
mod endings;
mod fields;
mod reaching;

pub use deeds::stays_in_fields;
pub use endings::ends_in_return;
pub use fields::reached_by_fields;
pub use reaching::{call_stays_in_fields, is_quiet};
