//! What typing asks of a node of a body: names that are there, kinds that fit, and demands on full
//! configurations.
#![tactic(auto)]

mod fits;
mod issues;
mod members;
mod names;
mod widths;

pub use fits::{
    comparable, is_choice, suits, suits_all, suits_bits, suits_flag, suits_member, suits_shape,
};
pub use issues::{
    Check, Checks, Demand, Issue, Issues, Limits, push_demand, push_issue, push_mismatch,
    push_unknown,
};
pub use names::{
    csr_word, csr_word_issues, extension_issues, field_issues, has_visible, member_issues,
    new_field_issues, present_issues, word_issues,
};
pub use widths::{kind_issues, ranged, shape_issues, slice_issues, width_issues};
