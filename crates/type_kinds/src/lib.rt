//! The kinds of expressions of the instruction description language, with widths that may depend on
//! parameters, and what tests say as conditions.
#![tactic(auto)]

mod formulas;
mod kinds;
mod shapes;
mod views;

pub use formulas::{as_formula, lists_extension, requirement, where_false, where_true};
pub use kinds::{Kind, boxed_copy, declared_kind, numbered_kind};
pub use shapes::{shape, shapes_of};
pub use views::{
    Returns, View, Visible, csr_named, field_named, function_named, parameter_named, seeing,
    visible_named,
};
