//! Versions, requirements and conditions: how they are read, and what they say of full and of
//! partly open configurations.
#![tactic(auto)]

mod atoms;
mod cells;
mod constraints;
mod grammar;
mod lookups;
mod partial_truth;
mod ranges;
mod truth;
mod versions;

pub use cells::{Cells, is_open, range_left};
pub use constraints::constraint;
pub use grammar::{BadRequirement, BadVersion, parse_requirement, parse_version};
pub use lookups::{extension_place, mxlen, number_or, param_place, value_of};
pub use partial_truth::{holds3, one_by};
pub use ranges::not_known;
pub use truth::holds;
pub use udb_base::{
    Choices, Compare, Cond, Conds, Domain, ExtSpace, ExtSpaces, Full, Known, Listed,
    ListedVersions, Numbers, ParamSpace, ParamSpaces, Partial, Proof, Proofs, Requirement,
    Requirements, Space, Test, Value, Values, Version, Words,
};
pub use versions::{is_below, meets};
