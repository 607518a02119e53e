//! The forms of entries of each kind, as schemas that are made from tables of keys.
#![tactic(auto)]

mod configs;
mod csrs;
mod extensions;
mod instructions;
mod kinds;
mod parameters;
mod tables;
mod values;

pub use kinds::schema_of;
