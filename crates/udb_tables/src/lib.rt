//! The tables of a database: its rows, each key once, in the order of kinds and names.
#![tactic(auto)]

mod order;
mod tables;

pub use tables::{Rows, Tables};
