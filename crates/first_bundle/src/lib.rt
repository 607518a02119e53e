//! Bundles of the first path: Boolean parameters beside MXLEN, one instruction and one
//! configuration, in a fixed form of plain lines, read exactly.
#![tactic(auto)]

mod alphabets;
mod blocks;
mod checking;
mod lines;
mod printing;
mod reader;
mod reading;
mod statements;

pub use first_spec::{FirstBundle, ParamEntries};
pub use printing::match_digits;
pub use reader::{one_bundle, read_first};
