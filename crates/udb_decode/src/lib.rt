//! Patterns of instruction words, and the decoder of a configuration: the names that a word can
//! mean.
#![tactic(auto)]

mod decoder;
mod patterns;
mod picks;
mod searching;

pub use decoder::{Coding, Decoder};
pub use patterns::{Pattern, overlap};
pub use picks::Picks;
