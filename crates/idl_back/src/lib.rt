//! Printed text reads back: what is printed of statements and functions that were read is a row of
//! tokens that reads as them again.
#![tactic(auto)]

mod laws;
mod printed;

pub use laws::{
    parts_begin, pieces_are_tokens, rows_are_spelled, signs_stand, texts_say, tokens_stand,
};
pub use printed::{printed_body_reads, printed_functions_read};
