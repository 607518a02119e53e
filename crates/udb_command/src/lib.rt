//! The frame of the program: which words are a command, the input read whole, and a reply written.
//! What a command replies to an input stands above.
#![tactic(auto)]

mod commands;
mod input;
mod questions;
mod replies;
mod words;

pub use commands::{Command, command_of, one_command};
pub use input::{LIMIT, read_input};
pub use replies::{Fault, Reply, send, write_reply};
