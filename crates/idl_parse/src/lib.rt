//! Bodies and functions of the language, read exactly.
#![tactic(auto)]

mod faults;
mod functions;
mod laws;
mod lexing;
mod parse;
mod simple;
mod stmts;
mod types;
mod writes;

pub use faults::ParseFault;
pub use idl_token::{Reserved, Sign, Special, Token, TokenKind, Tokens};
pub use laws::{one_answer, printed_text_reads_back};
pub use lexing::lex;
pub use parse::{parse_body, parse_functions, parse_shown, parse_shown_functions};
