//! The lexer of the language of bodies: which words, numbers, texts and signs a source is a row of,
//! and the value of each token.
#![tactic(auto)]

mod before;
mod bytes;
mod front;
mod kinds;
mod laws;
mod levels;
mod lexer;
mod scan;
mod seeing;
mod tokens;
mod values;
mod views;
mod words;

pub use kinds::{Reserved, Sign, Special, TokenKind};
pub use laws::{one_reading, own_spelling};
pub use levels::precedence;
pub use lexer::lex;
pub use seeing::see;
pub use tokens::{LexFault, Token, Tokens};
pub use values::{SizedText, is_short, number_value, sized, text_value};
pub use views::Seen;
pub use words::is_reserved;
