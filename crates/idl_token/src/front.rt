//! What stands at the front of a source.

use crate::kinds::TokenKind;

/// What stands at the front, with how many bytes it has.
#[derive(Clone, Copy)]
pub enum Front {
    /// A separator.
    Gap(usize),
    Token(TokenKind, usize),
    Nothing,
}
