//! Tokens, and why a source is no row of them.

use crate::kinds::TokenKind;

/// A token: its kind, the part of the source that it is, and the place of that part's first byte.
#[derive(Clone, Copy, Drop)]
pub struct Token<'a> {
    pub kind: TokenKind,
    pub text: &'a str,
    pub at: u32,
}

/// Tokens in the order of the source.
pub type Tokens<'a> = Vec<Token<'a>>;

/// Why a source gives no tokens: want of memory, or the place of the first byte at which no token
/// begins, counted in bytes from 0.
#[derive(Clone, Copy, Debug, PartialEq, Eq)]
pub enum LexFault {
    Memory,
    BadToken { at: u32 },
}
