//! Why a source is no body.

ghost use Rattle.std.specs.Prelude.{◌≡◌};
ghost use Rattle.idl_parse.specs.declared.faults.ParseFault.TheVariants.{Memory};

use std::alloc::AllocError;

/// Why a source is no body, or no functions, with a place in bytes from 0. The first cause that
/// holds is told: tokens come before the grammar, and the grammar before the limit of nesting.
#[derive(Clone, Copy, Debug, PartialEq, Eq)]
pub enum ParseFault {
    Memory,
    /// The source is no row of tokens: the first byte at which neither a token nor a separator
    /// begins.
    BadToken { at: u32 },
    /// The tokens read as nothing: the first of them, or the source's length, at which nothing goes
    /// on.
    Unexpected { at: u32 },
    /// The tokens read, but nest deeper than the limit: the first of them at which nothing within
    /// the limit goes on.
    TooDeep { at: u32 },
}

impl From<AllocError> for ParseFault {
    ghost from_gives = { λ _ e. e ≡ Memory };

    fn from(_e: AllocError) -> ParseFault {
        ParseFault::Memory
    }
}

/// Why not all of the tokens were read.
#[derive(Drop)]
pub enum Halt {
    Memory,
    /// A fault, with how many tokens are left from it on.
    Left(usize),
}
