//! The tokens of a source, with the faults of this crate.

ghost use Rattle.std.specs.Prelude.{◌≡◌, ◌-◌, ◌^◌, ◌<◌, ℕ, length, All, IfOk};
ghost use Rattle.idl_token.specs.Lexeme.{lexemes};
ghost use Rattle.idl_token.specs.Rows.{IsRow, IsBadAt, IsSlice, PlacesRise};
ghost use Rattle.idl_token.specs.Values.{IsSpelledToken};
ghost use Rattle.idl_parse.specs.Parse.{LexesOnly, BadOnly, IsOfTokens, of_lexer};

use crate::faults::ParseFault;
use idl_token::{LexFault, Tokens};
use std::alloc::Global;

fn of_lexer(fault: LexFault) -> ParseFault
    ensures { result ≡ of_lexer fault }
{
    match fault {
        LexFault::Memory => ParseFault::Memory,
        LexFault::BadToken { at } => ParseFault::BadToken { at },
    }
}

/// The tokens of a source, which are parts of it. What fails is memory or the first bad place.
///
/// Spaces, line feeds and comments from `#` to the end of the line separate tokens. Tokens may also
/// stand side by side. `docs/formats/language.md` has the tokens.
pub fn lex<'a>(alloc: Global, source: &'a str) -> Result<Tokens<'a>, ParseFault>
    requires { length source.now < 2 ^ 32 - 1 }
    ensures row { IfOk result (λ ts. IsRow source.now (lexemes ts.items)) }
    ensures only { LexesOnly (λ us. lexemes us.items) source.now result }
    ensures slices { IfOk result (λ ts. All (IsSlice source.now) (lexemes ts.items)) }
    ensures rise { IfOk result (λ ts. PlacesRise 0 (lexemes ts.items)) }
    ensures spelled { IfOk result (λ ts. All IsSpelledToken (lexemes ts.items)) }
    ensures bad { (at : ℕ) → result ≡ Err (ParseFault.BadToken at) → IsBadAt source.now at }
    ensures bad_only { BadOnly source.now result }
    ensures of_tokens { IsOfTokens result }
{
    match idl_token::lex(alloc, source) {
        Ok(tokens) => Ok(tokens),
        Err(fault) => Err(of_lexer(fault)),
    }
}
