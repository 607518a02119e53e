//! The tokens of a source.

ghost use Rattle.std.specs.Prelude.{◌≡◌, ◌+◌, ◌-◌, ◌^◌, ◌<◌, [], ◌∷◌, ◌++◌, ℕ, List, length, All, IfOk, OnOk};
ghost use Rattle.idl_token.specs.Lexeme.{Lexeme, Appends, lexeme, lexeme_of, lexemes};
ghost use Rattle.idl_token.specs.Rows.{IsRow, IsBadAt, IsSlice, PlacesRise, Answers, Faults};
ghost use Rattle.idl_token.specs.Values.{IsSpelledToken};

use crate::before::{after, start};
use crate::front::Front;
use crate::kinds::TokenKind;
use crate::scan::front;
use crate::tokens::{LexFault, Token, Tokens};
use std::alloc::Global;

fn push<'a>(
    tokens: &mut Tokens<'a>,
    kind: TokenKind,
    text: &'a str,
    at: u32,
) -> Result<(), LexFault>
    ensures ok { OnOk result (Appends tokens.old.items tokens.new.items (lexeme kind text.now at)) }
    ensures memory { (at : ℕ) → result ≡ Err (LexFault.BadToken at) → ⊥ }
{
    match tokens.push(Token { kind, text, at }) {
        Ok(()) => Ok(()),
        Err(_) => Err(LexFault::Memory),
    }
}

fn read<'a>(alloc: Global, source: &'a str) -> Result<Tokens<'a>, LexFault>
    requires { length source.now < 2 ^ 32 - 1 }
    ensures row { IfOk result (λ ts. IsRow source.now (lexemes ts.items)) }
    ensures bad { (at : ℕ) → result ≡ Err (LexFault.BadToken at) → IsBadAt source.now at }
{
    let mut tokens = Vec::new(alloc);
    let mut before = start();
    let mut rest = source;
    let mut at: u32 = 0;
    'tokens: while !rest.is_empty() {
        match front(before, rest) {
            Front::Gap(len) => {
                rest = rest.split_at(len).1;
                at += len as u32;
            }
            Front::Token(kind, len) => {
                let (text, later) = rest.split_at(len);
                push(&mut tokens, kind, text, at)?;
                before = after(before, kind);
                rest = later;
                at += len as u32;
            }
            Front::Nothing => return Err(LexFault::BadToken { at }),
        }
    }
    Ok(tokens)
}

/// The tokens of a source, which are parts of it, in the order of the source.
///
/// Spaces, line feeds and comments from `#` to the end of the line separate tokens. Tokens may also
/// stand side by side, and the longest is taken. `docs/formats/language.md` has the tokens.
///
/// `BadToken` comes exactly where the source is no row of tokens, with the error position: the first
/// byte, from 0, at which neither a token nor a separator begins. `Memory` says that there was none.
pub fn lex<'a>(alloc: Global, source: &'a str) -> Result<Tokens<'a>, LexFault>
    requires { length source.now < 2 ^ 32 - 1 }
    ensures row { IfOk result (λ ts. IsRow source.now (lexemes ts.items)) }
    ensures only { (ts : List Lexeme)
        → IsRow source.now ts → Answers (λ us. lexemes us.items) result ts }
    ensures slices { IfOk result (λ ts. All (IsSlice source.now) (lexemes ts.items)) }
    ensures rise { IfOk result (λ ts. PlacesRise 0 (lexemes ts.items)) }
    ensures spelled { IfOk result (λ ts. All IsSpelledToken (lexemes ts.items)) }
    ensures bad { (at : ℕ) → result ≡ Err (LexFault.BadToken at) → IsBadAt source.now at }
    ensures bad_only { (at : ℕ) → IsBadAt source.now at → Faults result at }
{
    read(alloc, source)
}
