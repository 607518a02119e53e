//! The values of a source's tokens.

ghost use Rattle.std.specs.Prelude.{◌≡◌, All, IfOk};
ghost use Rattle.idl_token.specs.Lexeme.{lexeme_of, lexemes};
ghost use Rattle.idl_token.specs.Numbers.{sized_parts};
ghost use Rattle.idl_token.specs.Values.{IsSmallWidth, IsLiteral, IsSpelledToken, literal_of};
ghost use Rattle.idl_token.specs.Symbol as grammar;
ghost use Rattle.idl_token.specs.Seen.{symbol, symbols};

use crate::bytes::begins_digit;
use crate::kinds::TokenKind;
use crate::tokens::Token;
use crate::values::{number_value, sized, text_value};
use crate::views::Seen;
use std::alloc::Global;
use udb_base::NoMemory;

// A width that begins with a digit is a number, and any other is a parameter.
#[tactic(auto, unfolding(crate::specs::Numbers::sized_parts))]
fn see_sized(text: &str) -> Seen<'_>
    requires small { IsSmallWidth (sized_parts text.now).width }
    requires literal { IsLiteral (literal_of text.now) }
    ensures { symbol result ≡ grammar.sized_symbol (sized_parts text.now) }
{
    let parts = sized(text);
    if begins_digit(10, parts.width.as_bytes()) {
        Seen::SizedNumber {
            width: number_value(parts.width),
            signed: parts.signed,
            value: parts.value,
        }
    } else {
        Seen::SizedWord {
            width: parts.width,
            signed: parts.signed,
            value: parts.value,
        }
    }
}

fn see_token<'a>(token: &Token<'a>) -> Seen<'a>
    requires { IsSpelledToken (lexeme_of token.now) }
    ensures { symbol result ≡ grammar.symbol_of (lexeme_of token.now) }
{
    match token.kind {
        TokenKind::Word => Seen::Word(token.text),
        TokenKind::Reserved(word) => Seen::Reserved(word),
        TokenKind::Special(word) => Seen::Special(word),
        TokenKind::Number => Seen::Number(number_value(token.text)),
        TokenKind::Sized => see_sized(token.text),
        TokenKind::Text => Seen::Quoted(text_value(token.text)),
        TokenKind::Description => Seen::Described,
        TokenKind::Sign(sign) => Seen::Sign(sign),
    }
}

/// The value of each token, in their order: numbers and texts are evaluated once, and what tells only
/// spellings apart is left behind, as are the places. It asks for tokens that are spelled as `lex`
/// gives them. The only fault is want of memory.
pub fn see<'a>(alloc: Global, tokens: &[Token<'a>]) -> Result<Vec<Seen<'a>>, NoMemory>
    requires { All IsSpelledToken (lexemes tokens.now) }
    ensures { IfOk result (λ x. symbols x.items ≡ grammar.symbols (lexemes tokens.now)) }
{
    let mut seen = Vec::new(alloc);
    for token in tokens {
        seen.push(see_token(token))?;
    }
    Ok(seen)
}
