//! What the tokens before a place say of it.

ghost use Rattle.std.specs.Prelude.{◌≡◌};
ghost use Rattle.idl_token.specs.Front.{takes_width, is_description, is_less, is_greater, is_open_brace, start, after};

use crate::kinds::{Reserved, Sign, Special, TokenKind};

/// What the tokens before a place say of it.
#[derive(Clone, Copy)]
pub struct Before {
    /// The last token is a word that takes a width: `Bits`, `$resize`, `read_memory`,
    /// `write_memory`.
    pub takes_width: bool,
    /// The `<` after such a word is open.
    pub in_width: bool,
    /// The last token is the word `description`.
    pub describes: bool,
    /// The last token is the `{` after that word.
    pub in_description: bool,
}

fn takes_width(kind: TokenKind) -> bool
    ensures { result ≡ takes_width kind }
{
    matches!(
        kind,
        TokenKind::Reserved(Reserved::Bits | Reserved::ReadMemory | Reserved::WriteMemory)
            | TokenKind::Special(Special::Resize)
    )
}

fn is_description(kind: TokenKind) -> bool
    ensures { result ≡ is_description kind }
{
    matches!(kind, TokenKind::Reserved(Reserved::Description))
}

fn is_less(kind: TokenKind) -> bool
    ensures { result ≡ is_less kind }
{
    matches!(kind, TokenKind::Sign(Sign::Less))
}

fn is_greater(kind: TokenKind) -> bool
    ensures { result ≡ is_greater kind }
{
    matches!(kind, TokenKind::Sign(Sign::Greater))
}

fn is_open_brace(kind: TokenKind) -> bool
    ensures { result ≡ is_open_brace kind }
{
    matches!(kind, TokenKind::Sign(Sign::OpenBrace))
}

/// What no token says.
pub fn start() -> Before
    ensures { result ≡ start }
{
    Before {
        takes_width: false,
        in_width: false,
        describes: false,
        in_description: false,
    }
}

/// What one more token says.
pub fn after(before: Before, kind: TokenKind) -> Before
    ensures { result ≡ after before kind }
{
    Before {
        takes_width: takes_width(kind),
        in_width: (before.takes_width && is_less(kind)) || (before.in_width && !is_greater(kind)),
        describes: is_description(kind),
        in_description: before.describes && is_open_brace(kind),
    }
}
