//! The precedence of signs.

ghost use Rattle.std.specs.Prelude.{◌≡◌};
ghost use Rattle.idl_token.specs.Precedence.{precedence};

use crate::kinds::Sign;

/// How loosely a sign between two operands binds: 0 for products, which bind tightest, to 9 for
/// `||`, and none for any other sign: lines 2 to 11 of the table in `docs/formats/language.md`.
pub fn precedence(sign: Sign) -> Option<u8>
    ensures { result ≡ precedence sign }
{
    match sign {
        Sign::Times | Sign::WideTimes | Sign::Divide | Sign::Remainder => Some(0),
        Sign::Plus | Sign::Minus | Sign::WidePlus | Sign::WideMinus => Some(1),
        Sign::Left | Sign::Right | Sign::RightSigned | Sign::WideLeft => Some(2),
        Sign::Less | Sign::AtMost | Sign::Greater | Sign::AtLeast => Some(3),
        Sign::Equal | Sign::NotEqual => Some(4),
        Sign::Ampersand => Some(5),
        Sign::Caret => Some(6),
        Sign::Bar => Some(7),
        Sign::And => Some(8),
        Sign::Or => Some(9),
        _ => None,
    }
}
