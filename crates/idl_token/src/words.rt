//! How words and signs are spelled, and which one stands in a place.

ghost use Rattle.std.specs.Prelude.{◌≡◌, length, find, nat_eq};
ghost use Rattle.std.specs.List.{starts_with};
ghost use Rattle.std.specs.Str.{bytes_eq};
ghost use Rattle.idl_token.specs.Spelling.{reserved_text, special_text, sign_text};
ghost use Rattle.idl_token.specs.Front.{reserved_of, is_reserved, special_of, sign_of};

use crate::kinds::{Reserved, Sign, Special};

const RESERVED: [Reserved; 31] = [
    Reserved::Bits,
    Reserved::Boolean,
    Reserved::XReg,
    Reserved::U32,
    Reserved::U64,
    Reserved::Signed,
    Reserved::True,
    Reserved::False,
    Reserved::If,
    Reserved::Else,
    Reserved::For,
    Reserved::Return,
    Reserved::Function,
    Reserved::Returns,
    Reserved::Arguments,
    Reserved::Description,
    Reserved::Body,
    Reserved::X,
    Reserved::Csr,
    Reserved::Max,
    Reserved::Mode,
    Reserved::Xlen,
    Reserved::Jump,
    Reserved::Raise,
    Reserved::ReadMemory,
    Reserved::WriteMemory,
    Reserved::PrivilegeMode,
    Reserved::ExceptionCode,
    Reserved::CsrFieldType,
    Reserved::ExtensionName,
    Reserved::CsrValue,
];

const SPECIAL: [Special; 7] = [
    Special::Implemented,
    Special::ImplementedVersion,
    Special::AsSigned,
    Special::Resize,
    Special::WidthOf,
    Special::Pc,
    Special::Encoding,
];

// By falling length, so that the first that fits is the longest.
const SIGNS: [Sign; 39] = [
    Sign::RightSigned,
    Sign::WideLeft,
    Sign::Path,
    Sign::Equal,
    Sign::NotEqual,
    Sign::AtMost,
    Sign::AtLeast,
    Sign::Left,
    Sign::Right,
    Sign::WidePlus,
    Sign::WideMinus,
    Sign::WideTimes,
    Sign::And,
    Sign::Or,
    Sign::Increment,
    Sign::OpenParen,
    Sign::CloseParen,
    Sign::OpenBracket,
    Sign::CloseBracket,
    Sign::OpenBrace,
    Sign::CloseBrace,
    Sign::Less,
    Sign::Greater,
    Sign::Comma,
    Sign::Semicolon,
    Sign::Colon,
    Sign::Dot,
    Sign::Question,
    Sign::Assign,
    Sign::Plus,
    Sign::Minus,
    Sign::Times,
    Sign::Divide,
    Sign::Remainder,
    Sign::Ampersand,
    Sign::Bar,
    Sign::Caret,
    Sign::Tilde,
    Sign::Not,
];

fn reserved_text(word: Reserved) -> &'static str
    ensures { result.now ≡ reserved_text word }
{
    match word {
        Reserved::Bits => "Bits",
        Reserved::Boolean => "Boolean",
        Reserved::XReg => "XReg",
        Reserved::U32 => "U32",
        Reserved::U64 => "U64",
        Reserved::Signed => "signed",
        Reserved::True => "true",
        Reserved::False => "false",
        Reserved::If => "if",
        Reserved::Else => "else",
        Reserved::For => "for",
        Reserved::Return => "return",
        Reserved::Function => "function",
        Reserved::Returns => "returns",
        Reserved::Arguments => "arguments",
        Reserved::Description => "description",
        Reserved::Body => "body",
        Reserved::X => "X",
        Reserved::Csr => "CSR",
        Reserved::Max => "max",
        Reserved::Mode => "mode",
        Reserved::Xlen => "xlen",
        Reserved::Jump => "jump",
        Reserved::Raise => "raise",
        Reserved::ReadMemory => "read_memory",
        Reserved::WriteMemory => "write_memory",
        Reserved::PrivilegeMode => "PrivilegeMode",
        Reserved::ExceptionCode => "ExceptionCode",
        Reserved::CsrFieldType => "CsrFieldType",
        Reserved::ExtensionName => "ExtensionName",
        Reserved::CsrValue => "csr_value",
    }
}

fn special_text(word: Special) -> &'static str
    ensures { result.now ≡ special_text word }
{
    match word {
        Special::Implemented => "implemented?",
        Special::ImplementedVersion => "implemented_version?",
        Special::AsSigned => "$signed",
        Special::Resize => "$resize",
        Special::WidthOf => "$bits",
        Special::Pc => "$pc",
        Special::Encoding => "$encoding",
    }
}

fn sign_text(sign: Sign) -> &'static str
    ensures { result.now ≡ sign_text sign }
{
    match sign {
        Sign::OpenParen => "(",
        Sign::CloseParen => ")",
        Sign::OpenBracket => "[",
        Sign::CloseBracket => "]",
        Sign::OpenBrace => "{",
        Sign::CloseBrace => "}",
        Sign::Less => "<",
        Sign::Greater => ">",
        Sign::Comma => ",",
        Sign::Semicolon => ";",
        Sign::Colon => ":",
        Sign::Dot => ".",
        Sign::Path => "::",
        Sign::Question => "?",
        Sign::Assign => "=",
        Sign::Equal => "==",
        Sign::NotEqual => "!=",
        Sign::AtMost => "<=",
        Sign::AtLeast => ">=",
        Sign::Left => "<<",
        Sign::Right => ">>",
        Sign::RightSigned => ">>>",
        Sign::WideLeft => "`<<",
        Sign::WidePlus => "`+",
        Sign::WideMinus => "`-",
        Sign::WideTimes => "`*",
        Sign::Plus => "+",
        Sign::Minus => "-",
        Sign::Times => "*",
        Sign::Divide => "/",
        Sign::Remainder => "%",
        Sign::Ampersand => "&",
        Sign::Bar => "|",
        Sign::Caret => "^",
        Sign::Tilde => "~",
        Sign::Not => "!",
        Sign::And => "&&",
        Sign::Or => "||",
        Sign::Increment => "++",
    }
}

fn is_word(word: &[u8], kind: Reserved) -> bool
    ensures { result ≡ bytes_eq word.now (reserved_text kind) }
{
    word == reserved_text(kind).as_bytes()
}

fn has_special(text: &[u8], kind: Special) -> bool
    ensures { result ≡ starts_with nat_eq text.now (special_text kind) }
{
    text.starts_with(special_text(kind).as_bytes())
}

fn has_sign(text: &[u8], kind: Sign) -> bool
    ensures { result ≡ starts_with nat_eq text.now (sign_text kind) }
{
    text.starts_with(sign_text(kind).as_bytes())
}

#[tactic(auto, using(crate::proofs::FindLemmas::find_steps))]
fn first_reserved(words: &[Reserved], word: &[u8]) -> Option<Reserved>
    ensures { result ≡ find (λ w. bytes_eq word.now (reserved_text w)) words.now }
{
    'words: for kind in words {
        if is_word(word, *kind) {
            return Some(*kind);
        }
    }
    None
}

#[tactic(auto, using(crate::proofs::FindLemmas::find_steps))]
fn first_special(words: &[Special], text: &[u8]) -> Option<Special>
    ensures { result ≡ find (λ w. starts_with nat_eq text.now (special_text w)) words.now }
{
    'words: for kind in words {
        if has_special(text, *kind) {
            return Some(*kind);
        }
    }
    None
}

#[tactic(auto, using(crate::proofs::FindLemmas::find_steps))]
fn first_sign(signs: &[Sign], text: &[u8]) -> Option<Sign>
    ensures { result ≡ find (λ w. starts_with nat_eq text.now (sign_text w)) signs.now }
{
    'signs: for kind in signs {
        if has_sign(text, *kind) {
            return Some(*kind);
        }
    }
    None
}

/// The word of the language that a word is.
pub fn reserved_of(word: &[u8]) -> Option<Reserved>
    ensures { result ≡ reserved_of word.now }
{
    first_reserved(&RESERVED, word)
}

/// Whether a text is a word of the language, as `if` or `Bits`. Such a word names nothing.
pub fn is_reserved(word: &str) -> bool
    ensures { result ≡ is_reserved word.now }
{
    reserved_of(word.as_bytes()).is_some()
}

/// The word with a sign that stands in front.
pub fn special_of(text: &[u8]) -> Option<Special>
    ensures { result ≡ special_of text.now }
{
    first_special(&SPECIAL, text)
}

/// The longest sign that stands in front.
pub fn sign_of(text: &[u8]) -> Option<Sign>
    ensures { result ≡ sign_of text.now }
{
    first_sign(&SIGNS, text)
}

/// How many bytes a word with a sign has.
pub fn special_len(word: Special) -> usize
    ensures { result ≡ length (special_text word) }
{
    special_text(word).len()
}

/// How many bytes a sign has.
pub fn sign_len(sign: Sign) -> usize
    ensures { result ≡ length (sign_text sign) }
{
    sign_text(sign).len()
}
