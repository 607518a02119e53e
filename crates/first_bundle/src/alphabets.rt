//! The alphabets of names, texts and encodings.

ghost use Rattle.std.specs.Prelude.{◌≡◌, ◌==◌, ◌+◌, ◌<◌, length, drop, if◌then◌else◌};
ghost use Rattle.std.specs.List.{list_all, list_any};
ghost use Rattle.udb_spec.specs.Conditions.{same_bytes};
ghost use Rattle.first_spec.specs.Alphabets.{is_upper, is_lower, is_letter, is_letter_or_digit, is_word_byte, is_dotted_byte, begins, is_plain_word, is_idl_type, is_idl_member, is_parameter_name, is_instruction_name, is_config_name, is_spaced, is_text, is_fixed_digit, is_match_digit, is_match};

use crate::lines::past;

fn is_upper(byte: u8) -> bool
    ensures { result ≡ is_upper byte }
{
    (b'A'..=b'Z').contains(&byte)
}

fn is_lower(byte: u8) -> bool
    ensures { result ≡ is_lower byte }
{
    (b'a'..=b'z').contains(&byte)
}

fn is_letter(byte: u8) -> bool
    ensures { result ≡ is_letter byte }
{
    is_upper(byte) || is_lower(byte)
}

fn is_letter_or_digit(byte: u8) -> bool
    ensures { result ≡ is_letter_or_digit byte }
{
    is_letter(byte) || (b'0'..=b'9').contains(&byte)
}

fn is_word_byte(byte: u8) -> bool
    ensures { result ≡ is_word_byte byte }
{
    is_letter_or_digit(byte) || byte == b'_'
}

fn is_dotted_byte(byte: u8) -> bool
    ensures { result ≡ is_dotted_byte byte }
{
    is_word_byte(byte) || byte == b'.'
}

fn begins_upper(bytes: &[u8]) -> bool
    ensures { result ≡ begins is_upper bytes.now }
{
    match bytes {
        [] => false,
        [first, ..] => is_upper(*first),
    }
}

fn begins_lower(bytes: &[u8]) -> bool
    ensures { result ≡ begins is_lower bytes.now }
{
    match bytes {
        [] => false,
        [first, ..] => is_lower(*first),
    }
}

fn begins_letter(bytes: &[u8]) -> bool
    ensures { result ≡ begins is_letter bytes.now }
{
    match bytes {
        [] => false,
        [first, ..] => is_letter(*first),
    }
}

fn begins_word(bytes: &[u8]) -> bool
    ensures { result ≡ begins is_letter_or_digit bytes.now }
{
    match bytes {
        [] => false,
        [first, ..] => is_letter_or_digit(*first),
    }
}

fn all_word_bytes(bytes: &[u8]) -> bool
    ensures { result ≡ list_all is_word_byte bytes.now }
{
    for byte in bytes {
        if !is_word_byte(*byte) {
            return false;
        }
    }
    true
}

fn all_dotted_bytes(bytes: &[u8]) -> bool
    ensures { result ≡ list_all is_dotted_byte bytes.now }
{
    for byte in bytes {
        if !is_dotted_byte(*byte) {
            return false;
        }
    }
    true
}

/// Whether a name is a word.
pub fn is(name: &[u8], word: &[u8]) -> bool
    ensures { result ≡ same_bytes name.now word.now }
{
    name == word
}

fn is_plain_word(name: &[u8]) -> bool
    ensures { result ≡ is_plain_word name.now }
{
    is(name, b"true") || is(name, b"false") || is(name, b"null")
}

fn is_type_word(name: &[u8]) -> bool
    ensures { result ≡ is_idl_type name.now }
{
    is(name, b"Bits")
        || is(name, b"Boolean")
        || is(name, b"XReg")
        || is(name, b"U32")
        || is(name, b"U64")
}

fn is_member_word(name: &[u8]) -> bool
    ensures { result ≡ is_idl_member name.now }
{
    is(name, b"X")
        || is(name, b"CSR")
        || is(name, b"PrivilegeMode")
        || is(name, b"ExceptionCode")
        || is(name, b"CsrFieldType")
        || is(name, b"ExtensionName")
}

/// Whether bytes are a name of a parameter: no word of the language of bodies.
pub fn is_parameter_name(name: &[u8]) -> bool
    ensures { result ≡ is_parameter_name name.now }
{
    begins_upper(name)
        && all_word_bytes(name)
        && name.len() <= 64
        && !(is_type_word(name) || is_member_word(name))
}

/// Whether bytes are a name of an instruction.
pub fn is_instruction_name(name: &[u8]) -> bool
    ensures { result ≡ is_instruction_name name.now }
{
    begins_lower(name) && all_dotted_bytes(name) && name.len() <= 64 && !is_plain_word(name)
}

/// Whether bytes are a name of a configuration.
pub fn is_config_name(name: &[u8]) -> bool
    ensures { result ≡ is_config_name name.now }
{
    begins_letter(name) && all_word_bytes(name) && name.len() <= 64 && !is_plain_word(name)
}

fn is_spaced_at(bytes: &[u8], at: usize, byte: u8) -> bool
    requires { at < length bytes.now }
    ensures { result ≡ (if byte == 32
        then begins is_letter_or_digit (drop (at + 1) bytes.now) else is_letter_or_digit byte) }
{
    if byte == b' ' {
        begins_word(past(bytes, at + 1))
    } else {
        is_letter_or_digit(byte)
    }
}

fn is_spaced(bytes: &[u8]) -> bool
    ensures { result ≡ is_spaced bytes.now }
{
    for (at, byte) in bytes.iter().enumerate() {
        if !is_spaced_at(bytes, at, *byte) {
            return false;
        }
    }
    true
}

/// Whether bytes are a text: words joined by single spaces, the first with an upper-case letter.
pub fn is_text(bytes: &[u8]) -> bool
    ensures { result ≡ is_text bytes.now }
{
    begins_upper(bytes) && is_spaced(bytes)
}

fn is_fixed_digit(byte: u8) -> bool
    ensures { result ≡ is_fixed_digit byte }
{
    byte == b'0' || byte == b'1'
}

fn all_fixed(digits: &[u8]) -> bool
    ensures { result ≡ list_all is_fixed_digit digits.now }
{
    for digit in digits {
        if !is_fixed_digit(*digit) {
            return false;
        }
    }
    true
}

fn all_digits(digits: &[u8]) -> bool
    ensures { result ≡ list_all is_match_digit digits.now }
{
    for digit in digits {
        if !(is_fixed_digit(*digit) || *digit == b'-') {
            return false;
        }
    }
    true
}

fn any_open(digits: &[u8]) -> bool
    ensures { result ≡ list_any (λ b. b == 45) digits.now }
{
    for digit in digits {
        if *digit == b'-' {
            return true;
        }
    }
    false
}

/// Whether bytes are the digits of an encoding: 32 of `0`, `1` and `-`, the last seven fixed and
/// one open.
pub fn is_match(digits: &[u8]) -> bool
    ensures { result ≡ is_match digits.now }
{
    digits.len() == 32 && all_digits(digits) && all_fixed(past(digits, 25)) && any_open(digits)
}
