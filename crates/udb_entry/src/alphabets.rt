//! The alphabets of names.

ghost use Rattle.std.specs.Prelude.{◌≡◌};
ghost use Rattle.std.specs.List.{list_all};
ghost use Rattle.udb_entry.specs.Alphabets as spec;

use idl_token::is_reserved;
use udb_base::Kind;

fn is_upper(byte: u8) -> bool
    ensures { result ≡ spec.is_upper byte }
{
    (b'A'..=b'Z').contains(&byte)
}

fn is_lower(byte: u8) -> bool
    ensures { result ≡ spec.is_lower byte }
{
    (b'a'..=b'z').contains(&byte)
}

fn is_letter(byte: u8) -> bool
    ensures { result ≡ spec.is_letter byte }
{
    is_upper(byte) || is_lower(byte)
}

fn is_word_byte(byte: u8) -> bool
    ensures { result ≡ spec.is_word_byte byte }
{
    is_letter(byte) || (b'0'..=b'9').contains(&byte) || byte == b'_'
}

fn begins_upper(bytes: &[u8]) -> bool
    ensures { result ≡ spec.begins spec.is_upper bytes.now }
{
    match bytes {
        [] => false,
        [first, ..] => is_upper(*first),
    }
}

fn begins_lower(bytes: &[u8]) -> bool
    ensures { result ≡ spec.begins spec.is_lower bytes.now }
{
    match bytes {
        [] => false,
        [first, ..] => is_lower(*first),
    }
}

fn begins_letter(bytes: &[u8]) -> bool
    ensures { result ≡ spec.begins spec.is_letter bytes.now }
{
    match bytes {
        [] => false,
        [first, ..] => is_letter(*first),
    }
}

fn all_word_bytes(bytes: &[u8]) -> bool
    ensures { result ≡ list_all spec.is_word_byte bytes.now }
{
    for byte in bytes {
        if !is_word_byte(*byte) {
            return false;
        }
    }
    true
}

fn is_upper_word(name: &[u8]) -> bool
    ensures { result ≡ spec.is_word spec.is_upper name.now }
{
    begins_upper(name) && all_word_bytes(name) && name.len() <= 64
}

fn is_letter_word(name: &[u8]) -> bool
    ensures { result ≡ spec.is_word spec.is_letter name.now }
{
    begins_letter(name) && all_word_bytes(name) && name.len() <= 64
}

fn is_instruction_byte(byte: u8) -> bool
    ensures { result ≡ spec.is_instruction_byte byte }
{
    is_word_byte(byte) || byte == b'.'
}

fn all_instruction_bytes(bytes: &[u8]) -> bool
    ensures { result ≡ list_all spec.is_instruction_byte bytes.now }
{
    for byte in bytes {
        if !is_instruction_byte(*byte) {
            return false;
        }
    }
    true
}

fn is_instruction_word(name: &[u8]) -> bool
    ensures { result ≡ spec.is_word_of spec.is_letter spec.is_instruction_byte name.now }
{
    begins_letter(name) && all_instruction_bytes(name) && name.len() <= 64
}

/// Whether a name is one of a field: at most 64 letters, digits and `_`, the first an upper-case
/// letter.
pub fn is_field_name(name: &str) -> bool
    ensures { result ≡ spec.is_field_name name.now }
{
    is_upper_word(name.as_bytes())
}

fn is_lower_word(name: &[u8]) -> bool
    ensures { result ≡ spec.is_word spec.is_lower name.now }
{
    begins_lower(name) && all_word_bytes(name) && name.len() <= 64
}

/// Whether a name is one of a variable or a function: at most 64 letters, digits and `_`, the first
/// a lower-case letter, and no word of the language of bodies.
pub fn is_local_name(name: &str) -> bool
    ensures { result ≡ spec.is_local_name name.now }
{
    is_lower_word(name.as_bytes()) && !is_reserved(name)
}

/// Whether a name has the alphabet of the names of a kind's entries: at most 64 letters, digits and
/// `_`, the first a letter, and an upper-case one for extensions and parameters. Instructions also
/// have `.`; a parameter's name is no word of the language of bodies.
pub fn has_alphabet(kind: Kind, name: &str) -> bool
    ensures { result ≡ spec.has_alphabet kind name.now }
{
    let bytes = name.as_bytes();
    match kind {
        Kind::Extension => is_upper_word(bytes),
        Kind::Parameter => is_upper_word(bytes) && !is_reserved(name),
        Kind::Instruction => is_instruction_word(bytes),
        Kind::Csr => is_letter_word(bytes),
        Kind::Functions => is_letter_word(bytes),
        Kind::Config => is_letter_word(bytes),
    }
}
