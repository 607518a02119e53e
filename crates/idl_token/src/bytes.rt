//! Bytes and digits at the front of a text.

ghost use Rattle.std.specs.Prelude.{◌≡◌, ◌<◌, ◌≤◌, ◌+◌, ◌*◌, ◌^◌, length, drop, nat_lt};
ghost use Rattle.std.specs.Char.{digit_value};
ghost use Rattle.std.specs.Option.{SomeIff};
ghost use Rattle.std.specs.List.{prefix_len};
ghost use Rattle.std.specs.Str.Parse.{digits_value};
ghost use Rattle.idl_token.specs.Numbers.{IsSmall, begins, begins_digit, base_of, mark_of, letter_base, base_of_letter, is_marked};
ghost use Rattle.idl_token.specs.Front.{is_number, is_word_byte, begins_word};

/// What follows so many bytes; nothing past the end.
pub fn past(text: &[u8], count: usize) -> &[u8]
    ensures { result.now ≡ drop count text.now }
{
    text.split_at(count.min(text.len())).1
}

/// Whether the first byte is this one.
pub fn begins(byte: u8, text: &[u8]) -> bool
    ensures { result ≡ begins byte text.now }
{
    match text {
        [] => false,
        [first, ..] => *first == byte,
    }
}

/// Whether words may hold the byte.
fn is_word_byte(byte: u8) -> bool
    ensures { result ≡ is_word_byte byte }
{
    byte.is_ascii_alphanumeric() || byte == b'_'
}

/// Whether a word or a number stands in front.
pub fn begins_word(text: &[u8]) -> bool
    ensures { result ≡ begins_word text.now }
{
    match text {
        [] => false,
        [first, ..] => is_word_byte(*first),
    }
}

/// How many bytes of a word stand in front.
pub fn word_len(text: &[u8]) -> usize
    ensures count { result ≡ prefix_len is_word_byte text.now }
    ensures within { result ≤ length text.now }
{
    text.iter().take_while(|byte| is_word_byte(**byte)).count()
}

/// The number that a digit stands for, 36 for another byte.
fn digit_value(byte: u8) -> u8
    ensures { result ≡ digit_value byte }
{
    match byte {
        b'0'..=b'9' => byte - b'0',
        b'A'..=b'Z' => byte - b'A' + 10,
        b'a'..=b'z' => byte - b'a' + 10,
        _ => 36,
    }
}

/// Whether a digit of a base stands in front.
pub fn begins_digit(base: u8, text: &[u8]) -> bool
    ensures { result ≡ begins_digit base text.now }
{
    match text {
        [] => false,
        [first, ..] => digit_value(*first) < base,
    }
}

/// How many digits of a base stand in front.
pub fn digits_len(base: u8, text: &[u8]) -> usize
    ensures count { result ≡ prefix_len (λ c. nat_lt (digit_value c) base) text.now }
    ensures within { result ≤ length text.now }
{
    text.iter()
        .take_while(|byte| digit_value(**byte) < base)
        .count()
}

// The number with one more digit.
fn with_digit(value: u128, base: u8, digit: u8) -> Option<u128>
    ensures { SomeIff result (value * base + digit < 2 ^ 128) (value * base + digit) }
{
    match value.checked_mul(u128::from(base)) {
        Some(product) => product.checked_add(u128::from(digit)),
        None => None,
    }
}

/// The number that digits write, where it is below 2^128.
pub fn digits_value(base: u8, digits: &[u8]) -> Option<u128>
    requires { 0 < base }
    ensures { SomeIff result (IsSmall base digits.now) (digits_value base digits.now) }
{
    let mut value: u128 = 0;
    for digit in digits {
        value = with_digit(value, base, digit_value(*digit))?;
    }
    Some(value)
}

fn is_marked(letter: u8, base: u8, text: &[u8]) -> bool
    ensures { result ≡ is_marked letter base text.now }
{
    begins(b'0', text) && begins(letter, past(text, 1)) && begins_digit(base, past(text, 2))
}

/// The base of the number in front: 16 after `0x`, 2 after `0b`, else 10.
pub fn base_of(text: &[u8]) -> u8
    ensures { result ≡ base_of text.now }
{
    if is_marked(b'x', 16, text) {
        16
    } else if is_marked(b'b', 2, text) {
        2
    } else {
        10
    }
}

/// How many bytes the mark of a base takes: 2 for `0x` and `0b`, none for decimal numbers.
pub fn mark_of(base: u8) -> usize
    ensures { result ≡ mark_of base }
{
    if base == 10 { 0 } else { 2 }
}

/// The base that the first letter names after a quote: `d`, `h` or `b`; 0 for another.
pub fn letter_base(text: &[u8]) -> u8
    ensures { result ≡ letter_base text.now }
{
    match text {
        [b'd', ..] => 10,
        [b'h', ..] => 16,
        [b'b', ..] => 2,
        _ => 0,
    }
}
