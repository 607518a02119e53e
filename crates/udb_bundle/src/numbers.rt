//! The numbers in headings and images.

ghost use Rattle.std.specs.Prelude.{◌≡◌, ◌==◌, IfOk};
ghost use Rattle.std.specs.List.{list_all};
ghost use Rattle.std.specs.Char.{is_ascii_hexdigit};
ghost use Rattle.std.specs.Str.{all_ascii_digits};
ghost use Rattle.udb_bundle.specs.Bundles.{is_count, is_word};
ghost use Rattle.udb_bundle.specs.Reading.{count_of, count_within, word_of};

use std::alloc::Global;
use std::marker::Model;
use udb_base::{Chars, NoMemory};

fn all_digits(bytes: &[u8]) -> bool
    ensures { result ≡ all_ascii_digits bytes.now }
{
    bytes.iter().all(|byte| byte.is_ascii_digit())
}

fn all_hexadecimal(bytes: &[u8]) -> bool
    ensures { result ≡ list_all is_ascii_hexdigit bytes.now }
{
    bytes.iter().all(|byte| byte.is_ascii_hexdigit())
}

// Decimal digits without a leading zero.
fn is_count(digits: &[u8]) -> bool
    ensures { result ≡ is_count digits.now }
{
    all_digits(digits) && (!digits.is_empty() && (digits.len() == 1 || digits[0] != b'0'))
}

// 8 hexadecimal digits of either case.
fn is_word(line: &[u8]) -> bool
    ensures { result ≡ is_word line.now }
{
    line.len() == 8 && all_hexadecimal(line)
}

/// The number that a heading's digits give, where it is at most so much.
pub fn count_within(most: u32, digits: &str) -> Option<u32>
    ensures { result ≡ count_within most digits.now }
{
    if !is_count(digits.as_bytes()) {
        return None;
    }
    match digits.parse::<u32>() {
        Ok(count) if count <= most => Some(count),
        _ => None,
    }
}

/// How many lines a heading counts, seen as that number. It keeps the digits, since it may pass every
/// integer type: a proof has any number of lines.
#[derive(Drop)]
pub struct Count {
    digits: Chars,
}

impl Model for Count {
    ghost use Rattle.std.specs.Prelude.{◌≡◌, ℕ, true};
    ghost use Rattle.std.specs.Str.Parse.{digits_value};

    ghost Value = { ℕ };

    ghost use Rattle.udb_bundle.specs.Bundles.{is_count};

    ghost view = { λ c. digits_value 10 c.digits };

    ghost invariant = { λ c. is_count c.digits ≡ true };
}

impl Count {
    /// The number of a heading's digits, where they give one.
    pub fn of(alloc: Global, digits: &str) -> Result<Option<Count>, NoMemory>
        ensures { IfOk result (λ count. count ≡ count_of digits.now) }
    {
        if is_count(digits.as_bytes()) {
            let digits = Chars::of(alloc, digits)?;
            Ok(Some(Count { digits }))
        } else {
            Ok(None)
        }
    }

    /// Whether it is this number.
    pub fn is(&self, number: usize) -> bool
        ensures { result ≡ (self.now == number) }
    {
        match self.digits.as_str().parse::<usize>() {
            Ok(count) => count == number,
            Err(_) => false,
        }
    }
}

/// The word that a line of an image gives.
pub fn word(line: &str) -> Option<u32>
    ensures { result ≡ word_of line.now }
{
    if !is_word(line.as_bytes()) {
        return None;
    }
    match u32::from_str_radix(line, 16) {
        Ok(word) => Some(word),
        Err(_) => None,
    }
}
