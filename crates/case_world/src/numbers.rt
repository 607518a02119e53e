//! Numbers of cases.

use std::alloc::Global;
use udb_base::NoMemory;

/// A number, in hexadecimal behind `0x`; 0 where the text is none.
pub fn number_of(text: &str) -> u64 {
    match text.strip_prefix("0x") {
        Some(digits) => u64::from_str_radix(digits, 16).unwrap_or(0),
        None => text.parse::<u64>().unwrap_or(0),
    }
}

fn digit_of(letter: char) -> u8 {
    match letter.to_digit(16) {
        Some(digit) => (digit % 16) as u8,
        None => 0,
    }
}

/// The bytes that pairs of hexadecimal digits write, in the order of the text.
pub fn bytes_of(alloc: Global, text: &str) -> Result<Vec<u8>, NoMemory> {
    let mut bytes = Vec::new(alloc);
    let mut high: Option<u8> = None;
    for letter in text.chars() {
        let digit = digit_of(letter);
        match high {
            Some(first) => {
                bytes.push(first % 16 * 16 + digit % 16)?;
                high = None;
            }
            None => high = Some(digit),
        }
    }
    Ok(bytes)
}
