//! The bits of parts.

ghost use Rattle.std.specs.Prelude.{◌≡◌};
ghost use Rattle.entry_place.specs.Places as spec;

use idl_tree::BitPart;

/// How many bits a part has.
pub fn width(part: &BitPart) -> u32
    ensures { result ≡ spec.width part.now }
{
    u32::from(part.high.saturating_sub(part.low)) + 1
}

/// Whether the parts have at most so many bits.
pub fn has_bits_within(parts: &[BitPart], most: u32) -> bool
    ensures { result ≡ spec.has_bits_within most parts.now }
{
    let mut left = most;
    for part in parts {
        let bits = width(part);
        if bits > left {
            return false;
        }
        left -= bits;
    }
    true
}

fn are_apart(a: &BitPart, b: &BitPart) -> bool
    ensures { result ≡ spec.are_apart a.now b.now }
{
    a.high < b.low || b.high < a.low
}

/// Whether no bit of a part stands in any of the others.
pub fn is_apart_from(others: &[BitPart], part: &BitPart) -> bool
    ensures { result ≡ spec.is_apart_from others.now part.now }
{
    for other in others {
        if !are_apart(part, other) {
            return false;
        }
    }
    true
}

/// Whether no bit stands twice. The time is that of the parts squared.
pub fn has_each_bit_once(parts: &[BitPart]) -> bool
    ensures { result ≡ spec.has_each_bit_once parts.now }
{
    for (place, part) in parts.iter().enumerate() {
        if !is_apart_from(&parts[place + 1..], part) {
            return false;
        }
    }
    true
}
