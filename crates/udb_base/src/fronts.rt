//! What follows a front of a text, and numbers from their texts.

ghost use Rattle.std.specs.Option.{option_copied};
ghost use Rattle.std.specs.Prelude.{◌≡◌, IfOk};
ghost use Rattle.udb_base.specs.Fronts.{IsNumberOf, after};

use crate::NoMemory;
use std::alloc::Global;

/// What follows a front, where the text has it.
pub fn strip_prefix<'a>(text: &'a [u8], front: &[u8]) -> Option<&'a [u8]>
    ensures { option_copied result ≡ after front.now text.now }
{
    if text.starts_with(front) {
        Some(text.split_at(front.len()).1)
    } else {
        None
    }
}

/// The number of 64 bits that a text is: decimal digits without leading zeros. None is any other text;
/// the one refusal is want of memory.
pub fn number_of_text(alloc: Global, text: &[u8]) -> Result<Option<u64>, NoMemory>
    ensures { IfOk result (IsNumberOf text.now) }
{
    let Ok(digits) = std::str::from_utf8(text) else {
        return Ok(None);
    };
    let Ok(number) = digits.parse::<u64>() else {
        return Ok(None);
    };
    let printed = format!(in alloc; "{number}")?;
    if printed.as_str() == digits {
        Ok(Some(number))
    } else {
        Ok(None)
    }
}
