//! Runs of bits and the places of fields.

ghost use Rattle.std.specs.Prelude.{◌≡◌};
ghost use Rattle.idl_lawful.specs.Tests.{is_part, is_part_if_any, are_places};

use idl_tree::{BitPart, FieldPlaces};

fn is_part(part: &BitPart) -> bool
    ensures { result ≡ is_part part.now }
{
    part.low <= part.high && part.high - part.low < 64
}

fn is_part_if_any(part: &Option<BitPart>) -> bool
    ensures { result ≡ is_part_if_any part.now }
{
    match part {
        Some(part) => is_part(part),
        None => true,
    }
}

/// Whether each place has 1 to 64 bits.
pub fn are_places(places: &FieldPlaces) -> bool
    ensures { result ≡ are_places places.now }
{
    match places {
        FieldPlaces::All(part) => is_part(part),
        FieldPlaces::ByBase { rv32, rv64 } => is_part_if_any(rv32) && is_part_if_any(rv64),
    }
}
