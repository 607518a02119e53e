//! The bits of fields.

ghost use Rattle.std.specs.Prelude.{◌≡◌, ◌<◌};
ghost use Rattle.idl_spec.specs.Fields.{place_for};
ghost use Rattle.udb_csr.specs.Faults.{IsPart, length_for};
ghost use Rattle.udb_csr.specs.Steps.{parts_meet, passes};

use idl_tree::{BitPart, FieldPlaces, Length};

/// The bits of a field for a width of the registers, where it has a place there.
pub fn place_for(registers: u64, places: &FieldPlaces) -> Option<BitPart>
    ensures { result ≡ place_for registers places.now }
{
    match places {
        FieldPlaces::All(part) => Some(*part),
        FieldPlaces::ByBase { rv32, rv64 } => {
            if registers == 64 {
                return *rv64;
            }
            *rv32
        }
    }
}

fn length_for(registers: u64, length: Length) -> u64
    ensures { result ≡ length_for registers length }
{
    match length {
        Length::Bits32 => 32,
        Length::Bits64 => 64,
        Length::Mxlen => registers,
    }
}

/// Whether two fields have a bit in common for a width of the registers.
pub fn parts_meet(registers: u64, first: &FieldPlaces, second: &FieldPlaces) -> bool
    ensures { result ≡ parts_meet registers first.now second.now }
{
    let Some(one) = place_for(registers, first) else {
        return false;
    };
    let Some(other) = place_for(registers, second) else {
        return false;
    };
    one.low <= other.high && other.low <= one.high
}

/// Whether a field has a bit past a register's length for a width of the registers.
pub fn passes(registers: u64, length: Length, places: &FieldPlaces) -> bool
    ensures { result ≡ passes registers length places.now }
{
    match place_for(registers, places) {
        Some(part) => length_for(registers, length) <= u64::from(part.high),
        None => false,
    }
}
