//! Whether a state of a hart is one of a full configuration for a program.

ghost use Rattle.std.specs.Prelude.{◌≡◌, ◌↔◌, ◌<◌, ◌^◌, nat_lt, map, All, IsTrue};
ghost use Rattle.std.specs.Option.{option_map};
ghost use Rattle.std.specs.List.{list_all};
ghost use Rattle.udb_spec.specs.Spaces.{mxlen};
ghost use Rattle.idl_spec.specs.Fields.{part_width, place_for, placed};
ghost use Rattle.idl_spec.specs.Programs.{IsState};
ghost use Rattle.idl_forms.specs.States.{field_of, state_of};
ghost use Rattle.idl_lawful.specs.Tests.{are_fields, behind, behind_csr, behind_csrs, bits_of_place, fits, fits_field, is_below_power};

use idl_forms::harts::{FieldValue, HartState};
use idl_tree::{BitPart, CsrBody, FieldBodies, FieldPlaces, Program};
use udb_base::{Full, Space};
use udb_cond::{holds, mxlen};

// Whether a number has at most so many bits.
pub(crate) fn has_bits(number: u64, bits: u64) -> bool
    ensures { result ≡ nat_lt number (2 ^ bits) }
{
    bits >= 64 || number >> bits == 0
}

pub(crate) fn have_bits(numbers: &[u64], bits: u64) -> bool
    ensures { result ≡ list_all (is_below_power bits) numbers.now }
{
    for number in numbers {
        if !has_bits(*number, bits) {
            return false;
        }
    }
    true
}

fn part_width(part: BitPart) -> u64
    ensures { result ≡ part_width part }
{
    u64::from(part.high.saturating_sub(part.low)) + 1
}

fn place_for(registers: u64, places: FieldPlaces) -> Option<BitPart>
    ensures { result ≡ place_for registers places }
{
    match places {
        FieldPlaces::All(part) => Some(part),
        FieldPlaces::ByBase { rv32, rv64 } => { if registers == 64 { rv64 } else { rv32 } }
    }
}

// The bits of a field, where it is present.
fn bits_of_field(space: &Space, full: &Full, field: &FieldBodies) -> Option<BitPart>
    ensures { result ≡ option_map bits_of_place (placed space.now full.now field.now) }
{
    if !holds(space, &field.present, full) {
        return None;
    }
    place_for(mxlen(space, full), field.places)
}

// Whether a value is a number of the field.
fn fits_field(csr: &CsrBody, field: &FieldBodies, bits: BitPart, value: &FieldValue) -> bool
    ensures { result ≡ fits_field csr.now.name field.now.name bits (field_of value.now) }
{
    value.csr == csr.name && value.field == field.name && has_bits(value.number, part_width(bits))
}

// The values behind the one of a field, which has one exactly where it is present.
fn behind_field<'a>(
    space: &Space,
    full: &Full,
    csr: &CsrBody,
    field: &FieldBodies,
    values: &'a [FieldValue],
) -> Option<&'a [FieldValue]>
    ensures { option_map (λ vs. map field_of vs.now) result ≡ behind csr.now
        (placed space.now full.now field.now) (map field_of values.now) }
{
    let Some(bits) = bits_of_field(space, full, field) else {
        return Some(values);
    };
    let value = values.first()?;
    if !fits_field(csr, field, bits, value) {
        return None;
    }
    Some(&values[1..])
}

// The values behind those of a CSR's fields.
fn behind_csr<'a>(
    space: &Space,
    full: &Full,
    csr: &CsrBody,
    values: &'a [FieldValue],
) -> Option<&'a [FieldValue]>
    ensures { option_map (λ vs. map field_of vs.now) result
        ≡ behind_csr space.now full.now csr.now (map field_of values.now) }
{
    if !holds(space, &csr.present, full) {
        return Some(values);
    }
    let mut left = values;
    for field in csr.fields.as_slice() {
        left = behind_field(space, full, csr, field, left)?;
    }
    Some(left)
}

// The values behind those of all fields.
fn behind_csrs<'a>(
    space: &Space,
    full: &Full,
    program: &Program,
    values: &'a [FieldValue],
) -> Option<&'a [FieldValue]>
    ensures { option_map (λ vs. map field_of vs.now) result
        ≡ behind_csrs space.now full.now program.now.csrs (map field_of values.now) }
{
    let mut left = values;
    for csr in program.csrs.as_slice() {
        left = behind_csr(space, full, csr, left)?;
    }
    Some(left)
}

fn are_fields(space: &Space, full: &Full, program: &Program, values: &[FieldValue]) -> bool
    ensures { result ≡ are_fields space.now full.now program.now (map field_of values.now) }
{
    match behind_csrs(space, full, program, values) {
        Some(left) => left.is_empty(),
        None => false,
    }
}

// What the types of numbers say of them.
fn of_8_bits(bytes: &[u8]) -> usize
    ensures { All (λ b. b < 256) bytes.now }
{
    bytes.len()
}

fn of_32_bits(word: u32) -> u32
    ensures same { result ≡ word }
    ensures limit { result < 2 ^ 32 }
{
    word
}

fn fits(space: &Space, full: &Full, program: &Program, state: &HartState) -> bool
    ensures { result ≡ fits space.now full.now program.now (state_of state.now) }
{
    let bits = mxlen(space, full);
    let x = state.x.as_slice();
    x[0] == 0
        && have_bits(x, bits)
        && has_bits(state.pc, bits)
        && has_bits(state.next, bits)
        && are_fields(space, full, program, state.fields.as_slice())
}

/// Whether a state is one of a full configuration for a program: no number has more bits than the
/// registers, the first register is 0, and it has exactly the fields that are present, in the order
/// of the program, each with a number that its bits hold. It takes no memory.
pub fn is_state(space: &Space, full: &Full, program: &Program, state: &HartState) -> bool
    ensures { IsTrue result ↔ IsState space.now full.now program.now (state_of state.now) }
{
    let _ = state.x.as_slice();
    let _ = of_8_bits(state.ram.as_slice());
    let _ = of_32_bits(state.word);
    fits(space, full, program, state)
}
