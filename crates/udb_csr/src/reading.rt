//! The number of a CSR.

ghost use Rattle.std.specs.Prelude.{◌≡◌, ◌*◌, ◌^◌, ◌%◌, filter_map, map, option_map, sum_by};
ghost use Rattle.udb_spec.specs.Lawful.{Lawful};
ghost use Rattle.udb_spec.specs.Spaces.{Valid, mxlen};
ghost use Rattle.idl_spec.specs.Harts.{field_number, is_field};
ghost use Rattle.idl_spec.specs.Fields.{place_for, placed, read_csr};
ghost use Rattle.idl_forms.specs.FieldSums.{number_at, one_placed};
ghost use Rattle.idl_forms.specs.States.{field_of, state_of};
ghost use Rattle.udb_csr.specs.Reads.{at_part};

use crate::parts::place_for;
use idl_forms::harts::{FieldValue, HartState};
use idl_forms::memory::truncated;
use idl_tree::{BitPart, CsrBody, FieldBodies};
use udb_base::{Full, Name, Space};
use udb_cond::{holds, mxlen};

fn is_field(value: &FieldValue, csr: &Name, field: &Name) -> bool
    ensures { result ≡ is_field csr.now field.now (field_of value.now) }
{
    value.csr == *csr && value.field == *field
}

// The number of a field.
#[tactic(auto, using(idl_forms::proofs::FieldPlaces::number_steps))]
fn field_number(fields: &[FieldValue], csr: &Name, field: &Name) -> Option<u64>
    ensures { result ≡ field_number (map field_of fields.now) csr.now field.now }
{
    for value in fields {
        if is_field(value, csr, field) {
            return Some(value.number);
        }
    }
    None
}

// A field's number at its place, modulo two to the power of 64.
fn at_place(number: u64, low: u16) -> u64
    ensures { result ≡ number * 2 ^ low % 2 ^ 64 }
{
    if low >= 64 {
        return 0;
    }
    number << low
}

// The bits of a field, where it is present.
fn bits_for(space: &Space, full: &Full, field: &FieldBodies) -> Option<BitPart>
    ensures { option_map (at_part field.now) result ≡ placed space.now full.now field.now }
{
    if !holds(space, &field.present, full) {
        return None;
    }
    place_for(mxlen(space, full), &field.places)
}

// The number of a field at its place, 0 where the field isn't present.
fn part_of(space: &Space, full: &Full, csr: &Name, field: &FieldBodies, state: &HartState) -> u64
    ensures { result ≡ sum_by (number_at csr.now (state_of state.now))
        (one_placed (placed space.now full.now field.now)) % 2 ^ 64 }
{
    match bits_for(space, full, field) {
        Some(bits) => {
            let number = field_number(state.fields.as_slice(), csr, &field.name);
            at_place(number.unwrap_or(0), bits.low)
        }
        None => 0,
    }
}

// The fields' numbers at their places, modulo two to the power of 64.
fn sum_of_fields(space: &Space, full: &Full, csr: &CsrBody, state: &HartState) -> u64
    ensures { result ≡ sum_by (number_at csr.now.name (state_of state.now))
        (filter_map (placed space.now full.now) csr.now.fields) % 2 ^ 64 }
{
    let mut sum: u64 = 0;
    for field in csr.fields.as_slice() {
        sum = sum.wrapping_add(part_of(space, full, &csr.name, field, state));
    }
    sum
}

/// The number of a CSR in a state of a full configuration: the numbers of its present fields at
/// their places, modulo two to the power of MXLEN, and all other bits 0; 0 where the CSR isn't
/// present.
pub fn read_csr(space: &Space, csr: &CsrBody, full: &Full, state: &HartState) -> u64
    requires lawful { Lawful space.now }
    requires valid { Valid space.now full.now }
    ensures { result ≡ read_csr space.now full.now csr.now (state_of state.now) }
{
    if !holds(space, &csr.present, full) {
        return 0;
    }
    truncated(
        mxlen(space, full) as u8,
        sum_of_fields(space, full, csr, state),
    )
}
