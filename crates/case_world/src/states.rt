//! States of cases.

use crate::numbers::{bytes_of, number_of};
use idl_forms::fields::place_for;
use idl_forms::harts::{FieldValue, FieldValues, HartState, Ram, Registers};
use idl_tree::{CsrBody, FieldBodies, Program};
use std::alloc::Global;
use udb_base::{Copied, Full, Name, NoMemory, Space, both};
use udb_cond::{holds, mxlen};

/// The most bytes of a memory.
const ROOM: usize = 65_536;

// What stands behind a name and `=` among words, and `other` where nothing does.
fn given<'a>(words: &'a str, name: &str, other: &'a str) -> &'a str {
    for word in words.split(' ') {
        if let Some((found, value)) = word.split_once('=') {
            if found == name {
                return value;
            }
        }
    }
    other
}

fn registers_of(words: &str) -> Registers {
    let mut registers = Registers::new();
    for word in words.split(' ') {
        if let Some((name, value)) = word.split_once('=') {
            if let Some(place) = name.strip_prefix('x') {
                let place = place.parse::<u8>().unwrap_or(0);
                if place < 32 {
                    registers.set(place, number_of(value));
                }
            }
        }
    }
    registers
}

fn is_present(space: &Space, full: &Full, field: &FieldBodies) -> bool {
    holds(space, &field.present, full)
        && place_for((mxlen(space, full) % 256) as u8, &field.places).is_some()
}

// The number of a field among words, as `CSR.FIELD=NUMBER`.
fn field_number(alloc: Global, words: &str, csr: &Name, field: &Name) -> Result<u64, NoMemory> {
    let name = format!(in alloc; "{}.{}", csr.as_str(), field.as_str())?;
    Ok(number_of(given(words, name.as_str(), "0")))
}

fn push_value(
    alloc: Global,
    words: &str,
    csr: &Name,
    field: &Name,
    values: &mut FieldValues,
) -> Result<(), NoMemory> {
    let number = field_number(alloc, words, csr, field)?;
    let (csr, field) = both(csr.copy(alloc), field.copy(alloc))?;
    values.push(FieldValue { csr, field, number })
}

fn push_values(
    alloc: Global,
    space: &Space,
    full: &Full,
    csr: &CsrBody,
    words: &str,
    values: &mut FieldValues,
) -> Result<(), NoMemory> {
    for field in csr.fields.as_slice() {
        if is_present(space, full, field) {
            push_value(alloc, words, &csr.name, &field.name, values)?;
        }
    }
    Ok(())
}

fn values_of(
    alloc: Global,
    space: &Space,
    full: &Full,
    program: &Program,
    words: &str,
) -> Result<FieldValues, NoMemory> {
    let mut values = FieldValues::new(alloc);
    for csr in program.csrs.as_slice() {
        if holds(space, &csr.present, full) {
            push_values(alloc, space, full, csr, words, &mut values)?;
        }
    }
    Ok(values)
}

fn ram_of(alloc: Global, bytes: &[u8]) -> Result<Ram, NoMemory> {
    if bytes.len() > ROOM {
        return Ram::new(alloc, &[], 0);
    }
    Ram::new(alloc, bytes, bytes.len() as u32)
}

fn memory_of(alloc: Global, text: &str) -> Result<Ram, NoMemory> {
    let bytes = bytes_of(alloc, text)?;
    ram_of(alloc, bytes.as_slice())
}

/// A state with the fields that are present: `x5=NUMBER`, `pc=NUMBER`, `next=NUMBER`, `word=NUMBER`,
/// `CSR.FIELD=NUMBER`, and `ram=BYTES` in hexadecimal digits; what isn't given is 0.
pub fn state_of(
    alloc: Global,
    space: &Space,
    full: &Full,
    program: &Program,
    words: &str,
) -> Result<HartState, NoMemory> {
    let memory = memory_of(alloc, given(words, "ram", ""));
    let (fields, ram) = both(values_of(alloc, space, full, program, words), memory)?;
    Ok(HartState {
        x: registers_of(words),
        pc: number_of(given(words, "pc", "0")),
        next: number_of(given(words, "next", "0")),
        word: (number_of(given(words, "word", "0")) % 4_294_967_296) as u32,
        fields,
        ram,
    })
}
