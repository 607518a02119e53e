//! What is told of a state.

use idl_forms::harts::{FieldValue, HartState};
use std::alloc::Global;
use udb_base::NoMemory;

fn push_registers(
    alloc: Global,
    old: &HartState,
    new: &HartState,
    text: &mut String,
) -> Result<(), NoMemory> {
    for (place, (before, now)) in old.x.as_slice().iter().zip(new.x.as_slice()).enumerate() {
        if before != now {
            text.push_str(format!(in alloc; " x{place}={now:#x}")?.as_str())?;
        }
    }
    Ok(())
}

fn push_number(
    alloc: Global,
    name: &str,
    old: u64,
    new: u64,
    text: &mut String,
) -> Result<(), NoMemory> {
    if old != new {
        text.push_str(format!(in alloc; " {name}={new:#x}")?.as_str())?;
    }
    Ok(())
}

fn push_field(alloc: Global, field: &FieldValue, text: &mut String) -> Result<(), NoMemory> {
    let csr = field.csr.as_str();
    let name = field.field.as_str();
    let number = field.number;
    text.push_str(format!(in alloc; " {csr}.{name}={number:#x}")?.as_str())?;
    Ok(())
}

fn push_fields(
    alloc: Global,
    old: &HartState,
    new: &HartState,
    text: &mut String,
) -> Result<(), NoMemory> {
    for (before, now) in old.fields.as_slice().iter().zip(new.fields.as_slice()) {
        if before.number != now.number {
            push_field(alloc, now, text)?;
        }
    }
    Ok(())
}

fn push_bytes(
    alloc: Global,
    old: &HartState,
    new: &HartState,
    text: &mut String,
) -> Result<(), NoMemory> {
    for (place, (before, now)) in old
        .ram
        .as_slice()
        .iter()
        .zip(new.ram.as_slice())
        .enumerate()
    {
        if before != now {
            text.push_str(format!(in alloc; " ram[{place}]={now:#x}")?.as_str())?;
        }
    }
    Ok(())
}

/// What differs in a state from an earlier one: registers, program counters, the word, fields and bytes.
pub fn push_changes(
    alloc: Global,
    old: &HartState,
    new: &HartState,
    text: &mut String,
) -> Result<(), NoMemory> {
    push_registers(alloc, old, new, text)?;
    push_number(alloc, "pc", old.pc, new.pc, text)?;
    push_number(alloc, "next", old.next, new.next, text)?;
    push_number(
        alloc,
        "word",
        u64::from(old.word),
        u64::from(new.word),
        text,
    )?;
    push_fields(alloc, old, new, text)?;
    push_bytes(alloc, old, new, text)
}
