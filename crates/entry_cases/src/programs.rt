//! Instructions, registers and functions as texts.

use case_text::line_of;
use cond_text::push_cond;
use entry_tree::{CsrEntry, Encoding, FieldEntry, FunctionsEntry, InstructionEntry};
use idl_print::{print_body, print_functions};
use idl_tree::{
    Base, BitPart, BitParts, Body, FieldKind, FieldPlaces, FieldType, Length, ResetValue, Variable,
};
use std::alloc::Global;
use udb_base::{Chars, NoMemory};

/// Appends a text in quotes, on one line.
pub fn push_text(alloc: Global, to: &mut String, text: &str) -> Result<(), NoMemory> {
    to.push_str(" \"")?;
    to.push_str(line_of(alloc, text)?.as_str())?;
    to.push_str("\"")
}

fn push_body(alloc: Global, to: &mut String, body: &Body) -> Result<(), NoMemory> {
    let text = print_body(alloc, body)?;
    push_text(alloc, to, text.as_str())
}

fn base_text(base: Base) -> &'static str {
    match base {
        Base::All => " all",
        Base::Rv32 => " RV32",
        Base::Rv64 => " RV64",
    }
}

fn push_part(to: &mut String, part: &BitPart) -> Result<(), NoMemory> {
    write!(to, " {}-{}", part.high, part.low)
}

fn push_parts(to: &mut String, parts: &BitParts) -> Result<(), NoMemory> {
    for part in parts.as_slice() {
        push_part(to, part)?;
    }
    Ok(())
}

fn push_encoding(to: &mut String, encoding: &Encoding) -> Result<(), NoMemory> {
    to.push_str(base_text(encoding.base))?;
    to.push_str(" ")?;
    to.push_str(encoding.digits.as_str())
}

fn push_variable(to: &mut String, variable: &Variable) -> Result<(), NoMemory> {
    to.push_str(base_text(variable.base))?;
    write!(to, " {} =", variable.name.as_str())?;
    push_parts(to, &variable.location)?;
    write!(to, " << {};", variable.shift)
}

/// Appends an instruction.
pub fn push_instruction(
    alloc: Global,
    to: &mut String,
    entry: &InstructionEntry,
) -> Result<(), NoMemory> {
    write!(to, "instruction {}", entry.name.as_str())?;
    push_text(alloc, to, entry.long_name.as_str())?;
    push_text(alloc, to, entry.description.as_str())?;
    push_text(alloc, to, entry.assembly.as_str())?;
    if let Some(base) = entry.base {
        write!(to, " base {base}")?;
    }
    for encoding in entry.encodings.as_slice() {
        push_encoding(to, encoding)?;
    }
    to.push_str(" variables")?;
    for variable in entry.operation.variables.as_slice() {
        push_variable(to, variable)?;
    }
    to.push_str(" defined ")?;
    push_cond(to, &entry.defined)?;
    push_body(alloc, to, &entry.operation)
}

fn push_places(to: &mut String, places: FieldPlaces) -> Result<(), NoMemory> {
    match places {
        FieldPlaces::All(part) => {
            to.push_str(" all")?;
            push_part(to, &part)
        }
        FieldPlaces::ByBase { rv32, rv64 } => {
            if let Some(part) = rv32 {
                to.push_str(" RV32")?;
                push_part(to, &part)?;
            }
            if let Some(part) = rv64 {
                to.push_str(" RV64")?;
                push_part(to, &part)?;
            }
            Ok(())
        }
    }
}

fn type_text(kind: FieldType) -> &'static str {
    match kind {
        FieldType::RO => " RO",
        FieldType::ROH => " RO-H",
        FieldType::RW => " RW",
        FieldType::RWR => " RW-R",
        FieldType::RWH => " RW-H",
        FieldType::RWRH => " RW-RH",
    }
}

fn push_kind(alloc: Global, to: &mut String, kind: &FieldKind) -> Result<(), NoMemory> {
    match kind {
        FieldKind::Plain(kind) => to.push_str(type_text(*kind)),
        FieldKind::Computed(body) => push_body(alloc, to, body),
    }
}

fn push_reset(alloc: Global, to: &mut String, reset: &ResetValue) -> Result<(), NoMemory> {
    match reset {
        ResetValue::Plain(value) => write!(to, " reset {value}"),
        ResetValue::Computed(body) => {
            to.push_str(" reset")?;
            push_body(alloc, to, body)
        }
    }
}

fn push_if_any(alloc: Global, to: &mut String, text: &Option<Chars>) -> Result<(), NoMemory> {
    match text {
        Some(text) => push_text(alloc, to, text.as_str()),
        None => to.push_str(" none"),
    }
}

fn push_field(alloc: Global, to: &mut String, field: &FieldEntry) -> Result<(), NoMemory> {
    write!(to, " {}", field.bodies.name.as_str())?;
    push_places(to, field.bodies.places)?;
    push_kind(alloc, to, &field.bodies.kind)?;
    push_reset(alloc, to, &field.bodies.reset)?;
    if let Some(body) = &field.bodies.write {
        to.push_str(" write")?;
        push_body(alloc, to, body)?;
    }
    to.push_str(" present ")?;
    push_cond(to, &field.bodies.present)?;
    push_if_any(alloc, to, &field.long_name)?;
    push_if_any(alloc, to, &field.description)?;
    to.push_str(";")
}

fn length_text(length: Length) -> &'static str {
    match length {
        Length::Bits32 => "32",
        Length::Bits64 => "64",
        Length::Mxlen => "MXLEN",
    }
}

/// Appends a control and status register.
pub fn push_csr(alloc: Global, to: &mut String, entry: &CsrEntry) -> Result<(), NoMemory> {
    write!(to, "csr {}", entry.name.as_str())?;
    push_text(alloc, to, entry.long_name.as_str())?;
    push_text(alloc, to, entry.description.as_str())?;
    write!(to, " {} {}", entry.address, length_text(entry.length))?;
    to.push_str(" defined ")?;
    push_cond(to, &entry.defined)?;
    to.push_str(" fields")?;
    for field in entry.fields.as_slice() {
        push_field(alloc, to, field)?;
    }
    Ok(())
}

/// Appends functions.
pub fn push_functions(
    alloc: Global,
    to: &mut String,
    entry: &FunctionsEntry,
) -> Result<(), NoMemory> {
    write!(to, "functions {}", entry.name.as_str())?;
    push_text(alloc, to, entry.long_name.as_str())?;
    push_text(alloc, to, entry.description.as_str())?;
    let text = print_functions(alloc, entry.functions.as_slice())?;
    push_text(alloc, to, text.as_str())
}
