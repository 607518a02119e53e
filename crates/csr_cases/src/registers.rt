//! The CSRs of cases.

use case_space::cond_of;
use idl_tree::{
    BitPart, CsrBody, FieldBodies, FieldKind, FieldPlaces, FieldType, Fields, Length, ResetValue,
};
use std::alloc::Global;
use udb_base::{Cond, Many, Name, NoMemory, both};

fn number(text: &str) -> u16 {
    text.parse::<u16>().unwrap_or(0)
}

fn part_of(text: &str) -> BitPart {
    let (high, low) = text.split_once('-').unwrap_or((text, text));
    BitPart {
        high: number(high),
        low: number(low),
    }
}

fn place_of(text: &str) -> Option<BitPart> {
    if text == "none" {
        None
    } else {
        Some(part_of(text))
    }
}

fn places_of(text: &str) -> FieldPlaces {
    match text.split_once('/') {
        Some((rv32, rv64)) => FieldPlaces::ByBase {
            rv32: place_of(rv32),
            rv64: place_of(rv64),
        },
        None => FieldPlaces::All(part_of(text)),
    }
}

fn named_field(name: Name, present: Cond, places: FieldPlaces) -> FieldBodies {
    FieldBodies {
        name,
        present,
        places,
        kind: FieldKind::Plain(FieldType::RW),
        reset: ResetValue::Plain(0),
        write: None,
    }
}

fn field_of(alloc: Global, text: &str) -> Result<FieldBodies, NoMemory> {
    let (name, rest) = text.split_once('=').unwrap_or((text, ""));
    let (places, present) = rest.split_once('=').unwrap_or((rest, "always"));
    let (name, present) = both(Name::of(alloc, name), cond_of(alloc, present))?;
    Ok(named_field(name, present, places_of(places)))
}

fn add(to: &mut Fields, one: Result<FieldBodies, NoMemory>) -> Result<(), NoMemory> {
    to.push(one?)?;
    Ok(())
}

fn fields_of(alloc: Global, text: &str) -> Result<Fields, NoMemory> {
    let mut fields = Many::new(alloc);
    for word in text.split(' ') {
        add(&mut fields, field_of(alloc, word))?;
    }
    Ok(fields)
}

fn length_of(text: &str) -> Length {
    match text {
        "32" => Length::Bits32,
        "64" => Length::Bits64,
        _ => Length::Mxlen,
    }
}

/// The CSR of a case: its length, its condition and its fields.
pub fn csr_of(alloc: Global, text: &str) -> Result<CsrBody, NoMemory> {
    let (length, rest) = text.split_once(' ').unwrap_or((text, ""));
    let (present, fields) = rest.split_once(' ').unwrap_or((rest, ""));
    let parts = both(cond_of(alloc, present), fields_of(alloc, fields));
    let (name, (present, fields)) = both(Name::of(alloc, "c"), parts)?;
    Ok(CsrBody {
        name,
        present,
        address: 0,
        length: length_of(length),
        fields,
    })
}
