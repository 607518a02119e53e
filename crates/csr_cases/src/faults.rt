//! The faults of cases.

ghost use Rattle.std.specs.Prelude.{IsTrue, IfSome, All};
ghost use Rattle.udb_spec.specs.Lawful.{Lawful};
ghost use Rattle.case_space.specs.Small.{IsSmall};
ghost use Rattle.udb_csr.specs.Faults.{IsPart, ArePlaces};

use crate::registers::csr_of;
use case_space::{is_small, part_of, space_of};
use idl_tree::{BitPart, CsrBody, FieldBodies, FieldPlaces};
use std::alloc::Global;
use udb_base::{NoMemory, Partial, Space, both};
use udb_cond::mxlen;
use udb_csr::{FieldFault, field_fault};
use udb_lawful::is_lawful;

fn is_part(part: BitPart) -> bool
    ensures { IsTrue result → IsPart part }
{
    part.low <= part.high
}

fn is_part_or_none(part: Option<BitPart>) -> bool
    ensures { IsTrue result → IfSome part IsPart }
{
    match part {
        Some(part) => is_part(part),
        None => true,
    }
}

fn are_places(places: &FieldPlaces) -> bool
    ensures { IsTrue result → ArePlaces places.now }
{
    match places {
        FieldPlaces::All(part) => is_part(*part),
        FieldPlaces::ByBase { rv32, rv64 } => is_part_or_none(*rv32) && is_part_or_none(*rv64),
    }
}

fn are_fields(fields: &[FieldBodies]) -> bool
    ensures { IsTrue result → All (λ f. ArePlaces f.places) fields.now }
{
    for field in fields {
        if !are_places(&field.places) {
            return false;
        }
    }
    true
}

fn told_fault(
    alloc: Global,
    space: &Space,
    fault: &Option<FieldFault>,
) -> Result<String, NoMemory> {
    match fault {
        None => "none".to_string(alloc),
        Some(
            FieldFault::FieldOverlap {
                first,
                second,
                shows,
            },
        ) => {
            let width = mxlen(space, shows);
            format!(in alloc; "overlap {} {} at {width}", first.as_str(), second.as_str())
        }
        Some(FieldFault::FieldPast { field, shows }) => {
            let width = mxlen(space, shows);
            format!(in alloc; "past {} at {width}", field.as_str())
        }
    }
}

fn small_answer(
    alloc: Global,
    space: &Space,
    part: &Partial,
    csr: &CsrBody,
) -> Result<String, NoMemory>
    requires lawful { Lawful space.now }
    requires small { IsSmall space.now part.now }
{
    if !are_fields(csr.fields.as_slice()) {
        return "no case".to_string(alloc);
    }
    let fault = field_fault(alloc, space, csr)?;
    told_fault(alloc, space, &fault)
}

fn tested_answer(
    alloc: Global,
    space: &Space,
    part: &Partial,
    csr: &CsrBody,
) -> Result<String, NoMemory> {
    if !is_lawful(space) || !is_small(space, part) {
        return "no case".to_string(alloc);
    }
    small_answer(alloc, space, part, csr)
}

/// The fault of a CSR's fields.
pub fn fault_answer(alloc: Global, rest: &str) -> Result<String, NoMemory> {
    let (space, rest) = rest.split_once(' ').unwrap_or((rest, ""));
    let parts = both(part_of(alloc, "always"), csr_of(alloc, rest));
    let (space, (part, csr)) = both(space_of(alloc, space), parts)?;
    tested_answer(alloc, &space, &part, &csr)
}
