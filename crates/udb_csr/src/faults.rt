//! The first fault of the fields of a CSR.

ghost use Rattle.std.specs.Prelude.{◌≡◌, ◌<◌, ◌+◌, ◌-◌, ◌^◌, IfOk, All, length};
ghost use Rattle.udb_spec.specs.Lawful.{Lawful};
ghost use Rattle.udb_spec.specs.ProofText.{HasShortPlaces};
ghost use Rattle.udb_refute.specs.Search.{HasShortLists, space_count};
ghost use Rattle.udb_csr.specs.Faults.{ArePlaces, IsFault};
ghost use Rattle.udb_csr.specs.Steps.{IsOverlapAt, IsFirstOverlap, IsFirstPast};

use crate::searching::{find_overlap, find_past};
use idl_tree::{CsrBody, FieldBodies};
use std::alloc::Global;
use udb_base::{Copied, Full, Name, NoMemory, Space, copy_two};

/// What is wrong with the fields of a CSR, with a valid full configuration that shows it.
#[derive(Drop)]
pub enum FieldFault {
    /// Two fields that are both present there share a bit; the first one stands before the second.
    FieldOverlap {
        first: Name,
        second: Name,
        shows: Full,
    },
    /// A field that is present there has a bit past the register's length.
    FieldPast {
        field: Name,
        shows: Full,
    },
}

fn told_overlap(
    alloc: Global,
    one: &FieldBodies,
    other: &FieldBodies,
    shows: Full,
) -> Result<FieldFault, NoMemory>
    ensures { IfOk result
        (λ fault. fault ≡ FieldFault.FieldOverlap one.now.name other.now.name shows) }
{
    let (first, second) = copy_two(alloc, &one.name, &other.name)?;
    Ok(FieldFault::FieldOverlap {
        first,
        second,
        shows,
    })
}

fn told_past(alloc: Global, field: &FieldBodies, shows: Full) -> Result<FieldFault, NoMemory>
    ensures { IfOk result (λ fault. fault ≡ FieldFault.FieldPast field.now.name shows) }
{
    Ok(FieldFault::FieldPast {
        field: field.name.copy(alloc)?,
        shows,
    })
}

// The overlap of a field with one that stands before it.
fn overlap_at(
    alloc: Global,
    space: &Space,
    csr: &CsrBody,
    at: usize,
) -> Result<Option<FieldFault>, NoMemory>
    requires lawful { Lawful space.now }
    requires lists { HasShortLists space.now }
    requires places { HasShortPlaces space.now }
    requires few { space_count space.now + 1 < 2 ^ 32 - 1 }
    requires parts { All (λ f. ArePlaces f.places) csr.now.fields }
    requires within { at < length csr.now.fields }
    ensures { IfOk result (IsOverlapAt space.now csr.now at) }
{
    let fields = csr.fields.as_slice();
    let other = &fields[at];
    for earlier in 0..at {
        let one = &fields[earlier];
        if let Some(shows) = find_overlap(alloc, space, csr, one, other)? {
            return Ok(Some(told_overlap(alloc, one, other, shows)?));
        }
    }
    Ok(None)
}

fn first_overlap(
    alloc: Global,
    space: &Space,
    csr: &CsrBody,
) -> Result<Option<FieldFault>, NoMemory>
    requires lawful { Lawful space.now }
    requires lists { HasShortLists space.now }
    requires places { HasShortPlaces space.now }
    requires few { space_count space.now + 1 < 2 ^ 32 - 1 }
    requires parts { All (λ f. ArePlaces f.places) csr.now.fields }
    ensures { IfOk result (IsFirstOverlap space.now csr.now) }
{
    for at in 0..csr.fields.len() {
        if let Some(fault) = overlap_at(alloc, space, csr, at)? {
            return Ok(Some(fault));
        }
    }
    Ok(None)
}

fn first_past(alloc: Global, space: &Space, csr: &CsrBody) -> Result<Option<FieldFault>, NoMemory>
    requires lawful { Lawful space.now }
    requires lists { HasShortLists space.now }
    requires places { HasShortPlaces space.now }
    requires few { space_count space.now + 1 < 2 ^ 32 - 1 }
    requires parts { All (λ f. ArePlaces f.places) csr.now.fields }
    ensures { IfOk result (IsFirstPast space.now csr.now) }
{
    let fields = csr.fields.as_slice();
    for at in 0..fields.len() {
        let field = &fields[at];
        if let Some(shows) = find_past(alloc, space, csr, field)? {
            return Ok(Some(told_past(alloc, field, shows)?));
        }
    }
    Ok(None)
}

/// What is wrong with the fields of a CSR, with a valid full configuration that shows it: two fields
/// that share a bit where there are any, else a field with a bit past the register's length (32, 64,
/// or MXLEN). A field counts where its CSR's and its own condition hold and it has a place for
/// MXLEN, which is 32 in a space without that parameter. None exactly where no valid full
/// configuration shows either. The one refusal is want of memory. Each pair of fields is asked about
/// only for the widths for which their places share a bit.
pub fn field_fault(
    alloc: Global,
    space: &Space,
    csr: &CsrBody,
) -> Result<Option<FieldFault>, NoMemory>
    requires lawful { Lawful space.now }
    requires lists { HasShortLists space.now }
    requires places { HasShortPlaces space.now }
    requires few { space_count space.now + 1 < 2 ^ 32 - 1 }
    requires parts { All (λ f. ArePlaces f.places) csr.now.fields }
    ensures { IfOk result (IsFault space.now csr.now) }
{
    match first_overlap(alloc, space, csr)? {
        Some(fault) => Ok(Some(fault)),
        None => first_past(alloc, space, csr),
    }
}
