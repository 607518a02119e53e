//! Full configurations in which fields share a bit or pass their register's length.

ghost use Rattle.std.specs.Prelude.{◌≡◌, ◌<◌, ◌+◌, ◌-◌, ◌^◌, IfOk};
ghost use Rattle.std.specs.List.{list_any};
ghost use Rattle.udb_spec.specs.Conditions.{same_bytes};
ghost use Rattle.udb_spec.specs.Lawful.{Lawful};
ghost use Rattle.udb_spec.specs.ProofText.{HasShortPlaces};
ghost use Rattle.udb_refute.specs.Search.{HasShortLists, space_count};
ghost use Rattle.udb_csr.specs.Faults.{ArePlaces, SharesBit, PassesLength};
ghost use Rattle.udb_csr.specs.Steps.{has_width, width_is, both_present, ArePresent, IsShown, IsWidth, SharesFor, PassesFor};

use crate::parts::{parts_meet, passes};
use idl_tree::{CsrBody, FieldBodies};
use std::alloc::Global;
use udb_base::{Cond, Copied, Full, Many, Name, NoMemory, ParamSpace, Partial, Space, Test, Value};
use udb_refute::{Found, find};

fn has_name(param: &ParamSpace, name: &str) -> bool
    ensures { result ≡ same_bytes param.now.name name.now }
{
    param.name.as_str() == name
}

fn has_param(params: &[ParamSpace], name: &str) -> bool
    ensures { result ≡ list_any (λ p. same_bytes p.name name.now) params.now }
{
    for param in params {
        if has_name(param, name) {
            return true;
        }
    }
    false
}

fn has_width(space: &Space) -> bool
    ensures { result ≡ has_width space.now }
{
    has_param(space.params.as_slice(), "MXLEN")
}

// The condition that the registers have a width.
fn width_is(alloc: Global, space: &Space, registers: u64) -> Result<Cond, NoMemory>
    ensures { IfOk result (λ cond. cond ≡ width_is space.now registers) }
{
    if has_width(space) {
        return Ok(Cond::Param {
            name: Name::of(alloc, "MXLEN")?,
            test: Test::Equal,
            value: Value::Number(registers),
        });
    }
    if registers == 32 {
        Ok(Cond::Always)
    } else {
        Ok(Cond::Never)
    }
}

// The condition that a CSR and two of its fields are present for a width of the registers.
fn both_present(
    alloc: Global,
    space: &Space,
    csr: &CsrBody,
    one: &FieldBodies,
    other: &FieldBodies,
    registers: u64,
) -> Result<Cond, NoMemory>
    ensures { IfOk result
        (λ cond. cond ≡ both_present space.now csr.now one.now other.now registers) }
{
    let mut parts = Many::new(alloc);
    parts.push(csr.present.copy(alloc)?)?;
    parts.push(one.present.copy(alloc)?)?;
    parts.push(other.present.copy(alloc)?)?;
    parts.push(width_is(alloc, space, registers)?)?;
    Ok(Cond::All(parts))
}

// A valid full configuration that has a CSR and two of its fields for a width of the registers.
fn find_width(
    alloc: Global,
    space: &Space,
    csr: &CsrBody,
    one: &FieldBodies,
    other: &FieldBodies,
    registers: u64,
) -> Result<Option<Full>, NoMemory>
    requires lawful { Lawful space.now }
    requires lists { HasShortLists space.now }
    requires places { HasShortPlaces space.now }
    requires few { space_count space.now + 1 < 2 ^ 32 - 1 }
    requires width { IsWidth registers }
    ensures { IfOk result (IsShown (ArePresent space.now csr.now one.now other.now registers)) }
{
    let part = Partial {
        constraints: Many::new(alloc),
    };
    let cond = both_present(alloc, space, csr, one, other, registers)?;
    match find(alloc, space, &part, &cond)? {
        Found::Completion(full) => Ok(Some(full)),
        Found::Refuted(_proof) => Ok(None),
    }
}

fn overlap_for(
    alloc: Global,
    space: &Space,
    csr: &CsrBody,
    one: &FieldBodies,
    other: &FieldBodies,
    registers: u64,
) -> Result<Option<Full>, NoMemory>
    requires lawful { Lawful space.now }
    requires lists { HasShortLists space.now }
    requires places { HasShortPlaces space.now }
    requires few { space_count space.now + 1 < 2 ^ 32 - 1 }
    requires width { IsWidth registers }
    requires one { ArePlaces one.now.places }
    requires other { ArePlaces other.now.places }
    ensures { IfOk result (IsShown (SharesFor space.now csr.now one.now other.now registers)) }
{
    if !parts_meet(registers, &one.places, &other.places) {
        return Ok(None);
    }
    find_width(alloc, space, csr, one, other, registers)
}

/// A valid full configuration in which two fields of a CSR are present and share a bit.
pub fn find_overlap(
    alloc: Global,
    space: &Space,
    csr: &CsrBody,
    one: &FieldBodies,
    other: &FieldBodies,
) -> Result<Option<Full>, NoMemory>
    requires lawful { Lawful space.now }
    requires lists { HasShortLists space.now }
    requires places { HasShortPlaces space.now }
    requires few { space_count space.now + 1 < 2 ^ 32 - 1 }
    requires one { ArePlaces one.now.places }
    requires other { ArePlaces other.now.places }
    ensures { IfOk result (IsShown (SharesBit space.now csr.now one.now other.now)) }
{
    match overlap_for(alloc, space, csr, one, other, 32)? {
        Some(full) => Ok(Some(full)),
        None => overlap_for(alloc, space, csr, one, other, 64),
    }
}

fn past_for(
    alloc: Global,
    space: &Space,
    csr: &CsrBody,
    field: &FieldBodies,
    registers: u64,
) -> Result<Option<Full>, NoMemory>
    requires lawful { Lawful space.now }
    requires lists { HasShortLists space.now }
    requires places { HasShortPlaces space.now }
    requires few { space_count space.now + 1 < 2 ^ 32 - 1 }
    requires width { IsWidth registers }
    requires field { ArePlaces field.now.places }
    ensures { IfOk result (IsShown (PassesFor space.now csr.now field.now registers)) }
{
    if !passes(registers, csr.length, &field.places) {
        return Ok(None);
    }
    find_width(alloc, space, csr, field, field, registers)
}

/// A valid full configuration in which a field of a CSR is present and passes its length.
pub fn find_past(
    alloc: Global,
    space: &Space,
    csr: &CsrBody,
    field: &FieldBodies,
) -> Result<Option<Full>, NoMemory>
    requires lawful { Lawful space.now }
    requires lists { HasShortLists space.now }
    requires places { HasShortPlaces space.now }
    requires few { space_count space.now + 1 < 2 ^ 32 - 1 }
    requires field { ArePlaces field.now.places }
    ensures { IfOk result (IsShown (PassesLength space.now csr.now field.now)) }
{
    match past_for(alloc, space, csr, field, 32)? {
        Some(full) => Ok(Some(full)),
        None => past_for(alloc, space, csr, field, 64),
    }
}
