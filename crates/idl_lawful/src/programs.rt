//! Whether a program is lawful.

ghost use Rattle.std.specs.Prelude.{◌≡◌, ◌↔◌, IsTrue};
ghost use Rattle.std.specs.List.{list_all};
ghost use Rattle.udb_base.specs.Lists.{is_among, are_distinct};
ghost use Rattle.idl_forms.specs.Ready.{IsLawfulProgram};
ghost use Rattle.idl_lawful.specs.Tests.{is_same_csr, is_same_field, has_distinct_fields, has_places, passes, stands};

use crate::places::are_places;
use idl_tree::{CsrBody, FieldBodies, Program};

fn is_csr_among(csr: &CsrBody, others: &[CsrBody]) -> bool
    ensures { result ≡ is_among is_same_csr csr.now others.now }
{
    for other in others {
        if csr.name == other.name {
            return true;
        }
    }
    false
}

fn are_csrs_distinct(csrs: &[CsrBody]) -> bool
    ensures { result ≡ are_distinct is_same_csr csrs.now }
{
    for (place, csr) in csrs.iter().enumerate() {
        if is_csr_among(csr, &csrs[place + 1..]) {
            return false;
        }
    }
    true
}

fn is_field_among(field: &FieldBodies, others: &[FieldBodies]) -> bool
    ensures { result ≡ is_among is_same_field field.now others.now }
{
    for other in others {
        if field.name == other.name {
            return true;
        }
    }
    false
}

fn are_fields_distinct(fields: &[FieldBodies]) -> bool
    ensures { result ≡ are_distinct is_same_field fields.now }
{
    for (place, field) in fields.iter().enumerate() {
        if is_field_among(field, &fields[place + 1..]) {
            return false;
        }
    }
    true
}

fn stand(fields: &[FieldBodies]) -> bool
    ensures { result ≡ list_all stands fields.now }
{
    for field in fields {
        if !are_places(&field.places) {
            return false;
        }
    }
    true
}

fn have_distinct_fields(csrs: &[CsrBody]) -> bool
    ensures { result ≡ list_all has_distinct_fields csrs.now }
{
    for csr in csrs {
        if !are_fields_distinct(csr.fields.as_slice()) {
            return false;
        }
    }
    true
}

fn have_places(csrs: &[CsrBody]) -> bool
    ensures { result ≡ list_all has_places csrs.now }
{
    for csr in csrs {
        if !stand(csr.fields.as_slice()) {
            return false;
        }
    }
    true
}

fn passes(program: &Program) -> bool
    ensures { result ≡ passes program.now }
{
    let csrs = program.csrs.as_slice();
    are_csrs_distinct(csrs) && have_distinct_fields(csrs) && have_places(csrs)
}

/// Whether no two CSRs have one name, nor two fields of one CSR, and each field has 1 to 64 bits.
/// It takes no memory; the time grows with the square of the number of CSRs.
pub fn is_lawful_program(program: &Program) -> bool
    ensures { IsTrue result ↔ IsLawfulProgram program.now }
{
    passes(program)
}
