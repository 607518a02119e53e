//! What `$bits` can name.

ghost use Rattle.std.specs.Prelude.{◌≡◌, ◌≤◌, ◌++◌, map, sum_by, All, IfOk, OnOk, IfSome};
ghost use Rattle.idl_spec.specs.Fields.{variable_width, variables_for, variable_bits, field_bits, width_or_none, bits_scope};
ghost use Rattle.idl_forms.specs.Ready.{IsLawfulProgram, IsLawfulVariable, AreLawfulVariables, IsPart, ArePlaces};

use crate::fields::place_for;
use crate::names::{is_variable, part_width};
use idl_tree::{BitPart, Body, CsrBody, Program, Variable};
use idl_width::{BitsOf, BitsScope};
use std::alloc::Global;
use udb_base::{Copied, Many, Name, NoMemory, copy_two};

/// The bits of a variable with its left shift.
pub fn variable_width(variable: &Variable) -> u8
    requires lawful { IsLawfulVariable variable.now }
    ensures value { result ≡ variable_width variable.now }
    ensures bounds { (1 ≤ result) × (result ≤ 63) }
{
    let mut width = variable.shift;
    for part in variable.location.as_slice() {
        width += part_width(*part);
    }
    width
}

// The bits of the variables of a name for a width of the registers.
fn bits_for(registers: u8, variables: &[Variable], name: &Name) -> u8
    requires lawful { AreLawfulVariables variables.now }
    ensures { result ≡ sum_by variable_width (variables_for registers variables.now name.now) }
{
    for variable in variables {
        if is_variable(registers, variable, name) {
            return variable_width(variable);
        }
    }
    0
}

fn bits_of_variable(
    alloc: Global,
    variables: &[Variable],
    variable: &Variable,
) -> Result<BitsOf, NoMemory>
    requires lawful { AreLawfulVariables variables.now }
    ensures { IfOk result (λ b. b ≡ variable_bits variables.now variable.now) }
{
    Ok(BitsOf {
        csr: None,
        name: variable.name.copy(alloc)?,
        rv32: bits_for(32, variables, &variable.name),
        rv64: bits_for(64, variables, &variable.name),
    })
}

fn width_or_none(part: Option<BitPart>) -> u8
    requires part { IfSome part IsPart }
    ensures { result ≡ width_or_none part }
{
    match part {
        Some(part) => part_width(part),
        None => 0,
    }
}

// Appends the fields of a CSR.
fn push_fields(alloc: Global, scope: &mut BitsScope, csr: &CsrBody) -> Result<(), NoMemory>
    requires places { All (λ f. ArePlaces f.places) csr.now.fields }
    ensures { OnOk result (scope.new ≡ scope.old ++ map (field_bits csr.now.name) csr.now.fields) }
{
    for field in csr.fields.as_slice() {
        let (csr, name) = copy_two(alloc, &csr.name, &field.name)?;
        scope.push(BitsOf {
            csr: Some(csr),
            name,
            rv32: width_or_none(place_for(32, &field.places)),
            rv64: width_or_none(place_for(64, &field.places)),
        })?;
    }
    Ok(())
}

/// What `$bits` can name in a body with these variables.
#[tactic(auto, unfolding(idl_spec::specs::Fields::bits_scope))]
pub fn bits_scope(
    alloc: Global,
    program: &Program,
    variables: &[Variable],
) -> Result<BitsScope, NoMemory>
    requires program { IsLawfulProgram program.now }
    requires variables { AreLawfulVariables variables.now }
    ensures { IfOk result (λ s. s ≡ bits_scope program.now variables.now) }
{
    let mut scope = Many::new(alloc);
    for variable in variables {
        scope.push(bits_of_variable(alloc, variables, variable)?)?;
    }
    for csr in program.csrs.as_slice() {
        push_fields(alloc, &mut scope, csr)?;
    }
    Ok(scope)
}

/// What `$bits` can name in each of the bodies.
pub fn bits_scopes(
    alloc: Global,
    program: &Program,
    bodies: &[Body],
) -> Result<Many<BitsScope>, NoMemory>
    requires program { IsLawfulProgram program.now }
    requires variables { All (λ b. AreLawfulVariables b.variables) bodies.now }
    ensures { IfOk result (λ s. s ≡ map (λ b. bits_scope program.now b.variables) bodies.now) }
{
    let mut scopes = Many::new(alloc);
    for body in bodies {
        scopes.push(bits_scope(alloc, program, body.variables.as_slice())?)?;
    }
    Ok(scopes)
}
