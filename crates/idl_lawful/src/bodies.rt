//! Whether bodies and programs keep to what readers give.

ghost use Rattle.std.specs.Prelude.{◌≡◌, ◌↔◌, IsTrue};
ghost use Rattle.std.specs.List.{list_all};
ghost use Rattle.type_laws.specs.Given.{IsReadBody, IsBareProgram};
ghost use Rattle.idl_lawful.specs.Readings.{are_apart, is_parameter, is_read_body};
ghost use Rattle.idl_lawful.specs.Readings.{is_bare_body, is_bare_if_any, is_bare_kind, is_bare_reset};
ghost use Rattle.idl_lawful.specs.Readings.{has_bare_fields, is_bare_field, is_bare_function, is_bare_program};

use crate::literals::are_small_statements;
use idl_tree::{Body, CsrBody, FieldBodies, FieldKind, Function, Program, ResetValue, Variable};
use udb_base::{ParamSpace, Space};

fn is_parameter(params: &[ParamSpace], variable: &Variable) -> bool
    ensures { result ≡ is_parameter params.now variable.now }
{
    for param in params {
        if param.name == variable.name {
            return true;
        }
    }
    false
}

fn are_apart(params: &[ParamSpace], variables: &[Variable]) -> bool
    ensures { result ≡ are_apart params.now variables.now }
{
    for variable in variables {
        if is_parameter(params, variable) {
            return false;
        }
    }
    true
}

fn reads(space: &Space, body: &Body) -> bool
    ensures { result ≡ is_read_body space.now body.now }
{
    are_apart(space.params.as_slice(), body.variables.as_slice())
        && are_small_statements(body.statements.as_slice())
}

/// Whether no variable of an instruction's body has the name of a parameter, and its literals have
/// at most 128 bits. It takes no memory.
pub fn is_read_body(space: &Space, body: &Body) -> bool
    ensures { IsTrue result ↔ IsReadBody space.now body.now }
{
    reads(space, body)
}

fn is_bare_body(body: &Body) -> bool
    ensures { result ≡ is_bare_body body.now }
{
    body.variables.as_slice().is_empty() && are_small_statements(body.statements.as_slice())
}

fn is_bare_kind(kind: &FieldKind) -> bool
    ensures { result ≡ is_bare_kind kind.now }
{
    match kind {
        FieldKind::Plain(_) => true,
        FieldKind::Computed(body) => is_bare_body(body),
    }
}

fn is_bare_reset(reset: &ResetValue) -> bool
    ensures { result ≡ is_bare_reset reset.now }
{
    match reset {
        ResetValue::Plain(_) => true,
        ResetValue::Computed(body) => is_bare_body(body),
    }
}

fn is_bare_if_any(body: &Option<Body>) -> bool
    ensures { result ≡ is_bare_if_any body.now }
{
    match body {
        Some(body) => is_bare_body(body),
        None => true,
    }
}

fn is_bare_field(field: &FieldBodies) -> bool
    ensures { result ≡ is_bare_field field.now }
{
    is_bare_kind(&field.kind) && is_bare_reset(&field.reset) && is_bare_if_any(&field.write)
}

fn are_bare_fields(fields: &[FieldBodies]) -> bool
    ensures { result ≡ list_all is_bare_field fields.now }
{
    for field in fields {
        if !is_bare_field(field) {
            return false;
        }
    }
    true
}

fn have_bare_fields(csrs: &[CsrBody]) -> bool
    ensures { result ≡ list_all has_bare_fields csrs.now }
{
    for csr in csrs {
        if !are_bare_fields(csr.fields.as_slice()) {
            return false;
        }
    }
    true
}

fn are_bare_functions(functions: &[Function]) -> bool
    ensures { result ≡ list_all is_bare_function functions.now }
{
    for function in functions {
        if !is_bare_body(&function.body) {
            return false;
        }
    }
    true
}

fn is_bare(program: &Program) -> bool
    ensures { result ≡ is_bare_program program.now }
{
    are_bare_functions(program.functions.as_slice()) && have_bare_fields(program.csrs.as_slice())
}

/// Whether the bodies of functions and fields have no variables and literals of at most 128 bits.
/// It takes no memory.
pub fn is_bare_program(program: &Program) -> bool
    ensures { IsTrue result ↔ IsBareProgram program.now }
{
    is_bare(program)
}
