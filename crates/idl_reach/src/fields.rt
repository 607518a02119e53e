//! The functions that bodies of fields reach.

ghost use Rattle.std.specs.Prelude.{◌≡◌, ◌++◌, map, flat_map, IfOk, OnOk};
ghost use Rattle.std.specs.List.{list_any};
ghost use Rattle.idl_spec.specs.Costs.{kind_bodies, reset_bodies, write_bodies, reached_by_fields};
ghost use Rattle.idl_reach.specs.Asked.{chosen, name_if, body_calls, bodies_of, fields_call, called_by_fields};

use crate::deeds::{Asked, any_in_statements};
use crate::reaching::{is_marked, mark_reached};
use idl_tree::{Body, CsrBody, FieldBodies, FieldKind, Function, Program, ResetValue};
use std::alloc::Global;
use udb_base::{Copied, Many, Name, NoMemory};

fn body_calls(name: &Name, body: &Body) -> bool
    ensures { result ≡ body_calls name.now body.now }
{
    any_in_statements(Asked::Calls(name), body.statements.as_slice())
}

fn kind_calls(name: &Name, kind: &FieldKind) -> bool
    ensures { result ≡ list_any (body_calls name.now) (kind_bodies kind.now) }
{
    match kind {
        FieldKind::Plain(_) => false,
        FieldKind::Computed(body) => body_calls(name, body),
    }
}

fn reset_calls(name: &Name, reset: &ResetValue) -> bool
    ensures { result ≡ list_any (body_calls name.now) (reset_bodies reset.now) }
{
    match reset {
        ResetValue::Plain(_) => false,
        ResetValue::Computed(body) => body_calls(name, body),
    }
}

fn write_calls(name: &Name, write: &Option<Body>) -> bool
    ensures { result ≡ list_any (body_calls name.now) (write_bodies write.now) }
{
    match write {
        None => false,
        Some(body) => body_calls(name, body),
    }
}

// Whether a body of a field calls the function of a name.
#[tactic(auto, using(crate::proofs::FieldCalls::call_laws))]
fn field_calls(name: &Name, field: &FieldBodies) -> bool
    ensures { result ≡ list_any (body_calls name.now) (bodies_of field.now) }
{
    kind_calls(name, &field.kind)
        || (reset_calls(name, &field.reset) || write_calls(name, &field.write))
}

#[tactic(auto, using(crate::proofs::FieldCalls::call_laws))]
fn any_field_calls(name: &Name, fields: &[FieldBodies]) -> bool
    ensures { result ≡ list_any (body_calls name.now) (flat_map bodies_of fields.now) }
{
    for field in fields {
        if field_calls(name, field) {
            return true;
        }
    }
    false
}

// Whether a body of a field of some CSR calls the function of a name.
#[tactic(auto, using(crate::proofs::FieldCalls::call_laws))]
fn any_csr_calls(name: &Name, csrs: &[CsrBody]) -> bool
    ensures { result ≡ fields_call name.now csrs.now }
{
    for csr in csrs {
        if any_field_calls(name, csr.fields.as_slice()) {
            return true;
        }
    }
    false
}

// Marks the functions that bodies of fields call.
fn mark_called_by_fields(alloc: Global, program: &Program) -> Result<Many<bool>, NoMemory>
    ensures { IfOk result (λ ms. chosen program.now.functions ms ≡ called_by_fields program.now) }
{
    let mut marks = Many::new(alloc);
    for f in program.functions.as_slice() {
        marks.push(any_csr_calls(&f.name, program.csrs.as_slice()))?;
    }
    Ok(marks)
}

fn push_if_marked(
    alloc: Global,
    mark: bool,
    f: &Function,
    names: &mut Many<Name>,
) -> Result<(), NoMemory>
    ensures { OnOk result (names.new ≡ names.old ++ name_if mark f.now) }
{
    if mark {
        names.push(f.name.copy(alloc)?)?;
    }
    Ok(())
}

// The names of the functions that are marked.
fn marked_names(
    alloc: Global,
    functions: &[Function],
    marks: &[bool],
) -> Result<Many<Name>, NoMemory>
    ensures { IfOk result (λ ns. ns ≡ map (λ f. f.name) (chosen functions.now marks.now)) }
{
    let mut names = Many::new(alloc);
    for (place, f) in functions.iter().enumerate() {
        push_if_marked(alloc, is_marked(marks, place), f, &mut names)?;
    }
    Ok(names)
}

/// The names of the functions that bodies of fields reach, themselves or through their calls. The
/// one refusal is want of memory.
pub fn reached_by_fields(alloc: Global, program: &Program) -> Result<Many<Name>, NoMemory>
    ensures { IfOk result (λ ns. ns ≡ reached_by_fields program.now) }
{
    let functions = program.functions.as_slice();
    let marks = mark_reached(alloc, functions, mark_called_by_fields(alloc, program)?)?;
    marked_names(alloc, functions, marks.as_slice())
}
