//! Which body of a program is meant.

use idl_spec::BodyScope;
use idl_tree::{CsrBody, FieldBodies, Function, Program};

// No program of a case has more parts of a kind.
const MOST: usize = 65_536;

/// The function of a name, with its place.
pub fn function_named<'a>(functions: &'a [Function], name: &str) -> Option<(usize, &'a Function)> {
    for (place, function) in functions.iter().enumerate() {
        if function.name.as_str() == name {
            return Some((place, function));
        }
    }
    None
}

fn csr_named<'a>(csrs: &'a [CsrBody], name: &str) -> Option<(usize, &'a CsrBody)> {
    for (place, csr) in csrs.iter().enumerate() {
        if csr.name.as_str() == name {
            return Some((place, csr));
        }
    }
    None
}

fn field_place(fields: &[FieldBodies], name: &str) -> Option<usize> {
    for (place, field) in fields.iter().enumerate() {
        if field.name.as_str() == name {
            return Some(place);
        }
    }
    None
}

/// A place as scopes count it.
pub fn counted(place: usize) -> u32 {
    (place % MOST) as u32
}

fn scope_at(action: &str, csr: u32, field: u32) -> Option<BodyScope> {
    match action {
        "type" => Some(BodyScope::FieldType { csr, field }),
        "reset" => Some(BodyScope::FieldReset { csr, field }),
        "write" => Some(BodyScope::FieldWrite { csr, field }),
        _ => None,
    }
}

/// The scope that an action and words as `PRESENCE CSR.FIELD` name: an operation, or a body of a field.
pub fn scope_of(program: &Program, action: &str, words: &str) -> Option<BodyScope> {
    if action == "op" {
        return Some(BodyScope::Operation);
    }
    let (csr, field) = words.split_once('.')?;
    let (place, csr) = csr_named(program.csrs.as_slice(), csr)?;
    let field = field_place(csr.fields.as_slice(), field)?;
    scope_at(action, counted(place), counted(field))
}
