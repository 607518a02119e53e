//! The rules on names.

ghost use Rattle.std.specs.Prelude.{◌≡◌, ◌∷◌, [], IfOk, Some};
ghost use Rattle.udb_entry.specs.Rules as spec;
ghost use Rattle.udb_entry.specs.Alphabets.{is_field_name, is_local_name};

use crate::alphabets::{has_alphabet, is_field_name, is_local_name};
use crate::keys::text_at;
use idl_tree::Function;
use std::alloc::Global;
use udb_base::{Chars, Kind, Lines, Many, Name, NoMemory};
use yaml_spec::{Pair, Tree};

/// One line.
pub fn one_line(alloc: Global, text: &str) -> Result<Lines, NoMemory>
    ensures { IfOk result (λ lines. lines ≡ spec.one_line text.now) }
{
    let mut lines = Many::new(alloc);
    lines.push(Chars::of(alloc, text)?)?;
    Ok(lines)
}

/// The line in an answer.
pub fn show(alloc: Global, text: &str) -> Result<Option<Lines>, NoMemory>
    ensures { IfOk result (λ lines. lines ≡ Some (spec.one_line text.now)) }
{
    Ok(Some(one_line(alloc, text)?))
}

/// The name in the text is the row's.
pub fn name_rule(alloc: Global, name: &Name, tree: &Tree) -> Result<Option<Lines>, NoMemory>
    ensures { IfOk result (λ shows. shows ≡ spec.name_rule name.now tree.now) }
{
    let own = text_at(tree, "name");
    if own == name.as_str() {
        Ok(None)
    } else {
        show(alloc, own)
    }
}

/// The name has its alphabet.
pub fn alphabet_rule(alloc: Global, kind: Kind, tree: &Tree) -> Result<Option<Lines>, NoMemory>
    ensures { IfOk result (λ shows. shows ≡ spec.alphabet_rule kind tree.now) }
{
    let own = text_at(tree, "name");
    if has_alphabet(kind, own) {
        Ok(None)
    } else {
        show(alloc, own)
    }
}

/// The name of a field has its alphabet.
pub fn field_name_rule(alloc: Global, field: &Pair) -> Result<Option<Lines>, NoMemory>
    ensures { IfOk result
        (λ shows. shows ≡ spec.first_unfit is_field_name (field.now.key ∷ [])) }
{
    if is_field_name(field.key.as_str()) {
        Ok(None)
    } else {
        show(alloc, field.key.as_str())
    }
}

/// Shows the first of the variables' names of a match that isn't one of a variable.
pub fn variable_names_rule(alloc: Global, items: &[Tree]) -> Result<Option<Lines>, NoMemory>
    ensures { IfOk result
        (λ shows. shows ≡ spec.first_unfit is_local_name (spec.names_of items.now)) }
{
    for item in items {
        let name = text_at(item, "name");
        if !is_local_name(name) {
            return show(alloc, name);
        }
    }
    Ok(None)
}

/// Shows the first of the names of functions that isn't one of a function.
pub fn declared_names_rule(alloc: Global, functions: &[Function]) -> Result<Option<Lines>, NoMemory>
    ensures { IfOk result (λ shows. shows ≡ spec.declared_names functions.now) }
{
    for function in functions {
        if !is_local_name(function.name.as_str()) {
            return show(alloc, function.name.as_str());
        }
    }
    Ok(None)
}
