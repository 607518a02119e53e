//! The encodings of instructions, with their variables.

ghost use Rattle.std.specs.Prelude.{◌≡◌, ◌++◌, ◌∷◌, [], map, codes, IfOk, OnOk, Ok};
ghost use Rattle.udb_entry.specs.Entries as spec;
ghost use Rattle.udb_entry.specs.Rules as rules;
ghost use Rattle.udb_entry.specs.Keys as keys;
ghost use Rattle.udb_entry.specs.Parts.{ReadsBy, IsBroken};
ghost use Rattle.idl_tree.specs.declared.programs.Base.{Base};

use crate::answers::EntryFault;
use crate::chains::breach_of;
use crate::keys::{items_at, number_at, pairs_in, text_at, value_at};
use crate::rules::{one_line, variable_names_rule};
use entry_place::{fits_match, is_match, variable_location};
use entry_tree::{Encoding, Encodings};
use idl_tree::{Base, BitParts, Variable, Variables};
use std::alloc::Global;
use udb_base::{Chars, Lines, Many, Name, NoMemory};
use yaml_spec::{Pair, Tree};

/// What the encodings of an instruction are, and their variables.
#[derive(Drop)]
pub struct EncodingParts {
    pub encodings: Encodings,
    pub variables: Variables,
}

// ---- variables

fn location_at(alloc: Global, tree: &Tree) -> Result<Option<BitParts>, NoMemory>
    ensures { IfOk result (λ r. r ≡ spec.location_at tree.now) }
{
    match value_at(tree, "location") {
        Some(value) => variable_location(alloc, value),
        None => Ok(None),
    }
}

fn shift_of(number: u64) -> u8
    ensures { result ≡ spec.below 256 number }
{
    u8::try_from(number).unwrap_or(0)
}

fn variable(
    alloc: Global,
    base: Base,
    tree: &Tree,
    location: BitParts,
) -> Result<Variable, NoMemory>
    ensures { IfOk result (λ v. v ≡ spec.variable_by base tree.now location) }
{
    let name = Name::of(alloc, text_at(tree, "name"))?;
    let shift = shift_of(number_at(tree, "left_shift"));
    Ok(Variable {
        base,
        name,
        location,
        shift,
    })
}

// A variable whose location is well formed.
fn placed(alloc: Global, base: Base, tree: &Tree) -> Result<Option<Variable>, NoMemory>
    ensures { IfOk result (λ v. v ≡ spec.placed_variable base tree.now) }
{
    match location_at(alloc, tree)? {
        Some(location) => Ok(Some(variable(alloc, base, tree, location)?)),
        None => Ok(None),
    }
}

fn misfit(alloc: Global, tree: &Tree) -> EntryFault
    ensures { IsBroken 7 (Ok (rules.one_line (keys.text_at tree.now (codes "name")))) result }
{
    breach_of(7, one_line(alloc, text_at(tree, "name")))
}

fn variables(
    alloc: Global,
    base: Base,
    digits: &str,
    items: &[Tree],
) -> Result<Variables, EntryFault>
    ensures { ReadsBy 7 (rules.first_misfit digits.now base [] items.now)
        (map (spec.variable_of base) items.now) result }
{
    let mut variables = Many::new(alloc);
    for item in items {
        match placed(alloc, base, item)? {
            Some(variable) => {
                if !fits_match(digits, variables.as_slice(), &variable) {
                    return Err(misfit(alloc, item));
                }
                variables.push(variable)?;
            }
            None => return Err(misfit(alloc, item)),
        }
    }
    Ok(variables)
}

// ---- matches

fn form_variables(alloc: Global, base: Base, tree: &Tree) -> Result<Variables, EntryFault>
    ensures { ReadsBy 7 (rules.form_rule (spec.form base tree.now))
        (spec.variables_in base tree.now) result }
{
    let digits = text_at(tree, "match");
    if is_match(digits) {
        variables(alloc, base, digits, items_at(tree, "variables"))
    } else {
        Err(breach_of(7, one_line(alloc, "match")))
    }
}

fn push_encoding(alloc: Global, to: &mut Encodings, base: Base, tree: &Tree) -> Result<(), NoMemory>
    ensures { OnOk result (to.new ≡ to.old ++ spec.encoding_in base tree.now ∷ []) }
{
    let digits = Chars::of(alloc, text_at(tree, "match"))?;
    to.push(Encoding { base, digits })
}

fn one_form(alloc: Global, tree: &Tree) -> Result<EncodingParts, EntryFault>
    ensures { ReadsBy 7 (rules.form_rule (spec.form Base.All tree.now))
        (spec.forms (spec.form Base.All tree.now ∷ [])) result }
{
    let variables = form_variables(alloc, Base::All, tree)?;
    let mut encodings = Many::new(alloc);
    push_encoding(alloc, &mut encodings, Base::All, tree)?;
    Ok(EncodingParts {
        encodings,
        variables,
    })
}

fn base_of(key: &str) -> Base
    ensures { result ≡ spec.base_of key.now }
{
    if key == "RV32" {
        Base::Rv32
    } else {
        Base::Rv64
    }
}

fn forms_by_base(alloc: Global, pairs: &[Pair]) -> Result<EncodingParts, EntryFault>
    ensures { ReadsBy 7 (rules.first_form rules.form_rule (map spec.form_of pairs.now))
        (spec.forms (map spec.form_of pairs.now)) result }
{
    let mut encodings = Many::new(alloc);
    let mut variables = Many::new(alloc);
    for pair in pairs {
        let base = base_of(pair.key.as_str());
        variables.append(form_variables(alloc, base, &pair.value)?)?;
        push_encoding(alloc, &mut encodings, base, &pair.value)?;
    }
    Ok(EncodingParts {
        encodings,
        variables,
    })
}

fn forms_in(alloc: Global, tree: &Tree) -> Result<EncodingParts, EntryFault>
    ensures { ReadsBy 7 (rules.first_form rules.form_rule (spec.forms_in tree.now))
        (spec.forms (spec.forms_in tree.now)) result }
{
    match value_at(tree, "match") {
        Some(_) => one_form(alloc, tree),
        None => forms_by_base(alloc, pairs_in(tree)),
    }
}

/// The encodings of an instruction, in the order of the text. Rule 7 is that each match is 32 of
/// `0`, `1` and `-`, and that its variables have locations whose bits are `-` in it, with no bit and
/// no name twice.
pub fn forms(alloc: Global, tree: &Tree) -> Result<EncodingParts, EntryFault>
    ensures { ReadsBy 7 (rules.match_rule tree.now) (spec.forms (spec.forms_of tree.now)) result }
{
    match value_at(tree, "encoding") {
        Some(value) => forms_in(alloc, value),
        None => Ok(EncodingParts {
            encodings: Many::new(alloc),
            variables: Many::new(alloc),
        }),
    }
}

// ---- names

fn names_by_base(alloc: Global, pairs: &[Pair]) -> Result<Option<Lines>, NoMemory>
    ensures { IfOk result
        (λ shows. shows ≡ rules.first_form rules.form_names (map spec.form_of pairs.now)) }
{
    for pair in pairs {
        let shows = variable_names_rule(alloc, items_at(&pair.value, "variables"))?;
        if shows.is_some() {
            return Ok(shows);
        }
    }
    Ok(None)
}

fn names_in(alloc: Global, tree: &Tree) -> Result<Option<Lines>, NoMemory>
    ensures { IfOk result
        (λ shows. shows ≡ rules.first_form rules.form_names (spec.forms_in tree.now)) }
{
    match value_at(tree, "match") {
        Some(_) => variable_names_rule(alloc, items_at(tree, "variables")),
        None => names_by_base(alloc, pairs_in(tree)),
    }
}

/// Shows the first name of a variable that isn't one of a variable.
pub fn variables_rule(alloc: Global, tree: &Tree) -> Result<Option<Lines>, NoMemory>
    ensures { IfOk result (λ shows. shows ≡ rules.variables_rule tree.now) }
{
    match value_at(tree, "encoding") {
        Some(value) => names_in(alloc, value),
        None => Ok(None),
    }
}
