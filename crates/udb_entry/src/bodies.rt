//! Bodies and functions, read from the texts under their keys.

ghost use Rattle.std.specs.Prelude.{◌≡◌, ◌∷◌, [], codes, IfOk, string_bytes};
ghost use Rattle.udb_entry.specs.Bodies as spec;
ghost use Rattle.udb_entry.specs.Entries as entries;
ghost use Rattle.udb_entry.specs.Rules as rules;
ghost use Rattle.udb_entry.specs.First as first;
ghost use Rattle.udb_entry.specs.Keys as keys;
ghost use Rattle.udb_entry.specs.Parts.{Matches, IsUnread, Reads, ReadsBy};

use crate::answers::EntryFault;
use crate::chains::breach_of;
use crate::keys::{text_at, text_in, value_at};
use crate::rules::declared_names_rule;
use idl_parse::{ParseFault, parse_body, parse_functions};
use idl_tree::{Body, Functions};
use std::alloc::Global;
use udb_base::{Chars, Lines, Many, NoMemory};
use yaml_spec::{Pair, Tree};

/// How long a source may be for the places in it to be told; a longer one is want of memory.
const LONGEST: usize = 4_294_967_294;

fn body_answer(alloc: Global, source: &str) -> Result<Body, ParseFault>
    ensures bare { IfOk result (λ b. b.variables ≡ []) }
    ensures matches { Matches (λ b. b.statements) (spec.body_answer source.now) result }
{
    if source.len() > LONGEST {
        Err(ParseFault::Memory)
    } else {
        parse_body(alloc, source)
    }
}

fn functions_answer(alloc: Global, source: &str) -> Result<Functions, ParseFault>
    ensures { Matches (λ fs. fs) (spec.functions_answer source.now) result }
{
    if source.len() > LONGEST {
        Err(ParseFault::Memory)
    } else {
        parse_functions(alloc, source)
    }
}

// ---- faults

fn fault_lines(alloc: Global, name: &str, at: u32, word: &str) -> Result<Lines, NoMemory>
    ensures { IfOk result (λ lines. lines ≡ name.now ∷ rules.place_text at ∷ word.now ∷ []) }
{
    let mut lines = Many::new(alloc);
    lines.push(Chars::of(alloc, name)?)?;
    lines.push(Chars::from_string(format!(in alloc; "at {at}")?))?;
    lines.push(Chars::of(alloc, word)?)?;
    Ok(lines)
}

fn unread(alloc: Global, name: &str, fault: ParseFault) -> EntryFault
    ensures { IsUnread name.now fault result }
{
    match fault {
        ParseFault::Memory => EntryFault::Memory,
        ParseFault::BadToken { at } => breach_of(9, fault_lines(alloc, name, at, "BadToken")),
        ParseFault::Unexpected { at } => breach_of(9, fault_lines(alloc, name, at, "Unexpected")),
        ParseFault::TooDeep { at } => breach_of(9, fault_lines(alloc, name, at, "TooDeep")),
    }
}

// ---- bodies

// The body of a name, without variables.
fn body(alloc: Global, name: &str, source: &str) -> Result<Body, EntryFault>
    ensures { ReadsBy 9 (rules.body_rule name.now source.now) (spec.body_of source.now) result }
{
    match body_answer(alloc, source) {
        Ok(body) => Ok(body),
        Err(fault) => Err(unread(alloc, name, fault)),
    }
}

/// The body of an instruction, without variables; a missing one is empty. Rule 9 is that it can be
/// read.
pub fn operation(alloc: Global, tree: &Tree) -> Result<Body, EntryFault>
    ensures { ReadsBy 9
        (rules.body_rule (codes "operation()") (keys.text_at tree.now (codes "operation()")))
        (spec.body_of (keys.text_at tree.now (codes "operation()"))) result }
{
    body(alloc, "operation()", text_at(tree, "operation()"))
}

fn field_body_name(alloc: Global, field: &str, key: &str) -> Result<String, NoMemory>
    ensures { IfOk result (λ s. string_bytes s ≡ rules.field_body field.now key.now) }
{
    format!(in alloc; "{field}.{key}")
}

fn named_body(alloc: Global, field: &str, key: &str, source: &Tree) -> Result<Body, EntryFault>
    ensures { ReadsBy 9
        (rules.body_rule (rules.field_body field.now key.now) (keys.text_in source.now))
        (spec.body_of (keys.text_in source.now)) result }
{
    let name = field_body_name(alloc, field, key)?;
    body(alloc, name.as_str(), text_in(source))
}

/// The body under a key of a field, where there is one. Rule 9 is that it can be read.
pub fn field_body(alloc: Global, pair: &Pair, key: &str) -> Result<Option<Body>, EntryFault>
    ensures { ReadsBy 9 (rules.field_body_rule pair.now key.now)
        (entries.body_under pair.now.value key.now) result }
{
    match value_at(&pair.value, key) {
        Some(source) => Ok(Some(named_body(alloc, pair.key.as_str(), key, source)?)),
        None => Ok(None),
    }
}

// ---- functions

fn named_functions(alloc: Global, functions: Functions) -> Result<Functions, EntryFault>
    ensures { ReadsBy 4 (rules.declared_names functions) functions result }
{
    match declared_names_rule(alloc, functions.as_slice()) {
        Ok(Some(shows)) => Err(EntryFault::Broken { rule: 4, shows }),
        Ok(None) => Ok(functions),
        Err(_) => Err(EntryFault::Memory),
    }
}

fn functions_of(alloc: Global, source: &str) -> Result<Functions, EntryFault>
    ensures { Reads (first.first_of (first.functions_rules source.now))
        (spec.functions_of source.now) result }
{
    match functions_answer(alloc, source) {
        Ok(functions) => named_functions(alloc, functions),
        Err(fault) => Err(unread(alloc, "body", fault)),
    }
}

/// The functions of an entry. Rule 4 is that their names have their alphabet, where the text can be
/// read; rule 9 that it can be.
pub fn functions(alloc: Global, tree: &Tree) -> Result<Functions, EntryFault>
    ensures { Reads
        (first.first_of (first.functions_rules (keys.text_at tree.now (codes "body"))))
        (spec.functions_of (keys.text_at tree.now (codes "body"))) result }
{
    functions_of(alloc, text_at(tree, "body"))
}
