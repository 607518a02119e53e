//! Conditions.

ghost use Rattle.std.specs.Prelude.{◌≡◌, IfOk, option_map};
ghost use Rattle.udb_base.specs.Lists as lists;
ghost use Rattle.cond_tree.specs.Values as values;
ghost use Rattle.cond_tree.specs.Conds as spec;

use crate::forms::{Form, Join};
use crate::members::{Wanted, member_by};
use crate::values::{beside_name, few_items, only, read_value};
use entry_tree::Member;
use std::alloc::Global;
use udb_base::{Boxed, Cond, Conds, Many, Name, NoMemory, Test, Value};
use yaml_spec::{Pair, Tree};

/// The most forms of a condition that stand round one another.
pub const DEEPEST: u32 = 12;

// ---- parameters

fn test_of(key: &str) -> Option<Test>
    ensures { result ≡ spec.test_of key.now }
{
    match key {
        "equal" => Some(Test::Equal),
        "notEqual" => Some(Test::NotEqual),
        "lessThan" => Some(Test::Below),
        "greaterThan" => Some(Test::Above),
        "lessThanOrEqual" => Some(Test::AtMost),
        "greaterThanOrEqual" => Some(Test::AtLeast),
        _ => None,
    }
}

fn is_number(value: &Value) -> bool
    ensures { result ≡ spec.is_number value.now }
{
    match value {
        Value::Number(_) => true,
        _ => false,
    }
}

// Whether a test and a value go together: only numbers are compared by their order.
fn is_testable(test: Test, value: &Value) -> bool
    ensures { result ≡ spec.is_testable test value.now }
{
    match test {
        Test::Equal => true,
        Test::NotEqual => true,
        _ => is_number(value),
    }
}

fn param_cond(alloc: Global, name: &str, test: Test, value: Value) -> Result<Option<Cond>, NoMemory>
    ensures { IfOk result (λ r. r ≡ spec.param_cond name.now test value) }
{
    if is_testable(test, &value) {
        Ok(Some(Cond::Param {
            name: Name::of(alloc, name)?,
            test,
            value,
        }))
    } else {
        Ok(None)
    }
}

fn param_cond_with(
    alloc: Global,
    name: &str,
    test: Test,
    tree: &Tree,
) -> Result<Option<Cond>, NoMemory>
    ensures { IfOk result (λ r. r ≡ spec.param_cond_with name.now test tree.now) }
{
    match read_value(alloc, tree)? {
        Some(value) => param_cond(alloc, name, test, value),
        None => Ok(None),
    }
}

fn atom(alloc: Global, name: &Tree, entry: &Pair) -> Result<Option<Cond>, NoMemory>
    ensures { IfOk result (λ r. r ≡ spec.atom_of name.now entry.now) }
{
    let Some(name) = name.as_text() else {
        return Ok(None);
    };
    match test_of(entry.key.as_str()) {
        Some(test) => param_cond_with(alloc, name, test, &entry.value),
        None => Ok(None),
    }
}

// The value under `name`, and the other entry.
fn param_parts(tree: &Tree) -> Option<(&Tree, &Pair)>
    ensures { option_map (λ x. (x.0.now, x.1.now)) result ≡ spec.param_parts tree.now }
{
    match tree.as_map() {
        Some(entries) => beside_name(entries),
        None => None,
    }
}

fn param(alloc: Global, tree: &Tree) -> Result<Option<Cond>, NoMemory>
    ensures { IfOk result (λ r. r ≡ spec.param_of tree.now) }
{
    match param_parts(tree) {
        Some((name, entry)) => atom(alloc, name, entry),
        None => Ok(None),
    }
}

// ---- forms

fn form_named(key: &str) -> Option<Form>
    ensures { result ≡ spec.form_named key.now }
{
    match key {
        "extension" => Some(Form::Extension),
        "param" => Some(Form::Param),
        "allOf" => Some(Form::Joined(Join::All)),
        "anyOf" => Some(Form::Joined(Join::Any)),
        "oneOf" => Some(Form::Joined(Join::One)),
        "not" => Some(Form::Not),
        _ => None,
    }
}

fn form_in(entry: &Pair) -> Option<(Form, &Tree)>
    ensures { option_map (λ x. (x.0, x.1.now)) result ≡ spec.form_in entry.now }
{
    match form_named(entry.key.as_str()) {
        Some(form) => Some((form, &entry.value)),
        None => None,
    }
}

fn only_entry(tree: &Tree) -> Option<&Pair>
    ensures { option_map (λ p. p.now) result ≡ values.only_entry tree.now }
{
    match tree.as_map() {
        Some(entries) => only(entries),
        None => None,
    }
}

fn form_of(tree: &Tree) -> Option<(Form, &Tree)>
    ensures { option_map (λ x. (x.0, x.1.now)) result ≡ spec.form_of tree.now }
{
    match only_entry(tree) {
        Some(entry) => form_in(entry),
        None => None,
    }
}

fn join(join: Join, parts: Conds) -> Cond
    ensures { result ≡ spec.join_of join parts }
{
    match join {
        Join::All => Cond::All(parts),
        Join::Any => Cond::Any(parts),
        Join::One => Cond::One(parts),
    }
}

fn join_if_any(kind: Join, parts: Option<Conds>) -> Option<Cond>
    ensures { result ≡ option_map (spec.join_of kind) parts }
{
    match parts {
        Some(parts) => Some(join(kind, parts)),
        None => None,
    }
}

fn negation(alloc: Global, part: Option<Cond>) -> Result<Option<Cond>, NoMemory>
    ensures { IfOk result (λ r. r ≡ option_map Cond.Not part) }
{
    match part {
        Some(part) => Ok(Some(Cond::Not(Boxed::new(alloc, part)?))),
        None => Ok(None),
    }
}

fn extension(member: Member) -> Cond
    ensures { result ≡ Cond.Ext member.name member.needs }
{
    let Member { name, needs } = member;
    Cond::Ext { name, needs }
}

#[cycle(conds)]
#[tactic(auto, using(udb_base::specs::Lists::part_steps))]
fn each_cond(alloc: Global, items: &[Tree], depth: u32) -> Result<Option<Conds>, NoMemory>
    ensures { IfOk result (λ r. r ≡ lists.each (spec.cond_of depth) items.now) }
{
    let mut parts = Many::new(alloc);
    for item in items {
        match cond_within(alloc, item, depth)? {
            Some(part) => parts.push(part)?,
            None => return Ok(None),
        }
    }
    Ok(Some(parts))
}

#[cycle(conds)]
fn parts_of(alloc: Global, tree: &Tree, depth: u32) -> Result<Option<Conds>, NoMemory>
    ensures { IfOk result (λ r. r ≡ spec.parts_of (spec.cond_of depth) tree.now) }
{
    match few_items(tree) {
        Some(parts) => each_cond(alloc, parts, depth),
        None => Ok(None),
    }
}

#[cycle(conds)]
fn by_form(alloc: Global, form: Form, tree: &Tree, depth: u32) -> Result<Option<Cond>, NoMemory>
    ensures { IfOk result (λ r. r ≡ spec.by_form (spec.cond_of depth) form tree.now) }
{
    match form {
        Form::Extension => cond_within(alloc, tree, depth),
        Form::Param => param(alloc, tree),
        Form::Joined(kind) => Ok(join_if_any(kind, parts_of(alloc, tree, depth)?)),
        Form::Not => negation(alloc, cond_within(alloc, tree, depth)?),
    }
}

#[cycle(conds)]
fn form_cond(alloc: Global, tree: &Tree, depth: u32) -> Result<Option<Cond>, NoMemory>
    ensures { IfOk result (λ r. r ≡ spec.form_cond (spec.cond_of depth) tree.now) }
{
    match form_of(tree) {
        Some((form, value)) => by_form(alloc, form, value, depth),
        None => Ok(None),
    }
}

#[cycle(conds)]
#[tactic(auto, using(crate::proofs::CondLaws::depths))]
fn cond_within(alloc: Global, tree: &Tree, depth: u32) -> Result<Option<Cond>, NoMemory>
    ensures { IfOk result (λ r. r ≡ spec.cond_of depth tree.now) }
{
    if depth == 0 {
        return Ok(None);
    }
    match member_by(alloc, Wanted::Any, tree)? {
        Some(member) => Ok(Some(extension(member))),
        None => form_cond(alloc, tree, depth - 1),
    }
}

/// The condition that a tree spells, None where it spells none. A condition is
/// - the name of an extension, or a map with `name` and, optionally, `version`, which holds a
///   requirement or a list of them that are all to be met;
/// - a map with one key: `extension` or `not` with a condition, `allOf`, `anyOf` or `oneOf` with a
///   list of one to 64 conditions, or `param` with a map of `name` and exactly one of `equal`,
///   `notEqual`, `lessThan`, `greaterThan`, `lessThanOrEqual` and `greaterThanOrEqual`, the last
///   four with a number.
///
/// Each of these forms counts one level, and at most 12 stand round one another. A name may be any
/// text here: whether it is one of the database is examined elsewhere.
pub fn read_cond(alloc: Global, tree: &Tree) -> Result<Option<Cond>, NoMemory>
    ensures { IfOk result (λ r. r ≡ spec.cond_of 12 tree.now) }
{
    cond_within(alloc, tree, DEEPEST)
}
