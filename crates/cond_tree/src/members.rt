//! Extensions that conditions and configurations name, with requirements on their versions.

ghost use Rattle.std.specs.Prelude.{◌≡◌, ◌↔◌, [], codes, IfOk};
ghost use Rattle.udb_base.specs.declared.versions.Requirement.{Requirement};
ghost use Rattle.udb_spec.specs.Grammar.{SpellsRequirement};
ghost use Rattle.udb_cond.specs.Requirements.{requirement_of};
ghost use Rattle.udb_base.specs.Lists as lists;
ghost use Rattle.cond_tree.specs.Values as values;
ghost use Rattle.cond_tree.specs.Members as spec;

use crate::values::{beside_name, is_name, one, only};
use entry_tree::{Member, Members};
use std::alloc::Global;
use udb_base::{Compare, Many, Name, NoMemory, Requirement, Requirements};
use udb_cond::parse_requirement;
use yaml_spec::{Pair, Tree};

/// What may stand under a member's `version`.
#[derive(Clone, Copy)]
pub enum Wanted {
    /// A requirement or a list of requirements.
    Any,
    /// One version.
    One,
}

// The definition is the one of the grammar: what is read is spelled, and each is read.
fn requirement_of(text: &str) -> Option<Requirement>
    ensures value { result ≡ requirement_of text.now }
    ensures spelled { (r : Requirement) → (result ≡ Some r) ↔ SpellsRequirement text.now r }
{
    parse_requirement(text).ok()
}

fn requirement_at(tree: &Tree) -> Option<Requirement>
    ensures { result ≡ spec.requirement_at tree.now }
{
    match tree.as_text() {
        Some(text) => requirement_of(text),
        None => None,
    }
}

#[tactic(auto, using(udb_base::specs::Lists::part_steps))]
fn each_requirement(alloc: Global, items: &[Tree]) -> Result<Option<Requirements>, NoMemory>
    ensures { IfOk result (λ r. r ≡ lists.each spec.requirement_at items.now) }
{
    let mut needs = Many::new(alloc);
    for item in items {
        match requirement_at(item) {
            Some(need) => needs.push(need)?,
            None => return Ok(None),
        }
    }
    Ok(Some(needs))
}

/// The requirements that stand under `version`: one, or a list of them that are all to be met.
/// An empty list asks nothing. A requirement is a text, so a number is none.
pub fn read_requirements(alloc: Global, tree: &Tree) -> Result<Option<Requirements>, NoMemory>
    ensures { IfOk result (λ r. r ≡ spec.requirements_of tree.now) }
{
    match tree.as_list() {
        Some(items) => each_requirement(alloc, items),
        None => one(alloc, requirement_at(tree)),
    }
}

fn if_exact(need: Requirement) -> Option<Requirement>
    ensures { result ≡ spec.if_compares need.compare need }
{
    match need.compare {
        Compare::Equal => Some(need),
        _ => None,
    }
}

fn exact_at(alloc: Global, tree: &Tree) -> Result<Option<Requirements>, NoMemory>
    ensures { IfOk result (λ r. r ≡ spec.exact_at tree.now) }
{
    match requirement_at(tree) {
        Some(need) => one(alloc, if_exact(need)),
        None => Ok(None),
    }
}

fn needs_by(alloc: Global, wanted: Wanted, tree: &Tree) -> Result<Option<Requirements>, NoMemory>
    ensures { IfOk result (λ r. r ≡ spec.needs_by wanted tree.now) }
{
    match wanted {
        Wanted::Any => read_requirements(alloc, tree),
        Wanted::One => exact_at(alloc, tree),
    }
}

fn member_named(
    alloc: Global,
    name: &Tree,
    needs: Option<Requirements>,
) -> Result<Option<Member>, NoMemory>
    ensures { IfOk result (λ r. r ≡ spec.member_named name.now needs) }
{
    let Some(text) = name.as_text() else {
        return Ok(None);
    };
    match needs {
        Some(needs) => Ok(Some(Member {
            name: Name::of(alloc, text)?,
            needs,
        })),
        None => Ok(None),
    }
}

fn name_alone(alloc: Global, entry: &Pair) -> Result<Option<Member>, NoMemory>
    ensures { IfOk result (λ r. r ≡ spec.name_alone entry.now) }
{
    if is_name(entry) {
        member_named(alloc, &entry.value, Some(Many::new(alloc)))
    } else {
        Ok(None)
    }
}

fn is_version(entry: &Pair) -> bool
    ensures { result ≡ values.is_key (codes "version") entry.now }
{
    entry.key.as_str() == "version"
}

fn name_beside(
    alloc: Global,
    wanted: Wanted,
    name: &Tree,
    entry: &Pair,
) -> Result<Option<Member>, NoMemory>
    ensures { IfOk result (λ r. r ≡ spec.name_beside wanted name.now entry.now) }
{
    if is_version(entry) {
        member_named(alloc, name, needs_by(alloc, wanted, &entry.value)?)
    } else {
        Ok(None)
    }
}

fn with_version(alloc: Global, wanted: Wanted, entries: &[Pair]) -> Result<Option<Member>, NoMemory>
    ensures { IfOk result (λ r. r ≡ spec.with_version wanted entries.now) }
{
    match beside_name(entries) {
        Some((name, entry)) => name_beside(alloc, wanted, name, entry),
        None => Ok(None),
    }
}

fn member_in(alloc: Global, wanted: Wanted, entries: &[Pair]) -> Result<Option<Member>, NoMemory>
    ensures { IfOk result (λ r. r ≡ spec.member_in wanted entries.now) }
{
    match only(entries) {
        Some(entry) => name_alone(alloc, entry),
        None => with_version(alloc, wanted, entries),
    }
}

fn any_version(alloc: Global, name: &str) -> Result<Member, NoMemory>
    ensures { IfOk result (λ m. m ≡ record { name = name.now; needs = [] }) }
{
    Ok(Member {
        name: Name::of(alloc, name)?,
        needs: Many::new(alloc),
    })
}

/// The extension that a tree names: its name, or a map with `name` and, optionally, `version`.
#[tactic(auto, using(yaml_spec::proofs::TreeLaws::layers), unfolding(crate::specs::Members::member_by))]
pub(crate) fn member_by(
    alloc: Global,
    wanted: Wanted,
    tree: &Tree,
) -> Result<Option<Member>, NoMemory>
    ensures { IfOk result (λ r. r ≡ spec.member_by wanted tree.now) }
{
    match tree {
        Tree::Text(name) => Ok(Some(any_version(alloc, name.as_str())?)),
        Tree::Map(entries) => member_in(alloc, wanted, entries.as_slice()),
        _ => Ok(None),
    }
}

#[tactic(auto, using(udb_base::specs::Lists::part_steps))]
fn each_member(alloc: Global, wanted: Wanted, items: &[Tree]) -> Result<Option<Members>, NoMemory>
    ensures { IfOk result (λ r. r ≡ lists.each (spec.member_by wanted) items.now) }
{
    let mut members = Many::new(alloc);
    for item in items {
        match member_by(alloc, wanted, item)? {
            Some(member) => members.push(member)?,
            None => return Ok(None),
        }
    }
    Ok(Some(members))
}

fn members_by(alloc: Global, wanted: Wanted, tree: &Tree) -> Result<Option<Members>, NoMemory>
    ensures { IfOk result (λ r. r ≡ values.one_or_list (spec.member_by wanted) tree.now) }
{
    match tree.as_list() {
        Some(items) => each_member(alloc, wanted, items),
        None => one(alloc, member_by(alloc, wanted, tree)?),
    }
}

/// The members of a configuration's `mandatory_extensions` or `prohibited_extensions`: names, or
/// maps with `name` and, optionally, `version`, which holds a requirement or a list of them. One
/// name or map counts as a list of one. None where a member can't be read.
pub fn read_members(alloc: Global, tree: &Tree) -> Result<Option<Members>, NoMemory>
    ensures { IfOk result (λ r. r ≡ spec.members_of tree.now) }
{
    members_by(alloc, Wanted::Any, tree)
}

/// The members of a configuration's `implemented_extensions`: as those of the other lists, but a
/// `version` is one version, with or without `=`.
pub fn read_implemented(alloc: Global, tree: &Tree) -> Result<Option<Members>, NoMemory>
    ensures { IfOk result (λ r. r ≡ spec.implemented_of tree.now) }
{
    members_by(alloc, Wanted::One, tree)
}
