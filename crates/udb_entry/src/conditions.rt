//! Conditions and members under keys.

ghost use Rattle.std.specs.Prelude.{◌≡◌, [], IfOk};
ghost use Rattle.std.specs.Option.{unwrap_or};
ghost use Rattle.udb_base.specs.declared.conditions.Cond.TheVariants as cond;
ghost use Rattle.udb_entry.specs.Entries as spec;
ghost use Rattle.udb_entry.specs.Rules as rules;
ghost use Rattle.udb_entry.specs.Parts.{ReadsBy};

use crate::answers::EntryFault;
use crate::chains::breach_of;
use crate::keys::value_at;
use crate::rules::one_line;
use cond_tree::{read_cond, read_implemented, read_members};
use entry_tree::Members;
use std::alloc::Global;
use udb_base::{Many, NoMemory};
use udb_cond::Cond;
use yaml_spec::Tree;

fn condition_at(alloc: Global, tree: &Tree, key: &str) -> Result<Option<Cond>, NoMemory>
    ensures { IfOk result (λ read. read ≡ spec.condition_at tree.now key.now) }
{
    match value_at(tree, key) {
        Some(value) => read_cond(alloc, value),
        None => Ok(Some(Cond::Always)),
    }
}

/// The condition under a key: `Always` where there is none. Rule 8 is that it can be read.
pub fn condition(alloc: Global, tree: &Tree, key: &str) -> Result<Cond, EntryFault>
    ensures { ReadsBy 8 (rules.condition_rule tree.now key.now)
        (unwrap_or (spec.condition_at tree.now key.now) cond.Always) result }
{
    match condition_at(alloc, tree, key)? {
        Some(read) => Ok(read),
        None => Err(breach_of(8, one_line(alloc, key))),
    }
}

fn members_at(alloc: Global, tree: &Tree, key: &str) -> Result<Option<Members>, NoMemory>
    ensures { IfOk result (λ read. read ≡ spec.members_at tree.now key.now) }
{
    match value_at(tree, key) {
        Some(value) => read_members(alloc, value),
        None => Ok(Some(Many::new(alloc))),
    }
}

/// The members under a key, in the order of the text. Rule 8 is that they can be read.
pub fn members(alloc: Global, tree: &Tree, key: &str) -> Result<Members, EntryFault>
    ensures { ReadsBy 8 (rules.members_rule tree.now key.now)
        (unwrap_or (spec.members_at tree.now key.now) []) result }
{
    match members_at(alloc, tree, key)? {
        Some(read) => Ok(read),
        None => Err(breach_of(8, one_line(alloc, key))),
    }
}

fn implemented_at(alloc: Global, tree: &Tree, key: &str) -> Result<Option<Members>, NoMemory>
    ensures { IfOk result (λ read. read ≡ spec.implemented_at tree.now key.now) }
{
    match value_at(tree, key) {
        Some(value) => read_implemented(alloc, value),
        None => Ok(Some(Many::new(alloc))),
    }
}

/// The members under a key that have one version or none. Rule 8 is that they can be read.
pub fn implemented(alloc: Global, tree: &Tree, key: &str) -> Result<Members, EntryFault>
    ensures { ReadsBy 8 (rules.implemented_rule tree.now key.now)
        (unwrap_or (spec.implemented_at tree.now key.now) []) result }
{
    match implemented_at(alloc, tree, key)? {
        Some(read) => Ok(read),
        None => Err(breach_of(8, one_line(alloc, key))),
    }
}
