//! The YAML values of cases.

use cond_tree::{read_cond, read_implemented, read_members};
use entry_tree::Members;
use std::alloc::Global;
use udb_base::NoMemory;
use udb_cond::Cond;
use udb_yaml::read_tree;

/// The condition that a text spells, where it spells one.
pub fn cond_of(alloc: Global, text: &str) -> Result<Option<Cond>, NoMemory> {
    match read_tree(alloc, text) {
        Ok(tree) => read_cond(alloc, &tree),
        Err(_) => Ok(None),
    }
}

/// The members that a text spells; with one version each, or none, where that is asked.
pub fn members_of(
    alloc: Global,
    text: &str,
    implemented: bool,
) -> Result<Option<Members>, NoMemory> {
    match read_tree(alloc, text) {
        Ok(tree) if implemented => read_implemented(alloc, &tree),
        Ok(tree) => read_members(alloc, &tree),
        Err(_) => Ok(None),
    }
}
