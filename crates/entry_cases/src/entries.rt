//! Entries as texts.

use crate::programs::{push_csr, push_functions, push_instruction, push_text};
use cond_text::{push_cond, push_members, push_value, push_version};
use std::alloc::Global;
use udb_base::{Cond, Domain, Listed, NoMemory, Value};
use udb_entry::{ConfigEntry, ConfigKind, Entry, ExtensionEntry, Given, ParamEntry};

fn push_listed(to: &mut String, versions: &[Listed]) -> Result<(), NoMemory> {
    for listed in versions {
        to.push_str(" ")?;
        push_version(to, &listed.version)?;
        to.push_str(if listed.breaking { "!" } else { "" })?;
    }
    Ok(())
}

fn push_need(to: &mut String, word: &str, cond: &Cond) -> Result<(), NoMemory> {
    to.push_str(word)?;
    push_cond(to, cond)
}

fn push_extension(alloc: Global, to: &mut String, entry: &ExtensionEntry) -> Result<(), NoMemory> {
    to.push_str("extension ")?;
    to.push_str(entry.name.as_str())?;
    push_text(alloc, to, entry.long_name.as_str())?;
    push_text(alloc, to, entry.description.as_str())?;
    push_listed(to, entry.versions.as_slice())?;
    push_need(to, " needs ", &entry.needs)
}

fn push_domain(to: &mut String, domain: &Domain) -> Result<(), NoMemory> {
    match domain {
        Domain::Flags => to.push_str(" false true"),
        Domain::Range { low, high } => write!(to, " {low} to {high}"),
        Domain::Numbers(numbers) => {
            for number in numbers.as_slice() {
                write!(to, " {number}")?;
            }
            Ok(())
        }
        Domain::Words(words) => {
            for word in words.as_slice() {
                write!(to, " \"{}\"", word.as_str())?;
            }
            Ok(())
        }
    }
}

fn push_param(alloc: Global, to: &mut String, entry: &ParamEntry) -> Result<(), NoMemory> {
    to.push_str("parameter ")?;
    to.push_str(entry.name.as_str())?;
    push_text(alloc, to, entry.long_name.as_str())?;
    push_text(alloc, to, entry.description.as_str())?;
    push_domain(to, &entry.domain)?;
    push_need(to, " defined ", &entry.defined)?;
    push_need(to, " needs ", &entry.needs)
}

fn kind_text(kind: ConfigKind) -> &'static str {
    match kind {
        ConfigKind::Unconfigured => " unconfigured",
        ConfigKind::Partially => " partially",
        ConfigKind::Fully => " fully",
    }
}

fn push_given(to: &mut String, givens: &[Given]) -> Result<(), NoMemory> {
    for given in givens {
        write!(to, " {}=", given.name.as_str())?;
        push_value(to, &given.value)?;
    }
    Ok(())
}

fn push_config(alloc: Global, to: &mut String, entry: &ConfigEntry) -> Result<(), NoMemory> {
    to.push_str("config ")?;
    to.push_str(entry.name.as_str())?;
    push_text(alloc, to, entry.description.as_str())?;
    to.push_str(kind_text(entry.kind))?;
    push_given(to, entry.params.as_slice())?;
    to.push_str(" mandatory ")?;
    push_members(to, entry.mandatory.as_slice())?;
    to.push_str(" prohibited ")?;
    push_members(to, entry.prohibited.as_slice())?;
    to.push_str(if entry.additional {
        " others"
    } else {
        " alone"
    })?;
    to.push_str(" implemented ")?;
    push_members(to, entry.implemented.as_slice())
}

/// Appends an entry.
pub fn push_entry(alloc: Global, to: &mut String, entry: &Entry) -> Result<(), NoMemory> {
    match entry {
        Entry::Extension(entry) => push_extension(alloc, to, entry),
        Entry::Param(entry) => push_param(alloc, to, entry),
        Entry::Instruction(entry) => push_instruction(alloc, to, entry),
        Entry::Csr(entry) => push_csr(alloc, to, entry),
        Entry::Functions(entry) => push_functions(alloc, to, entry),
        Entry::Config(entry) => push_config(alloc, to, entry),
    }
}
