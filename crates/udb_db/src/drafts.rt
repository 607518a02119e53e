//! Drafts: tables that break no rule up to that on names and addresses.

ghost use Rattle.std.specs.Prelude.{◌≡◌, ◌↔◌, IfOk, IsTrue};
ghost use Rattle.std.specs.Option.{option_copied};
ghost use Rattle.udb_base.specs.declared.kinds.Kind.{Kind};
ghost use Rattle.udb_spec.specs.Lawful.{Lawful};
ghost use Rattle.db_spec.specs.Entries as spec;
ghost use Rattle.udb_db.specs.Phases.{part_in};
ghost use Rattle.udb_db.specs.Databases.{FindsConfig, FindsEntry, HasKey, IsFound, IsPartOf, IsSpaceOf};

use crate::reading::EntryList;
use std::alloc::Global;
use std::marker::Model;
use udb_base::{Kind, Name, NoMemory, Partial, Space};
use udb_entry::{Entry, read_config};
use udb_tables::Tables;

/// Tables that break no rule up to 12, with what was read of them. Whether there is a full
/// configuration, and whether those that are stored have completions, isn't asked. Seen as the list
/// of the rows, in order.
#[derive(Drop)]
pub struct Draft {
    pub(crate) tables: Tables,
    pub(crate) entries: EntryList,
    pub(crate) space: Space,
}

impl Model for Draft {
    ghost use Rattle.std.specs.Prelude.{List};
    ghost use Rattle.udb_base.specs.declared.rows.Row.{Row};
    ghost use Rattle.udb_db.specs.Databases.{IsDraft};

    ghost Value = { List Row };

    ghost view = { λ d. d.tables };

    ghost invariant = { λ d. IsDraft d.tables d.entries d.space };
}

fn is_extension(kind: Kind) -> bool
    ensures { IsTrue result ↔ (Kind.Extension ≡ kind) }
{
    match kind {
        Kind::Extension => true,
        Kind::Parameter => false,
        Kind::Instruction => false,
        Kind::Csr => false,
        Kind::Functions => false,
        Kind::Config => false,
    }
}

fn is_parameter(kind: Kind) -> bool
    ensures { IsTrue result ↔ (Kind.Parameter ≡ kind) }
{
    match kind {
        Kind::Extension => false,
        Kind::Parameter => true,
        Kind::Instruction => false,
        Kind::Csr => false,
        Kind::Functions => false,
        Kind::Config => false,
    }
}

fn is_instruction(kind: Kind) -> bool
    ensures { IsTrue result ↔ (Kind.Instruction ≡ kind) }
{
    match kind {
        Kind::Extension => false,
        Kind::Parameter => false,
        Kind::Instruction => true,
        Kind::Csr => false,
        Kind::Functions => false,
        Kind::Config => false,
    }
}

fn is_csr(kind: Kind) -> bool
    ensures { IsTrue result ↔ (Kind.Csr ≡ kind) }
{
    match kind {
        Kind::Extension => false,
        Kind::Parameter => false,
        Kind::Instruction => false,
        Kind::Csr => true,
        Kind::Functions => false,
        Kind::Config => false,
    }
}

fn is_functions(kind: Kind) -> bool
    ensures { IsTrue result ↔ (Kind.Functions ≡ kind) }
{
    match kind {
        Kind::Extension => false,
        Kind::Parameter => false,
        Kind::Instruction => false,
        Kind::Csr => false,
        Kind::Functions => true,
        Kind::Config => false,
    }
}

fn is_config(kind: Kind) -> bool
    ensures { IsTrue result ↔ (Kind.Config ≡ kind) }
{
    match kind {
        Kind::Extension => false,
        Kind::Parameter => false,
        Kind::Instruction => false,
        Kind::Csr => false,
        Kind::Functions => false,
        Kind::Config => true,
    }
}

fn is_of_kind(entry: &Entry, kind: Kind) -> bool
    ensures { IsTrue result ↔ (spec.kind_of entry.now ≡ kind) }
{
    match entry {
        Entry::Extension(_) => is_extension(kind),
        Entry::Param(_) => is_parameter(kind),
        Entry::Instruction(_) => is_instruction(kind),
        Entry::Csr(_) => is_csr(kind),
        Entry::Functions(_) => is_functions(kind),
        Entry::Config(_) => is_config(kind),
    }
}

fn name_of(entry: &Entry) -> &Name
    ensures { result.now ≡ spec.name_of entry.now }
{
    match entry {
        Entry::Extension(entry) => &entry.name,
        Entry::Param(entry) => &entry.name,
        Entry::Instruction(entry) => &entry.name,
        Entry::Csr(entry) => &entry.name,
        Entry::Functions(entry) => &entry.name,
        Entry::Config(entry) => &entry.name,
    }
}

fn is_named(entry: &Entry, name: &Name) -> bool
    ensures { IsTrue result ↔ (spec.name_of entry.now ≡ name.now) }
{
    name_of(entry).as_str() == name.as_str()
}

fn has_key(entry: &Entry, kind: Kind, name: &Name) -> bool
    ensures { IsTrue result ↔ HasKey kind name.now entry.now }
{
    if is_of_kind(entry, kind) {
        is_named(entry, name)
    } else {
        false
    }
}

fn find_entry<'a>(entries: &'a [Entry], kind: Kind, name: &Name) -> Option<&'a Entry>
    ensures { IsFound kind name.now entries.now (option_copied result) }
{
    for entry in entries {
        if has_key(entry, kind, name) {
            return Some(entry);
        }
    }
    None
}

// The constraints of an entry, where it is a configuration.
fn config_part(alloc: Global, space: &Space, entry: &Entry) -> Result<Option<Partial>, NoMemory>
    ensures { IfOk result (λ part. part ≡ part_in space.now entry.now) }
{
    match entry {
        Entry::Extension(_) => Ok(None),
        Entry::Param(_) => Ok(None),
        Entry::Instruction(_) => Ok(None),
        Entry::Csr(_) => Ok(None),
        Entry::Functions(_) => Ok(None),
        Entry::Config(entry) => Ok(Some(read_config(alloc, space, entry)?)),
    }
}

fn part_of(alloc: Global, space: &Space, found: Option<&Entry>) -> Result<Option<Partial>, NoMemory>
    ensures { IfOk result (IsPartOf space.now (option_copied found.entry)) }
{
    match found {
        Some(entry) => config_part(alloc, space, entry),
        None => Ok(None),
    }
}

impl Draft {
    /// The constraints of the configuration of a name, where there is one. The time grows with the
    /// number of entries.
    pub fn config(&self, alloc: Global, name: &Name) -> Result<Option<Partial>, NoMemory>
        ensures { IfOk result (FindsConfig self.now name.now) }
    {
        let found = find_entry(self.entries.as_slice(), Kind::Config, name);
        let part = part_of(alloc, &self.space, found)?;
        Ok(part)
    }

    /// The entry of a kind and a name, where there is one. The time grows with the number of
    /// entries.
    pub fn entry(&self, kind: Kind, name: &Name) -> Option<&Entry>
        ensures { FindsEntry self.now kind name.now (option_copied result) }
    {
        find_entry(self.entries.as_slice(), kind, name)
    }

    /// The space that configurations choose from.
    pub fn space(&self) -> &Space
        ensures value { IsSpaceOf self.now result.now }
        ensures lawful { Lawful result.now }
    {
        &self.space
    }

    /// The tables.
    pub fn tables(&self) -> &Tables
        ensures { result.now ≡ self.now }
    {
        &self.tables
    }

    /// The tables, without what was read of them.
    pub fn into_tables(self) -> Tables
        ensures { result ≡ self }
    {
        self.tables
    }
}
