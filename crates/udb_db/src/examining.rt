//! The phases of an examination, one after the other.

ghost use Rattle.std.specs.Prelude.{◌≡◌, ◌<◌, All, length};
ghost use Rattle.udb_spec.specs.Lawful.{Lawful};
ghost use Rattle.udb_tables.specs.Order.{IsInOrder};
ghost use Rattle.db_spec.specs.Entries as spec;
ghost use Rattle.db_spec.specs.Breaks.{Give};
ghost use Rattle.db_spec.specs.First.{HasReadKinds};
ghost use Rattle.udb_db.specs.Phases.{ConfigsExamined, FullExamined, HasCompletion, IsExamined, KnowsNames, NamesExamined, TellsAt};

use crate::completing::missing_completion;
use crate::configs::{ConfigFault, complete_configs};
use crate::names::first_unknown;
use crate::reading::{EntryList, RowFault, read_rows};
use db_spec::Broken;
use std::alloc::Global;
use udb_base::{Copied, Lines, Many, Partial, Row, Space};
use udb_entry::Entry;

/// Why an examination ends early.
#[derive(Drop)]
pub enum Halt {
    Memory,
    Broken(Broken),
}

// A breach at the row of a place.
fn broken_at(alloc: Global, rows: &[Row], place: usize, rule: u8, shows: Lines) -> Halt
    requires { place < length rows.now }
    ensures { TellsAt rows.now place rule shows result }
{
    let row = &rows[place];
    let kind = Some(row.kind);
    match row.name.copy(alloc) {
        Ok(name) => {
            let name = Some(name);
            Halt::Broken(Broken {
                kind,
                name,
                rule,
                shows,
            })
        }
        Err(_) => Halt::Memory,
    }
}

/// The entries of rows, each by itself.
pub fn examine_texts(alloc: Global, rows: &[Row]) -> Result<EntryList, Halt>
    requires order { IsInOrder rows.now }
    requires kinds { HasReadKinds rows.now }
    ensures { IsExamined rows.now result }
{
    match read_rows(alloc, rows) {
        Ok(entries) => Ok(entries),
        Err(RowFault::Memory) => Err(Halt::Memory),
        Err(RowFault::Broken { place, rule, shows }) => {
            Err(broken_at(alloc, rows, place, rule, shows))
        }
    }
}

/// The names in the read entries. No rule that is examined with them is broken by entries of the
/// kinds that are examined.
pub fn examine_names(
    alloc: Global,
    rows: &[Row],
    space: &Space,
    entries: &[Entry],
) -> Result<(), Halt>
    requires order { IsInOrder rows.now }
    requires kinds { HasReadKinds rows.now }
    requires give { Give rows.now entries.now }
    requires space { space.now ≡ spec.space_of entries.now }
    ensures { NamesExamined rows.now result }
{
    match first_unknown(alloc, space, entries) {
        Ok(None) => Ok(()),
        Ok(Some(unknown)) => Err(broken_at(alloc, rows, unknown.place, 10, unknown.shows)),
        Err(_) => Err(Halt::Memory),
    }
}

/// Whether there is a valid full configuration.
pub fn examine_full(
    alloc: Global,
    rows: &[Row],
    space: &Space,
    entries: &[Entry],
) -> Result<(), Halt>
    requires kinds { HasReadKinds rows.now }
    requires give { Give rows.now entries.now }
    requires space { space.now ≡ spec.space_of entries.now }
    requires names { All (KnowsNames space.now) entries.now }
    requires lawful { Lawful space.now }
    ensures { FullExamined rows.now space.now result }
{
    let constraints = Many::new(alloc);
    match missing_completion(alloc, space, &Partial { constraints }) {
        Ok(None) => Ok(()),
        Ok(Some(shows)) => Err(Halt::Broken(Broken {
            kind: None,
            name: None,
            rule: 22,
            shows,
        })),
        Err(_) => Err(Halt::Memory),
    }
}

/// The configurations, each of which has a completion.
pub fn examine_configs(
    alloc: Global,
    rows: &[Row],
    space: &Space,
    entries: &[Entry],
) -> Result<(), Halt>
    requires order { IsInOrder rows.now }
    requires kinds { HasReadKinds rows.now }
    requires give { Give rows.now entries.now }
    requires space { space.now ≡ spec.space_of entries.now }
    requires names { All (KnowsNames space.now) entries.now }
    requires full { HasCompletion space.now spec.unconfigured }
    requires lawful { Lawful space.now }
    ensures { ConfigsExamined rows.now result }
{
    match complete_configs(alloc, space, entries) {
        Ok(()) => Ok(()),
        Err(ConfigFault::Memory) => Err(Halt::Memory),
        Err(ConfigFault::Lacks { place, shows }) => {
            Err(broken_at(alloc, rows, place, 23, shows))
        }
    }
}
