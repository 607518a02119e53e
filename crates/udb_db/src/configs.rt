//! The configurations of read entries.

ghost use Rattle.std.specs.Prelude.{◌≡◌, IfOk};
ghost use Rattle.udb_spec.specs.Lawful.{Lawful};
ghost use Rattle.udb_entry.specs.declared.answers.Entry.{Entry};
ghost use Rattle.udb_db.specs.Phases.{AreCompleted, IsConfigured};

use crate::completing::missing_completion;
use entry_tree::ConfigEntry;
use std::alloc::Global;
use udb_base::{Lines, NoMemory, Space};
use udb_entry::{Entry, read_config};

/// Why configurations aren't taken: the first that has no completion, by its place among the
/// entries, from 0.
#[derive(Drop)]
pub enum ConfigFault {
    Memory,
    Lacks { place: usize, shows: Lines },
}

fn missing_part(
    alloc: Global,
    space: &Space,
    entry: &ConfigEntry,
) -> Result<Option<Lines>, NoMemory>
    requires { Lawful space.now }
    ensures { IfOk result (IsConfigured space.now (Entry.Config entry.now)) }
{
    let part = read_config(alloc, space, entry)?;
    missing_completion(alloc, space, &part)
}

fn missing_config(alloc: Global, space: &Space, entry: &Entry) -> Result<Option<Lines>, NoMemory>
    requires { Lawful space.now }
    ensures { IfOk result (IsConfigured space.now entry.now) }
{
    match entry {
        Entry::Extension(_) => Ok(None),
        Entry::Param(_) => Ok(None),
        Entry::Instruction(_) => Ok(None),
        Entry::Csr(_) => Ok(None),
        Entry::Functions(_) => Ok(None),
        Entry::Config(entry) => missing_part(alloc, space, entry),
    }
}

/// Whether each configuration has a completion, or the first that has none.
pub fn complete_configs(alloc: Global, space: &Space, entries: &[Entry]) -> Result<(), ConfigFault>
    requires { Lawful space.now }
    ensures { AreCompleted space.now entries.now result }
{
    for (place, entry) in entries.iter().enumerate() {
        match missing_config(alloc, space, entry) {
            Ok(None) => {}
            Ok(Some(shows)) => return Err(ConfigFault::Lacks { place, shows }),
            Err(_) => return Err(ConfigFault::Memory),
        }
    }
    Ok(())
}
