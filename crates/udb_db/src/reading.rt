//! The entries that rows give.

ghost use Rattle.db_spec.specs.First.{HasReadKinds};
ghost use Rattle.udb_db.specs.Phases.{IsFaultAt, IsRead};

use std::alloc::Global;
use udb_base::{Lines, Many, Row};
use udb_entry::{Entry, EntryFault, read_entry};

/// Read entries, in the order of their rows.
pub type EntryList = Many<Entry>;

/// Why rows give no entries: the first row that breaks a rule by itself, by its place from 0.
#[derive(Drop)]
pub enum RowFault {
    Memory,
    Broken {
        place: usize,
        rule: u8,
        shows: Lines,
    },
}

fn row_fault(place: usize, fault: EntryFault) -> RowFault
    ensures { IsFaultAt place fault result }
{
    match fault {
        EntryFault::Memory => RowFault::Memory,
        EntryFault::Broken { rule, shows } => RowFault::Broken { place, rule, shows },
    }
}

/// The entries of rows, each by itself.
pub fn read_rows(alloc: Global, rows: &[Row]) -> Result<EntryList, RowFault>
    requires { HasReadKinds rows.now }
    ensures { IsRead rows.now result }
{
    let mut entries = Many::new(alloc);
    for (place, row) in rows.iter().enumerate() {
        match read_entry(alloc, row) {
            Ok(entry) => {
                if entries.push(entry).is_err() {
                    return Err(RowFault::Memory);
                }
            }
            Err(fault) => return Err(row_fault(place, fault)),
        }
    }
    Ok(entries)
}
