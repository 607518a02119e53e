//! Acceptance.

ghost use Rattle.std.specs.Prelude.{◌≡◌, ◌≤◌, List, Ok, Err};
ghost use Rattle.udb_base.specs.declared.rows.Row.{Row};
ghost use Rattle.udb_tables.specs.Order.{IsInOrder};
ghost use Rattle.db_spec.specs.declared.broken.Broken.{Broken};
ghost use Rattle.db_spec.specs.Entries as spec;
ghost use Rattle.db_spec.specs.Breaks.{Give};
ghost use Rattle.db_spec.specs.First.{HasReadKinds, IsFirst, KeepsUpTo, Sound};
ghost use Rattle.udb_db.specs.Databases.{IsDraft};
ghost use Rattle.udb_db.specs.Phases.{ConfigsExamined, IsSettled};
ghost use Rattle.udb_db.specs.Accepts.{IsAccepted, IsFinished, IsOpened, IsRefusal, IsSuccess};

use crate::database::Database;
use crate::drafts::Draft;
use crate::examining::{Halt, examine_configs, examine_full, examine_names, examine_texts};
use crate::reading::EntryList;
use crate::spaces::space_of;
use db_spec::Broken;
use std::alloc::Global;
use udb_base::{Row, Space};
use udb_entry::Entry;
use udb_tables::Tables;

/// Why tables are no database. Either answer gives the tables back.
#[derive(Drop)]
pub enum AcceptFault {
    /// There was no memory.
    Memory { tables: Tables },
    /// The first rule that the tables break.
    Broken { first: Broken, tables: Tables },
}

/// What an examination up to the names found.
#[derive(Drop)]
pub struct Examined {
    pub entries: EntryList,
    pub space: Space,
}

// ---- the rules up to 12

fn settle(alloc: Global, rows: &[Row], space: &Space, entries: &[Entry]) -> Result<(), Halt>
    requires order { IsInOrder rows.now }
    requires kinds { HasReadKinds rows.now }
    requires give { Give rows.now entries.now }
    requires space { space.now ≡ spec.space_of entries.now }
    ensures { IsSettled rows.now space.now result }
{
    if let Err(halt) = examine_names(alloc, rows, space, entries) {
        return Err(halt);
    }
    Ok(())
}

fn finish(alloc: Global, rows: &[Row], entries: EntryList) -> Result<Examined, Halt>
    requires order { IsInOrder rows.now }
    requires kinds { HasReadKinds rows.now }
    requires give { Give rows.now entries }
    ensures { IsFinished rows.now result }
{
    let Ok(space) = space_of(alloc, entries.as_slice()) else {
        return Err(Halt::Memory);
    };
    match settle(alloc, rows, &space, entries.as_slice()) {
        Ok(()) => Ok(Examined { entries, space }),
        Err(halt) => Err(halt),
    }
}

fn examine(alloc: Global, rows: &[Row]) -> Result<Examined, Halt>
    requires order { IsInOrder rows.now }
    requires kinds { HasReadKinds rows.now }
    ensures { IsFinished rows.now result }
{
    match examine_texts(alloc, rows) {
        Ok(entries) => finish(alloc, rows, entries),
        Err(halt) => Err(halt),
    }
}

fn open_tables(alloc: Global, tables: Tables) -> Result<Draft, AcceptFault>
    requires { HasReadKinds tables }
    ensures { IsOpened tables result }
{
    match examine(alloc, tables.rows()) {
        Ok(examined) => Ok(Draft {
            tables,
            entries: examined.entries,
            space: examined.space,
        }),
        Err(Halt::Memory) => Err(AcceptFault::Memory { tables }),
        Err(Halt::Broken(first)) => Err(AcceptFault::Broken { first, tables }),
    }
}

/// The draft of tables that keep the rules up to 12, or the first rule that they break, as `accept`
/// tells it. The other refusal is want of memory.
pub fn open(alloc: Global, tables: Tables) -> Result<Draft, AcceptFault>
    requires kinds { HasReadKinds tables }
    ensures named { (rows : List Row) → result ≡ Ok rows → (rows ≡ tables) × KeepsUpTo 12 tables }
    ensures named_only { KeepsUpTo 12 tables → IsSuccess tables result }
    ensures broken { (b : Broken) (rows : List Row) → result ≡ Err (AcceptFault.Broken b rows)
        → IsFirst tables b × (b.rule ≤ 12) × (rows ≡ tables) }
    ensures broken_only { (b : Broken) → IsFirst tables b → b.rule ≤ 12
        → IsRefusal tables b result }
    ensures memory { (rows : List Row) → result ≡ Err (AcceptFault.Memory rows) → rows ≡ tables }
{
    open_tables(alloc, tables)
}

// ---- all rules

fn examine_rest(alloc: Global, rows: &[Row], space: &Space, entries: &[Entry]) -> Result<(), Halt>
    requires order { IsInOrder rows.now }
    requires draft { IsDraft rows.now entries.now space.now }
    ensures { ConfigsExamined rows.now result }
{
    if let Err(halt) = examine_full(alloc, rows, space, entries) {
        return Err(halt);
    }
    examine_configs(alloc, rows, space, entries)
}

fn examine_draft(alloc: Global, draft: &Draft) -> Result<(), Halt>
    ensures { ConfigsExamined draft.now result }
{
    let (space, entries) = (&draft.space, draft.entries.as_slice());
    examine_rest(alloc, draft.tables.rows(), space, entries)
}

fn complete(alloc: Global, draft: Draft) -> Result<Database, AcceptFault>
    ensures { IsAccepted draft result }
{
    match examine_draft(alloc, &draft) {
        Ok(()) => Ok(Database { draft }),
        Err(Halt::Memory) => Err(AcceptFault::Memory {
            tables: draft.into_tables(),
        }),
        Err(Halt::Broken(first)) => Err(AcceptFault::Broken {
            first,
            tables: draft.into_tables(),
        }),
    }
}

fn answer(alloc: Global, tables: Tables) -> Result<Database, AcceptFault>
    requires { HasReadKinds tables }
    ensures { IsAccepted tables result }
{
    match open_tables(alloc, tables) {
        Ok(draft) => complete(alloc, draft),
        Err(fault) => Err(fault),
    }
}

/// The database of tables that keep all rules of acceptance, or the first rule that they break: by
/// its pass, then by the kind and name of the entry, then by its number. Of the kinds, extension,
/// parameter and config are examined so far. The rules stand in `db_spec`; what each shows stands in
/// `docs/formats/entries.md`. The other refusal is want of memory, and more constraints than 32
/// bits can number are answered as such.
pub fn accept(alloc: Global, tables: Tables) -> Result<Database, AcceptFault>
    requires kinds { HasReadKinds tables }
    ensures accepted { (rows : List Row) → result ≡ Ok rows → (rows ≡ tables) × Sound tables }
    ensures accepted_only { Sound tables → IsSuccess tables result }
    ensures broken { (b : Broken) (rows : List Row) → result ≡ Err (AcceptFault.Broken b rows)
        → IsFirst tables b × (rows ≡ tables) }
    ensures broken_only { (b : Broken) → IsFirst tables b → IsRefusal tables b result }
    ensures memory { (rows : List Row) → result ≡ Err (AcceptFault.Memory rows) → rows ≡ tables }
{
    answer(alloc, tables)
}
