//! A keeper in memory, and how it fails.

ghost use Rattle.std.specs.Prelude.{◌≡◌, IfOk};
ghost use Rattle.udb_base.specs.Memory.{EditsRows, IsNewKeeper, KeepsCount, LeavesRows};
ghost use Rattle.udb_base.specs.Order.{IsInOrder};
ghost use Rattle.udb_base.specs.Tables.{AreKeys, HasKeepCause, HasPlace, IsRow, IsTables, IsText, IsTextOf, done, keys_of, only, with_row, without_row};

use crate::copies::Copied;
use crate::order::key_cmp;
use crate::outside::{KeepFault, Keeper};
use crate::{Kind, Name, NoMemory, Row, RowKey, RowKeys, Text};
use std::alloc::Global;
use std::cmp::Ordering;
use std::marker::Model;

/// A keeper in memory, which always tells its tables. Its calls are counted from 1, and those that
/// `fails` lists fail. The time of a call grows with the number of rows.
#[derive(Drop)]
pub struct MemoryKeeper {
    rows: Vec<Row>,
    fails: Vec<u64>,
    calls: u64,
    faults: u64,
}

impl Model for MemoryKeeper {
    ghost use Rattle.udb_base.specs.Memory.{KeeperState};
    ghost use Rattle.udb_base.specs.Tables.{IsTables};

    ghost Value = { KeeperState };

    ghost view = { λ s. record { rows = s.rows.items; fails = s.fails.items; calls = s.calls; faults = s.faults } };

    ghost invariant = { λ s. IsTables s.rows.items };
}

// The place of the row with a key, or the one at which it would stand.
fn place_of(rows: &[Row], kind: Kind, name: &Name) -> Result<usize, usize>
    requires { IsInOrder rows.now }
    ensures { HasPlace rows.now kind name.now result }
{
    for (place, row) in rows.iter().enumerate() {
        match key_cmp(row.kind, &row.name, kind, name) {
            Ordering::Less => {}
            Ordering::Equal => return Ok(place),
            Ordering::Greater => return Err(place),
        }
    }
    Err(rows.len())
}

fn keys(alloc: Global, rows: &[Row]) -> Result<RowKeys, NoMemory>
    ensures { IfOk result (λ keys. keys ≡ keys_of rows.now) }
{
    let mut keys = RowKeys::new(alloc);
    for row in rows {
        let name = row.name.copy(alloc)?;
        keys.push(RowKey {
            kind: row.kind,
            name,
        })?;
    }
    Ok(keys)
}

fn text(alloc: Global, rows: &[Row], kind: Kind, name: &Name) -> Result<Option<Text>, NoMemory>
    requires { IsInOrder rows.now }
    ensures { IfOk result (λ text. IsTextOf rows.now kind name.now text) }
{
    match place_of(rows, kind, name) {
        Ok(place) => Ok(Some(rows[place].text.copy(alloc)?)),
        Err(_) => Ok(None),
    }
}

#[tactic(auto, using(crate::proofs::KeyLemmas::set_at, crate::proofs::KeyLemmas::inserted_at, crate::proofs::KeyLemmas::with_tables))]
fn set_row(rows: &mut Vec<Row>, row: Row) -> Result<(), NoMemory>
    requires tables { IsTables rows.old.items }
    requires row { IsRow row }
    ensures rows { rows.new.items ≡ done result (with_row row) rows.old.items }
    ensures tables { IsTables rows.new.items }
{
    match place_of(rows, row.kind, &row.name) {
        Ok(place) => {
            rows[place] = row;
            Ok(())
        }
        Err(place) => match rows.insert(place, row) {
            Ok(()) => Ok(()),
            Err(refused) => Err(refused.into()),
        },
    }
}

#[tactic(auto, using(crate::proofs::KeyLemmas::removed_at, crate::proofs::KeyLemmas::absent_at, crate::proofs::KeyLemmas::without_tables))]
fn remove_row(rows: &mut Vec<Row>, kind: Kind, name: &Name)
    requires { IsTables rows.old.items }
    ensures rows { rows.new.items ≡ without_row kind name.now rows.old.items }
    ensures tables { IsTables rows.new.items }
{
    if let Ok(place) = place_of(rows, kind, name) {
        let _row = rows.remove(place);
    }
}

impl MemoryKeeper {
    /// An empty keeper that fails at these calls, counted from 1. The one refusal is want of memory.
    pub fn new(alloc: Global, fails: &[u64]) -> Result<MemoryKeeper, NoMemory>
        ensures { IfOk result (λ s. IsNewKeeper fails.now s) }
    {
        Ok(MemoryKeeper {
            rows: Vec::new(alloc),
            fails: Vec::from_slice(alloc, fails)?,
            calls: 0,
            faults: 0,
        })
    }

    /// How many calls failed because they were listed.
    pub fn faults(&self) -> u64
        ensures { result ≡ self.now.faults }
    {
        self.faults
    }
}

impl Keeper for MemoryKeeper {
    ghost faults = { λ s. s.faults };

    ghost tells = { λ s. only s.rows };

    fn rows(&mut self, alloc: Global) -> Result<RowKeys, KeepFault>
        ensures tables { LeavesRows self.old self.new }
        ensures keys { IfOk result (AreKeys (only self.new.rows)) }
        ensures cause { HasKeepCause self.old.faults self.new.faults result }
        ensures counted { KeepsCount self.old self.new result }
    {
        self.calls = self.calls.saturating_add(1);
        if self.fails.contains(&self.calls) {
            self.faults = self.faults.saturating_add(1);
            return Err(KeepFault::Failed);
        }
        match keys(alloc, &self.rows) {
            Ok(keys) => Ok(keys),
            Err(_) => Err(KeepFault::Memory),
        }
    }

    fn row(&mut self, alloc: Global, kind: Kind, name: &Name) -> Result<Option<Text>, KeepFault>
        ensures tables { LeavesRows self.old self.new }
        ensures text { IfOk result (IsText (only self.new.rows) kind name.now) }
        ensures cause { HasKeepCause self.old.faults self.new.faults result }
        ensures counted { KeepsCount self.old self.new result }
    {
        self.calls = self.calls.saturating_add(1);
        if self.fails.contains(&self.calls) {
            self.faults = self.faults.saturating_add(1);
            return Err(KeepFault::Failed);
        }
        match text(alloc, &self.rows, kind, name) {
            Ok(text) => Ok(text),
            Err(_) => Err(KeepFault::Memory),
        }
    }

    fn put(&mut self, alloc: Global, row: Row) -> Result<(), KeepFault>
        requires { IsRow row }
        ensures edit { EditsRows self.old self.new result (with_row row) }
        ensures cause { HasKeepCause self.old.faults self.new.faults result }
        ensures counted { KeepsCount self.old self.new result }
    {
        self.calls = self.calls.saturating_add(1);
        if self.fails.contains(&self.calls) {
            self.faults = self.faults.saturating_add(1);
            return Err(KeepFault::Failed);
        }
        match set_row(&mut self.rows, row) {
            Ok(()) => Ok(()),
            Err(_) => Err(KeepFault::Memory),
        }
    }

    fn remove(&mut self, alloc: Global, kind: Kind, name: &Name) -> Result<(), KeepFault>
        ensures edit { EditsRows self.old self.new result (without_row kind name.now) }
        ensures cause { HasKeepCause self.old.faults self.new.faults result }
        ensures counted { KeepsCount self.old self.new result }
    {
        self.calls = self.calls.saturating_add(1);
        if self.fails.contains(&self.calls) {
            self.faults = self.faults.saturating_add(1);
            return Err(KeepFault::Failed);
        }
        remove_row(&mut self.rows, kind, name);
        Ok(())
    }
}
