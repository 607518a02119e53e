//! Tables of rows.

ghost use Rattle.std.specs.Prelude.{◌≡◌, IfOk};
ghost use Rattle.std.specs.List.Sorted.{IsPermutation};
ghost use Rattle.udb_tables.specs.Order.{HasDistinctKeys, IsInOrder};

use crate::order::row_cmp;
use std::alloc::Global;
use std::marker::Model;
use udb_base::{Copied, Many, NoMemory, Row};

/// Rows, which contracts see as the list itself.
pub type Rows = Many<Row>;

/// The rows of a database, seen as the list of them in order: by kind, and within a kind by the bytes
/// of the name. Each kind and name stands once.
#[derive(Drop)]
pub struct Tables {
    rows: Vec<Row>,
}

impl Model for Tables {
    ghost use Rattle.std.specs.Prelude.{List};
    ghost use Rattle.udb_base.specs.declared.rows.Row.{Row};
    ghost use Rattle.udb_tables.specs.Order.{IsInOrder};

    ghost Value = { List Row };

    ghost view = { λ t. t.rows.items };

    ghost invariant = { λ t. IsInOrder t.rows.items };
}

fn copy_row(alloc: Global, row: &Row) -> Result<Row, NoMemory>
    ensures { IfOk result (λ copy. copy ≡ row.now) }
{
    let name = row.name.copy(alloc)?;
    Ok(Row {
        kind: row.kind,
        name,
        text: row.text.copy(alloc)?,
    })
}

fn copy_rows(alloc: Global, rows: &[Row]) -> Result<Vec<Row>, NoMemory>
    ensures { IfOk result (λ copies. copies.items ≡ rows.now) }
{
    let mut copies = Vec::new(alloc);
    for row in rows {
        copies.push(copy_row(alloc, row)?)?;
    }
    Ok(copies)
}

impl Tables {
    /// The tables of rows, in whatever order these stand. The one refusal is want of memory. The time
    /// grows with the number of rows times its logarithm.
    pub fn new(alloc: Global, rows: &[Row]) -> Result<Tables, NoMemory>
        requires { HasDistinctKeys rows.now }
        ensures rows { IfOk result (λ tables. IsPermutation rows.now tables) }
        ensures order { IfOk result IsInOrder }
    {
        let mut rows = copy_rows(alloc, rows)?;
        rows.sort_by(|a, b| row_cmp(a, b))?;
        Ok(Tables { rows })
    }

    /// The rows, in order.
    pub fn rows(&self) -> &[Row]
        ensures value { result.now ≡ self.now }
        ensures order { IsInOrder self.now }
    {
        self.rows.as_slice()
    }
}
