//! The order of rows.

ghost use Rattle.std.specs.Prelude.{◌≡◌};
ghost use Rattle.udb_tables.specs.Order as spec;

use std::cmp::Ordering;
use udb_base::{Row, key_cmp};

/// Compares two rows: by kind, and within a kind by the bytes of the name.
pub fn row_cmp(a: &Row, b: &Row) -> Ordering
    ensures { result ≡ spec.row_cmp a.now b.now }
{
    key_cmp(a.kind, &a.name, b.kind, &b.name)
}
