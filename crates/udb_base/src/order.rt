//! The order of kinds and names.

ghost use Rattle.std.specs.Prelude.{◌≡◌};
ghost use Rattle.udb_base.specs.Order as spec;

use crate::{Kind, Name};
use std::cmp::Ordering;

// The place of a kind in the order of kinds, from 0.
fn kind_place(kind: Kind) -> u8
    ensures { result ≡ spec.kind_place kind }
{
    match kind {
        Kind::Extension => 0,
        Kind::Parameter => 1,
        Kind::Instruction => 2,
        Kind::Csr => 3,
        Kind::Functions => 4,
        Kind::Config => 5,
    }
}

/// Compares two keys: by kind, and within a kind by the bytes of the name.
pub fn key_cmp(kind: Kind, name: &Name, other: Kind, others: &Name) -> Ordering
    ensures { result ≡ spec.key_cmp kind name.now other others.now }
{
    match kind_place(kind).cmp(&kind_place(other)) {
        Ordering::Equal => name.cmp(others),
        unequal => unequal,
    }
}
