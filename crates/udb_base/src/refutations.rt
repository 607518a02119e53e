//! Partial configurations, partial truth, and proofs that nothing completes.

use crate::Many;
use crate::conditions::Conds;
use sqlite_items::Boxed;

/// A configuration as the constraints that it adds to its space.
#[derive(Drop)]
pub struct Partial {
    pub constraints: Conds,
}

/// What is known of a condition where some choices are still open.
#[derive(Clone, Copy, Debug, PartialEq, Eq)]
pub enum Known {
    Yes,
    No,
    Unknown,
}

/// A proof that no completion meets a condition: a leaf names a constraint that fails, a split
/// goes through all choices of an extension or a parameter, a cut divides a range into the numbers
/// below `at` and those from `at`.
#[derive(Drop)]
pub enum Proof {
    Leaf {
        constraint: u32,
    },
    Split {
        param: bool,
        place: u32,
        parts: Many<Proof>,
    },
    Cut {
        place: u32,
        at: u64,
        below: Boxed<Proof>,
        from: Boxed<Proof>,
    },
}

/// Proofs, one for each cell.
pub type Proofs = Many<Proof>;
