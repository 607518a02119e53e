//! Why a reader stopped, and a value that is kept while another is read.

ghost use Rattle.std.specs.Prelude.{◌≡◌, IfOk, IfErr, Ok, Err};
ghost use Rattle.idl_exprs.specs.declared.stop.Stop.TheVariants.{Memory};

use std::alloc::{AllocError, AllocFailed};

/// Why a reader stopped. After a fault the cursor stands at the token that doesn't go on.
#[derive(Clone, Copy)]
pub enum Stop {
    Memory,
    Fault,
}

impl From<AllocError> for Stop {
    ghost from_gives = { λ _ e. e ≡ Memory };

    fn from(_e: AllocError) -> Stop {
        Stop::Memory
    }
}

impl<T: Drop> From<AllocFailed<T>> for Stop {
    ghost from_gives = { λ _ e. e ≡ Memory };

    fn from(_e: AllocFailed<T>) -> Stop {
        Stop::Memory
    }
}

/// A value with one that was read after it; where that was not read, both go. Trees are kept here,
/// so that no reader owns one where it may be left early.
pub fn keep<A: Drop, B: Drop, E: Drop>(kept: A, read: Result<B, E>) -> Result<(A, B), E>
    ensures both { IfOk result (λ p. (p.0 ≡ kept) × (read ≡ Ok p.1)) }
    ensures none { IfErr result (λ e. read ≡ Err e) }
{
    let read = read?;
    Ok((kept, read))
}
