//! Which codings a configuration can have.

ghost use Rattle.std.specs.Prelude.{◌≡◌, ◌<◌, ◌-◌, ◌^◌, ◌↔◌, IsTrue, IfOk, length};
ghost use Rattle.udb_base.specs.declared.conditions.Cond.{Cond};
ghost use Rattle.udb_spec.specs.Constraints.{constraints};
ghost use Rattle.udb_spec.specs.Lawful.{Lawful};
ghost use Rattle.udb_spec.specs.ProofText.{HasShortPlaces};
ghost use Rattle.udb_refute.specs.Search.{HasShortLists};
ghost use Rattle.udb_decode.specs.Picks.{CanHold};

use std::alloc::Global;
use udb_base::{Cond, NoMemory, Partial, Space};
use udb_refute::{Found, find};

/// Whether a condition holds in some completion of a configuration.
pub fn can_hold(alloc: Global, space: &Space, part: &Partial, cond: &Cond) -> Result<bool, NoMemory>
    requires lawful { Lawful space.now }
    requires lists { HasShortLists space.now }
    requires places { HasShortPlaces space.now }
    requires few { length (constraints space.now part.now cond.now) < 2 ^ 32 - 1 }
    ensures { IfOk result (λ held. IsTrue held ↔ CanHold space.now part.now cond.now) }
{
    match find(alloc, space, part, cond)? {
        Found::Completion(_full) => Ok(true),
        Found::Refuted(_proof) => Ok(false),
    }
}
