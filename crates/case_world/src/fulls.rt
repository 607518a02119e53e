//! Full configurations of cases.

ghost use Rattle.std.specs.Prelude.{IfOk, IfSome};
ghost use Rattle.udb_spec.specs.Lawful.{Lawful};
ghost use Rattle.udb_spec.specs.Spaces.{Valid};

use case_space::is_small;
use std::alloc::Global;
use udb_base::{Cond, Full, Many, NoMemory, Partial, Space};
use udb_refute::{Found, find};

/// A valid full configuration that meets a condition, where there is one and the space's lists are
/// short.
pub fn full_of(alloc: Global, space: &Space, cond: &Cond) -> Result<Option<Full>, NoMemory>
    requires lawful { Lawful space.now }
    ensures { IfOk result (λ o. IfSome o (Valid space.now)) }
{
    let part = Partial {
        constraints: Many::new(alloc),
    };
    if !is_small(space, &part) {
        return Ok(None);
    }
    match find(alloc, space, &part, cond)? {
        Found::Completion(full) => Ok(Some(full)),
        Found::Refuted(_proof) => Ok(None),
    }
}
