//! The search for a full configuration.

ghost use Rattle.std.specs.Prelude.{◌<◌, ◌+◌, ◌*◌, ◌-◌, ◌^◌, IfOk, IsTrue, All, length};
ghost use Rattle.udb_spec.specs.Lawful.{Lawful};
ghost use Rattle.udb_refute.specs.Answers.{IsAnswer};
ghost use Rattle.udb_refute.specs.Search.{IsShortDomain};
ghost use Rattle.udb_db.specs.Phases.{IsShort};

use std::alloc::{AllocError, Global};
use udb_base::{Cond, Domain, ExtSpace, NoMemory, ParamSpace, Partial, Space};
use udb_refute::{Found, find};

const LIMIT: usize = u32::MAX as usize;

fn is_short_domain(domain: &Domain) -> bool
    ensures { IsTrue result → IsShortDomain domain.now }
{
    match domain {
        Domain::Flags => true,
        Domain::Numbers(numbers) => numbers.len() < LIMIT,
        Domain::Range { low: _, high: _ } => true,
        Domain::Words(words) => words.len() < LIMIT,
    }
}

fn has_short_versions(extension: &ExtSpace) -> bool
    ensures { IsTrue result → length extension.now.versions < 2 ^ 32 - 1 }
{
    extension.versions.len() < LIMIT
}

fn are_short_extensions(extensions: &[ExtSpace]) -> bool
    ensures { IsTrue result → All (λ e. length e.versions < 2 ^ 32 - 1) extensions.now }
{
    for extension in extensions {
        if !has_short_versions(extension) {
            return false;
        }
    }
    true
}

fn are_short_params(params: &[ParamSpace]) -> bool
    ensures { IsTrue result → All (λ p. IsShortDomain p.domain) params.now }
{
    for param in params {
        if !is_short_domain(&param.domain) {
            return false;
        }
    }
    true
}

fn are_few(extensions: usize, params: usize, own: usize) -> bool
    ensures { IsTrue result → extensions + 2 * params + own < 2 ^ 32 - 2 }
{
    extensions < LIMIT && params < LIMIT && own < LIMIT && extensions + 2 * params + own < LIMIT - 1
}

// Whether the search can number what it is asked about.
fn is_short(space: &Space, part: &Partial) -> bool
    ensures { IsTrue result → IsShort space.now part.now }
{
    let (extensions, params) = (space.extensions.as_slice(), space.params.as_slice());
    are_few(extensions.len(), params.len(), part.constraints.len())
        && are_short_extensions(extensions)
        && are_short_params(params)
}

/// A full configuration that completes a configuration and meets a condition, or a proof that none
/// does. More constraints than 32 bits can number are want of memory.
pub fn search(alloc: Global, space: &Space, part: &Partial, cond: &Cond) -> Result<Found, NoMemory>
    requires { Lawful space.now }
    ensures { IfOk result (IsAnswer space.now part.now cond.now) }
{
    if !is_short(space, part) {
        return Err(AllocError);
    }
    find(alloc, space, part, cond)
}
