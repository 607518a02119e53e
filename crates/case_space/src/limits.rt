//! Whether the lists of a case are short enough for the search.

ghost use Rattle.std.specs.Prelude.{◌-◌, ◌<◌, ◌^◌, IsTrue, All, length};
ghost use Rattle.udb_refute.specs.Search.{IsShortDomain};
ghost use Rattle.case_space.specs.Small.{IsShort, IsSmall};

use udb_base::{Domain, Partial, Space};

/// More than any case needs.
pub const LIMIT: usize = 268_435_456;

fn is_short_domain(domain: &Domain) -> bool
    ensures { IsTrue result → IsShortDomain domain.now }
{
    match domain {
        Domain::Flags => true,
        Domain::Numbers(numbers) => numbers.len() < LIMIT,
        Domain::Range { low: _, high: _ } => true,
        Domain::Words(words) => words.len() < LIMIT,
    }
}

fn has_short_versions(space: &Space) -> bool
    ensures { IsTrue result
        → All (λ e. length e.versions < 2 ^ 32 - 1) space.now.extensions }
{
    for extension in space.extensions.as_slice() {
        if LIMIT <= extension.versions.len() {
            return false;
        }
    }
    true
}

fn has_short_domains(space: &Space) -> bool
    ensures { IsTrue result → All (λ p. IsShortDomain p.domain) space.now.params }
{
    for param in space.params.as_slice() {
        if !is_short_domain(&param.domain) {
            return false;
        }
    }
    true
}

fn is_short(space: &Space, part: &Partial) -> bool
    ensures { IsTrue result → IsShort space.now part.now }
{
    space.extensions.len() < LIMIT && space.params.len() < LIMIT && part.constraints.len() < LIMIT
}

/// Whether the lists of a case are short enough for the search.
#[tactic(auto, using(crate::proofs::Small::small))]
pub fn is_small(space: &Space, part: &Partial) -> bool
    ensures { IsTrue result → IsSmall space.now part.now }
{
    has_short_versions(space) && has_short_domains(space) && is_short(space, part)
}
