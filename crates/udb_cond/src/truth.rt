//! What a condition says of a full configuration.

ghost use Rattle.std.specs.Prelude.{◌≡◌, map, count_by};
ghost use Rattle.std.specs.List.{list_all, list_any};
ghost use Rattle.udb_spec.specs.Conditions.{present_among, value_of, option_passes, holds};

use crate::atoms::{choice_meets, value_passes};
use crate::lookups::value_of;
use udb_base::{Cond, Full, Name, Requirement, Space, Test, Value};

// Whether the named extension is present in a version that meets each requirement.
#[tactic(auto, using(crate::proofs::TruthLemmas::present_steps))]
fn is_present(space: &Space, full: &Full, name: &Name, needs: &[Requirement]) -> bool
    ensures { result ≡ present_among space.now.extensions full.now.extensions name.now needs.now }
{
    let extensions = space.extensions.as_slice();
    let choices = full.extensions.as_slice();
    for (place, extension) in extensions.iter().enumerate() {
        if extension.name == *name {
            return match choices.get(place) {
                Some(choice) => choice_meets(extension.versions.as_slice(), needs, choice),
                None => false,
            };
        }
    }
    false
}

fn has_value(space: &Space, full: &Full, name: &Name, test: Test, given: &Value) -> bool
    ensures { result ≡ option_passes test (value_of space.now full.now name.now) given.now }
{
    match value_of(space, full, name.as_str()) {
        Some(value) => value_passes(test, value, given),
        None => false,
    }
}

#[cycle(truth)]
fn all_hold(space: &Space, conds: &[Cond], full: &Full) -> bool
    ensures { result ≡ list_all (λ b. b) (map (holds space.now full.now) conds.now) }
{
    for cond in conds {
        if !holds(space, cond, full) {
            return false;
        }
    }
    true
}

#[cycle(truth)]
fn any_holds(space: &Space, conds: &[Cond], full: &Full) -> bool
    ensures { result ≡ list_any (λ b. b) (map (holds space.now full.now) conds.now) }
{
    for cond in conds {
        if holds(space, cond, full) {
            return true;
        }
    }
    false
}

#[cycle(truth)]
fn how_many_hold(space: &Space, conds: &[Cond], full: &Full) -> usize
    ensures { result ≡ count_by (λ b. b) (map (holds space.now full.now) conds.now) }
{
    let mut count = 0;
    for cond in conds {
        if holds(space, cond, full) {
            count += 1;
        }
    }
    count
}

/// Whether a condition holds in a full configuration. An extension that the space doesn't have is
/// absent, and a parameter that it doesn't have passes no test.
#[cycle(truth)]
#[tactic(auto, using(crate::proofs::TruthLemmas::holds_laws))]
pub fn holds(space: &Space, cond: &Cond, full: &Full) -> bool
    ensures { result ≡ holds space.now full.now cond.now }
{
    match cond {
        Cond::Always => true,
        Cond::Never => false,
        Cond::Ext { name, needs } => is_present(space, full, name, needs.as_slice()),
        Cond::Param { name, test, value } => has_value(space, full, name, *test, value),
        Cond::All(parts) => all_hold(space, parts.as_slice(), full),
        Cond::Any(parts) => any_holds(space, parts.as_slice(), full),
        Cond::One(parts) => how_many_hold(space, parts.as_slice(), full) == 1,
        Cond::Not(part) => !holds(space, part.get(), full),
    }
}
