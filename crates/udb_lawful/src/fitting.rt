//! Conditions that fit a space, and the first name that doesn't.

ghost use Rattle.std.specs.Prelude.{◌≡◌, IfSome, map};
ghost use Rattle.std.specs.Option.{option_copied, is_none};
ghost use Rattle.udb_spec.specs.Lawful.{fits};
ghost use Rattle.udb_lawful.specs.Misfit.{has_extension, param_fits, unless, first_name, first_misfit, HasMisfit};

use crate::domains::{fits_domain, test_fits};
use udb_base::{Cond, Name, Space, Test, Value};

fn has_extension(space: &Space, name: &Name) -> bool
    ensures { result ≡ has_extension space.now name.now }
{
    for extension in space.extensions.as_slice() {
        if extension.name == *name {
            return true;
        }
    }
    false
}

fn param_fits(space: &Space, name: &Name, test: Test, given: &Value) -> bool
    ensures { result ≡ param_fits space.now name.now test given.now }
{
    for param in space.params.as_slice() {
        if param.name == *name {
            return fits_domain(&param.domain, given) && test_fits(&param.domain, test);
        }
    }
    false
}

fn unless(fits: bool, name: &Name) -> Option<&Name>
    ensures { option_copied result ≡ unless fits name.now }
{
    if fits { None } else { Some(name) }
}

#[cycle(misfits)]
fn misfit_among<'a>(space: &Space, conds: &'a [Cond]) -> Option<&'a Name>
    ensures { option_copied result ≡ first_name (map (first_misfit space.now) conds.now) }
{
    for cond in conds {
        if let Some(name) = misfit_within(space, cond) {
            return Some(name);
        }
    }
    None
}

#[cycle(misfits)]
#[tactic(auto, using(crate::specs::MisfitLaws::misfit_laws))]
fn misfit_within<'a>(space: &Space, cond: &'a Cond) -> Option<&'a Name>
    ensures { option_copied result ≡ first_misfit space.now cond.now }
{
    match cond {
        Cond::Always => None,
        Cond::Never => None,
        Cond::Ext { name, needs: _ } => unless(has_extension(space, name), name),
        Cond::Param { name, test, value } => unless(param_fits(space, name, *test, value), name),
        Cond::All(parts) => misfit_among(space, parts.as_slice()),
        Cond::Any(parts) => misfit_among(space, parts.as_slice()),
        Cond::One(parts) => misfit_among(space, parts.as_slice()),
        Cond::Not(part) => misfit_within(space, part.get()),
    }
}

/// The name of the first atom of a condition, in the order of the text, that doesn't fit a space:
/// an extension that the space doesn't have, or a parameter that it doesn't have, whose domain is
/// of another kind than the value, or which has no order where the test asks for one. None exactly
/// where the condition fits.
pub fn misfit<'a>(space: &Space, cond: &'a Cond) -> Option<&'a Name>
    ensures first { option_copied result ≡ first_misfit space.now cond.now }
    ensures none { is_none result ≡ fits space.now cond.now }
    ensures found { IfSome result (λ name. HasMisfit space.now cond.now name.now) }
{
    misfit_within(space, cond)
}

/// Whether a condition names only what a space has, with values and tests that fit the domains.
pub fn fits(space: &Space, cond: &Cond) -> bool
    ensures { result ≡ fits space.now cond.now }
{
    misfit(space, cond).is_none()
}
