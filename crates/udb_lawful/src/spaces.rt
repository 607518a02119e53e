//! Whether a space is lawful.

ghost use Rattle.std.specs.Prelude.{◌≡◌, ◌↔◌, IsTrue, All, AllPairs, codes};
ghost use Rattle.udb_spec.specs.Versions.{version_lt};
ghost use Rattle.udb_spec.specs.Lawful.{name_lt, IsLawfulExt, IsLawfulParam, Lawful, ListsWidths};

use crate::domains::{is_lawful_domain, lists_widths};
use crate::fitting::fits;
use udb_base::{Domain, ExtSpace, Listed, Name, ParamSpace, Space};
use udb_cond::is_below;

fn are_versions_rising(a: &Listed, b: &Listed) -> bool
    ensures { result ≡ version_lt a.now.version b.now.version }
{
    is_below(&a.version, &b.version)
}

fn versions_rise(list: &[Listed]) -> bool
    ensures { IsTrue result ↔ AllPairs (λ a b. IsTrue (version_lt a.version b.version)) list.now }
{
    for at in 1..list.len() {
        if !are_versions_rising(&list[at - 1], &list[at]) {
            return false;
        }
    }
    true
}

fn are_extensions_rising(a: &ExtSpace, b: &ExtSpace) -> bool
    ensures { result ≡ name_lt a.now.name b.now.name }
{
    a.name < b.name
}

fn are_params_rising(a: &ParamSpace, b: &ParamSpace) -> bool
    ensures { result ≡ name_lt a.now.name b.now.name }
{
    a.name < b.name
}

fn extension_names_rise(list: &[ExtSpace]) -> bool
    ensures { IsTrue result ↔ AllPairs (λ a b. IsTrue (name_lt a.name b.name)) list.now }
{
    for at in 1..list.len() {
        if !are_extensions_rising(&list[at - 1], &list[at]) {
            return false;
        }
    }
    true
}

fn param_names_rise(list: &[ParamSpace]) -> bool
    ensures { IsTrue result ↔ AllPairs (λ a b. IsTrue (name_lt a.name b.name)) list.now }
{
    for at in 1..list.len() {
        if !are_params_rising(&list[at - 1], &list[at]) {
            return false;
        }
    }
    true
}

// An MXLEN lists widths alone.
fn widths_are_right(name: &Name, domain: &Domain) -> bool
    ensures { IsTrue result ↔ (name.now ≡ codes "MXLEN" → ListsWidths domain.now) }
{
    name.as_str() != "MXLEN" || lists_widths(domain)
}

fn is_lawful_ext(space: &Space, extension: &ExtSpace) -> bool
    ensures { IsTrue result ↔ IsLawfulExt space.now extension.now }
{
    versions_rise(extension.versions.as_slice()) && fits(space, &extension.needs)
}

fn is_lawful_param(space: &Space, param: &ParamSpace) -> bool
    ensures { IsTrue result ↔ IsLawfulParam space.now param.now }
{
    is_lawful_domain(&param.domain)
        && widths_are_right(&param.name, &param.domain)
        && fits(space, &param.defined)
        && fits(space, &param.needs)
}

fn extensions_are_lawful(space: &Space) -> bool
    ensures { IsTrue result ↔ All (IsLawfulExt space.now) space.now.extensions }
{
    for extension in space.extensions.as_slice() {
        if !is_lawful_ext(space, extension) {
            return false;
        }
    }
    true
}

fn params_are_lawful(space: &Space) -> bool
    ensures { IsTrue result ↔ All (IsLawfulParam space.now) space.now.params }
{
    for param in space.params.as_slice() {
        if !is_lawful_param(space, param) {
            return false;
        }
    }
    true
}

/// Whether a space is lawful: names rise and versions rise, domains have a value and none twice, an
/// MXLEN lists 32 and 64 alone, and each condition fits the space. It takes no memory; the time to
/// look for equal values grows with the square of a list, and a name is looked for from the first.
pub fn is_lawful(space: &Space) -> bool
    ensures { IsTrue result ↔ Lawful space.now }
{
    extension_names_rise(space.extensions.as_slice())
        && param_names_rise(space.params.as_slice())
        && extensions_are_lawful(space)
        && params_are_lawful(space)
}
