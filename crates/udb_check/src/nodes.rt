//! Whether one node of a proof is right under a path of cells.

ghost use Rattle.std.specs.Prelude.{◌≡◌, ◌≤◌, ◌==◌, ◌&&◌, ◌-◌, ◌++◌, ◌∷◌, [], true, false, not, length, if◌then◌else◌, slice_get, IfSome};
ghost use Rattle.std.specs.List.{list_all};
ghost use Rattle.std.specs.Option.{option_map_or};
ghost use Rattle.udb_spec.specs.Cells.{allows, choices_of, numbers_of};
ghost use Rattle.udb_spec.specs.Known.{is_yes, is_no, known};
ghost use Rattle.udb_spec.specs.Lawful.{Lawful, IsLawfulDomain};
ghost use Rattle.udb_spec.specs.Constraints.{ext_constraint, needs_constraint, first_constraint};
ghost use Rattle.udb_spec.specs.Refutes.{is_leaf, is_split, is_cut};
ghost use Rattle.udb_cond.specs.Steps.{steps_of};
ghost use Rattle.udb_check.specs.Nodes.{some_open, first_value_fails, values_left};

use crate::cells::{is_unsplit, later_is_open};
use udb_cond::{
    Cells, Cond, Domain, ExtSpace, Known, ParamSpace, Partial, Space, holds3, is_open, range_left,
};

fn is_no(known: Known) -> bool
    ensures { result ≡ is_no known }
{
    match known {
        Known::No => true,
        Known::Yes => false,
        Known::Unknown => false,
    }
}

fn fails(space: &Space, cond: &Cond, cells: &Cells) -> bool
    ensures { result ≡ is_no (known space.now (steps_of cells.now) cond.now) }
{
    is_no(holds3(space, cond, cells))
}

fn holds(space: &Space, cond: &Cond, cells: &Cells) -> bool
    ensures { result ≡ is_yes (known space.now (steps_of cells.now) cond.now) }
{
    match holds3(space, cond, cells) {
        Known::Yes => true,
        Known::No => false,
        Known::Unknown => false,
    }
}

// The extension is present, and its requirements fail.
#[tactic(auto, using(crate::proofs::NodeLaws::node_laws))]
fn ext_fails(space: &Space, place: usize, ext: &ExtSpace, cells: &Cells) -> bool
    requires lawful { Lawful space.now }
    requires at { slice_get space.now.extensions place ≡ Some ext.now }
    ensures { result ≡ is_no (known space.now (steps_of cells.now) (ext_constraint ext.now)) }
{
    !is_open(cells, false, place, 0) && fails(space, &ext.needs, cells)
}

// `definedBy` holds, and the requirements fail.
#[tactic(auto, using(crate::proofs::NodeLaws::node_laws))]
fn needs_fail(space: &Space, param: &ParamSpace, cells: &Cells) -> bool
    ensures { result ≡ is_no (known space.now (steps_of cells.now) (needs_constraint param.now)) }
{
    holds(space, &param.defined, cells) && fails(space, &param.needs, cells)
}

fn listed_first_fails(cells: &Cells, place: usize, count: usize) -> bool
    ensures { result ≡ (not (list_all (allows true place 0) (steps_of cells.now))
        && some_open (steps_of cells.now) place 1 (count - 1)) }
{
    !is_open(cells, true, place, 0) && later_is_open(cells, place, count)
}

// The first value is no longer open, and another one is.
fn first_value_fails(cells: &Cells, place: usize, domain: &Domain) -> bool
    requires { IsLawfulDomain domain.now }
    ensures { result ≡ first_value_fails (steps_of cells.now) place domain.now }
{
    match domain {
        Domain::Flags => listed_first_fails(cells, place, 2),
        Domain::Numbers(numbers) => listed_first_fails(cells, place, numbers.len()),
        Domain::Range { low, high } => match range_left(cells, place, *low, *high) {
            Some((least, _)) => *low < least,
            None => false,
        },
        Domain::Words(words) => listed_first_fails(cells, place, words.len()),
    }
}

// `definedBy` fails, and the parameter has another value than its first.
#[tactic(auto, using(crate::proofs::NodeLaws::node_laws))]
fn first_fails(space: &Space, place: usize, param: &ParamSpace, cells: &Cells) -> bool
    requires lawful { Lawful space.now }
    requires at { slice_get space.now.params place ≡ Some param.now }
    ensures { result ≡ is_no (known space.now (steps_of cells.now) (first_constraint param.now)) }
{
    fails(space, &param.defined, cells) && first_value_fails(cells, place, &param.domain)
}

// One of the two constraints of a parameter fails.
fn param_fails(space: &Space, place: usize, param: &ParamSpace, second: bool, cells: &Cells) -> bool
    requires lawful { Lawful space.now }
    requires at { slice_get space.now.params place ≡ Some param.now }
    ensures { result ≡ is_no (known space.now (steps_of cells.now)
        (if second then first_constraint param.now else needs_constraint param.now)) }
{
    if second {
        first_fails(space, place, param, cells)
    } else {
        needs_fail(space, param, cells)
    }
}

// A constraint of the configuration, or after them the asked condition, fails.
fn own_fails(space: &Space, part: &Partial, cond: &Cond, index: usize, cells: &Cells) -> bool
    ensures { result ≡ option_map_or (λ c. is_no (known space.now (steps_of cells.now) c))
        (slice_get (part.now.constraints ++ cond.now ∷ []) index) false }
{
    let own = part.constraints.as_slice();
    if index < own.len() {
        fails(space, &own[index], cells)
    } else if index == own.len() {
        fails(space, cond, cells)
    } else {
        false
    }
}

/// Whether the constraint of a number, counted from 1, is there and fails.
pub(crate) fn is_leaf(
    space: &Space,
    part: &Partial,
    cond: &Cond,
    number: u32,
    cells: &Cells,
) -> bool
    requires { Lawful space.now }
    ensures { result ≡ is_leaf space.now part.now cond.now (steps_of cells.now) number }
{
    if number == 0 {
        return false;
    }
    let index = number as usize - 1;
    let extensions = space.extensions.as_slice();
    if index < extensions.len() {
        return ext_fails(space, index, &extensions[index], cells);
    }
    let index = index - extensions.len();
    let params = space.params.as_slice();
    if index / 2 < params.len() {
        return param_fails(space, index / 2, &params[index / 2], index % 2 == 1, cells);
    }
    own_fails(space, part, cond, index - 2 * params.len(), cells)
}

fn has_versions(space: &Space, place: usize, parts: usize) -> bool
    ensures { result ≡ option_map_or (λ e. length (choices_of e) == parts)
        (slice_get space.now.extensions place) false }
{
    match space.extensions.get(place) {
        Some(ext) => parts >= 1 && ext.versions.len() == parts - 1,
        None => false,
    }
}

#[tactic(auto, using(crate::proofs::NodeLaws::count_laws))]
fn has_numbers(left: Option<(u64, u64)>, parts: usize) -> bool
    requires { IfSome left (λ ends. ends.0 ≤ ends.1) }
    ensures { result ≡ (length (numbers_of left) == parts) }
{
    match left {
        Some((low, high)) => parts >= 1 && high - low == parts as u64 - 1,
        None => parts == 0,
    }
}

fn has_values(space: &Space, place: usize, parts: usize, cells: &Cells) -> bool
    ensures { result ≡ option_map_or (λ p. values_left (steps_of cells.now) place p.domain == parts)
        (slice_get space.now.params place) false }
{
    match space.params.get(place) {
        Some(param) => match &param.domain {
            Domain::Flags => parts == 2,
            Domain::Numbers(numbers) => numbers.len() == parts,
            Domain::Range { low, high } => {
                has_numbers(range_left(cells, place, *low, *high), parts)
            }
            Domain::Words(words) => words.len() == parts,
        },
        None => false,
    }
}

/// Whether a split has one part for each cell that is left of a variable that wasn't split.
#[tactic(auto, using(crate::proofs::NodeLaws::count_laws))]
pub(crate) fn is_split(space: &Space, param: bool, place: u32, parts: usize, cells: &Cells) -> bool
    ensures { result ≡ is_split space.now (steps_of cells.now) param place parts }
{
    let place = place as usize;
    if parts > u32::MAX as usize || !is_unsplit(cells, param, place) {
        return false;
    }
    if param {
        has_values(space, place, parts, cells)
    } else {
        has_versions(space, place, parts)
    }
}

/// Whether a cut divides the numbers that are left of a ranged parameter.
pub(crate) fn is_cut(space: &Space, place: u32, at: u64, cells: &Cells) -> bool
    ensures { result ≡ is_cut space.now (steps_of cells.now) place at }
{
    let place = place as usize;
    match space.params.get(place) {
        Some(param) => match &param.domain {
            Domain::Range { low, high } => match range_left(cells, place, *low, *high) {
                Some((low, high)) => low < at && at <= high,
                None => false,
            },
            Domain::Flags | Domain::Numbers(_) | Domain::Words(_) => false,
        },
        None => false,
    }
}
