//! The full configuration of the first choices that a path leaves.

ghost use Rattle.std.specs.Prelude.{◌≡◌, false, IfOk, Option, Some, slice_get, map};
ghost use Rattle.udb_base.specs.declared.versions.Version.{Version};
ghost use Rattle.udb_base.specs.declared.conditions.Value.{Value};
ghost use Rattle.udb_base.specs.declared.conditions.Value.TheVariants.{Word};
ghost use Rattle.udb_base.specs.declared.spaces.Space.{Space};
ghost use Rattle.udb_spec.specs.Cells.{choices_of, ExtsWithin, ParamsWithin, Within};
ghost use Rattle.udb_refute.specs.Paths.{taken, IsTaken};
ghost use Rattle.udb_refute.specs.Search.{IsOpen};
ghost use Rattle.udb_cond.specs.Steps.{steps_of};

use crate::cells::{choice_on, low_end};
use std::alloc::Global;
use udb_base::{Chars, Copied, Many, NoMemory};
use udb_cond::{Cells, Choices, Domain, ExtSpace, Full, Space, Value, Values, Version};

// The choice taken of a listed variable, counted from 0.
fn taken(cells: &Cells, param: bool, place: usize) -> usize
    ensures { result ≡ taken (steps_of cells.now) param place }
{
    match choice_on(cells, param, place) {
        Some(choice) => choice as usize,
        None => 0,
    }
}

fn first_version(cells: &Cells, place: usize, ext: &ExtSpace) -> Option<Version>
    ensures { (v : Option Version) → slice_get (choices_of ext.now) (taken
        (steps_of cells.now) false place) ≡ Some v → result ≡ v }
{
    let choice = taken(cells, false, place);
    if choice == 0 {
        return None;
    }
    match ext.versions.get(choice - 1) {
        Some(listed) => Some(listed.version),
        None => None,
    }
}

fn word_at(alloc: Global, words: &[Chars], at: usize) -> Result<Value, NoMemory>
    ensures { (v : Value) → slice_get (map Word words.now) at ≡ Some v → IfOk result (λ x. x ≡ v) }
{
    match words.get(at) {
        Some(word) => Ok(Value::Word(word.copy(alloc)?)),
        None => Ok(Value::Flag(false)),
    }
}

fn first_value(
    alloc: Global,
    cells: &Cells,
    place: usize,
    domain: &Domain,
) -> Result<Value, NoMemory>
    ensures { (v : Value) → IsTaken (steps_of cells.now) place domain.now v
        → IfOk result (λ x. x ≡ v) }
{
    let choice = taken(cells, true, place);
    match domain {
        Domain::Flags => Ok(Value::Flag(choice == 1)),
        Domain::Numbers(numbers) => match numbers.get(choice) {
            Some(number) => Ok(Value::Number(*number)),
            None => Ok(Value::Flag(false)),
        },
        Domain::Range { low, high: _ } => Ok(Value::Number(low_end(cells, place, *low))),
        Domain::Words(words) => Ok(word_at(alloc, words.as_slice(), choice)?),
    }
}

fn first_versions(alloc: Global, space: &Space, cells: &Cells) -> Result<Choices, NoMemory>
    requires { IsOpen space.now (steps_of cells.now) }
    ensures { IfOk result (ExtsWithin (steps_of cells.now) 0 space.now.extensions) }
{
    let mut choices = Many::new(alloc);
    let extensions = space.extensions.as_slice();
    for (place, extension) in extensions.iter().enumerate() {
        choices.push(first_version(cells, place, extension))?;
    }
    Ok(choices)
}

fn first_values(alloc: Global, space: &Space, cells: &Cells) -> Result<Values, NoMemory>
    requires { IsOpen space.now (steps_of cells.now) }
    ensures { IfOk result (ParamsWithin (steps_of cells.now) 0 space.now.params) }
{
    let mut values = Many::new(alloc);
    let params = space.params.as_slice();
    for (place, param) in params.iter().enumerate() {
        values.push(first_value(alloc, cells, place, &param.domain)?)?;
    }
    Ok(values)
}

/// The full configuration of the first choice that is left of each variable.
pub(crate) fn first_full(alloc: Global, space: &Space, cells: &Cells) -> Result<Full, NoMemory>
    requires { IsOpen space.now (steps_of cells.now) }
    ensures { IfOk result (Within space.now (steps_of cells.now)) }
{
    Ok(Full {
        extensions: first_versions(alloc, space, cells)?,
        params: first_values(alloc, space, cells)?,
    })
}
