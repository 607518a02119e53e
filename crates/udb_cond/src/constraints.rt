//! The numbered constraints of a space, a configuration and an asked condition.

ghost use Rattle.std.specs.Prelude.{◌≡◌, ◌∷◌, [], ◌++◌, IfOk, IfSome, slice_get};
ghost use Rattle.udb_spec.specs.Spaces.{first_value};
ghost use Rattle.udb_spec.specs.Constraints as spec;
ghost use Rattle.udb_cond.specs.Meaning.{constraint_of, one_of_two, IsMet, IsEnough};

use std::alloc::Global;
use udb_base::{
    Boxed, Cond, Copied, Domain, ExtSpace, Many, Name, NoMemory, ParamSpace, Partial, Space, Test,
    Value,
};

fn either(alloc: Global, first: Cond, second: Cond) -> Result<Cond, NoMemory>
    ensures { IfOk result (λ c. c ≡ Cond.Any (first ∷ second ∷ [])) }
{
    let mut parts = Many::new(alloc);
    parts.push(first)?;
    parts.push(second)?;
    Ok(Cond::Any(parts))
}

fn contrary(alloc: Global, cond: &Cond) -> Result<Cond, NoMemory>
    ensures { IfOk result (λ c. c ≡ Cond.Not cond.now) }
{
    Ok(Cond::Not(Boxed::new(alloc, cond.copy(alloc)?)?))
}

// The extension is absent, or its requirements hold.
fn ext_constraint(alloc: Global, ext: &ExtSpace) -> Result<Cond, NoMemory>
    ensures { IfOk result (λ c. c ≡ spec.ext_constraint ext.now) }
{
    let present = Cond::Ext {
        name: ext.name.copy(alloc)?,
        needs: Many::new(alloc),
    };
    let absent = Cond::Not(Boxed::new(alloc, present)?);
    either(alloc, absent, ext.needs.copy(alloc)?)
}

// `definedBy` fails, or the requirements hold.
fn needs_constraint(alloc: Global, param: &ParamSpace) -> Result<Cond, NoMemory>
    ensures { IfOk result (λ c. c ≡ spec.needs_constraint param.now) }
{
    let undefined = contrary(alloc, &param.defined)?;
    either(alloc, undefined, param.needs.copy(alloc)?)
}

fn first_value(alloc: Global, domain: &Domain) -> Result<Option<Value>, NoMemory>
    ensures { IfOk result (λ first. first ≡ first_value domain.now) }
{
    match domain {
        Domain::Flags => Ok(Some(Value::Flag(false))),
        Domain::Numbers(numbers) => match numbers.get(0) {
            Some(first) => Ok(Some(Value::Number(*first))),
            None => Ok(None),
        },
        Domain::Range { low, high: _ } => Ok(Some(Value::Number(*low))),
        Domain::Words(words) => match words.get(0) {
            Some(first) => Ok(Some(Value::Word(first.copy(alloc)?))),
            None => Ok(None),
        },
    }
}

fn has_value(alloc: Global, name: &Name, value: Option<Value>) -> Result<Cond, NoMemory>
    ensures { IfOk result (λ c. c ≡ spec.has_value name.now value) }
{
    match value {
        Some(value) => Ok(Cond::Param {
            name: name.copy(alloc)?,
            test: Test::Equal,
            value,
        }),
        None => Ok(Cond::Never),
    }
}

// `definedBy` holds, or the parameter has its first value.
fn first_constraint(alloc: Global, param: &ParamSpace) -> Result<Cond, NoMemory>
    ensures { IfOk result (λ c. c ≡ spec.first_constraint param.now) }
{
    let first = first_value(alloc, &param.domain)?;
    let has_first = has_value(alloc, &param.name, first)?;
    either(alloc, param.defined.copy(alloc)?, has_first)
}

// The constraint at an index of those of the parameters, two for each.
fn param_constraint(alloc: Global, param: &ParamSpace, second: bool) -> Result<Cond, NoMemory>
    ensures { IfOk result (λ c. c ≡ one_of_two second param.now) }
{
    if second {
        first_constraint(alloc, param)
    } else {
        needs_constraint(alloc, param)
    }
}

// The constraint at an index of the configuration's own and the asked condition after them.
fn own_constraint(
    alloc: Global,
    part: &Partial,
    cond: &Cond,
    index: usize,
) -> Result<Option<Cond>, NoMemory>
    ensures { IfOk result (λ c. c ≡ slice_get (part.now.constraints ++ cond.now ∷ []) index) }
{
    let own = part.constraints.as_slice();
    if index < own.len() {
        Ok(Some(own[index].copy(alloc)?))
    } else if index == own.len() {
        Ok(Some(cond.copy(alloc)?))
    } else {
        Ok(None)
    }
}

fn numbered_constraint(
    alloc: Global,
    space: &Space,
    part: &Partial,
    cond: &Cond,
    number: u32,
) -> Result<Option<Cond>, NoMemory>
    ensures { IfOk result (λ c. c ≡ constraint_of space.now part.now cond.now number) }
{
    if number == 0 {
        return Ok(None);
    }
    let index = number as usize - 1;
    let extensions = space.extensions.as_slice();
    if index < extensions.len() {
        return Ok(Some(ext_constraint(alloc, &extensions[index])?));
    }
    let index = index - extensions.len();
    let params = space.params.as_slice();
    if index / 2 < params.len() {
        return Ok(Some(param_constraint(alloc, &params[index / 2], index % 2 == 1)?));
    }
    own_constraint(alloc, part, cond, index - 2 * params.len())
}

/// The constraint of a number, counted from 1: for each extension that it is absent or its
/// requirements hold; for each parameter that its `definedBy` fails or its requirements hold, then
/// that its `definedBy` holds or it has its first value; those of the configuration; the asked
/// condition. None for 0 and past the last. The one refusal is want of memory.
pub fn constraint(
    alloc: Global,
    space: &Space,
    part: &Partial,
    cond: &Cond,
    number: u32,
) -> Result<Option<Cond>, NoMemory>
    ensures numbered { IfOk result (λ c. c ≡ constraint_of space.now part.now cond.now number) }

    // Each holds in every completion that meets the asked condition.
    ensures met { IfOk result (λ found. IfSome found (IsMet space.now part.now cond.now)) }

    // Where all hold, the full configuration is such a completion.
    ensures enough { IsEnough space.now part.now cond.now }
{
    numbered_constraint(alloc, space, part, cond, number)
}
