//! The variables of a space by their names, and its constraints by their numbers.

ghost use Rattle.std.specs.Prelude.{◌≡◌, ◌<◌, ◌+◌, ◌-◌, ◌^◌, ◌++◌, ℕ, List, IfOk, OnOk, Some, Option, if◌then◌else◌};
ghost use Rattle.std.specs.HashMap.{get_by_text};
ghost use Rattle.std.specs.Option.{option_copied};
ghost use Rattle.udb_spec.specs.Conditions.{same_bytes};
ghost use Rattle.udb_spec.specs.Constraints.{constraints, numbered};
ghost use Rattle.udb_refute.specs.Search.{own_count, space_count};
ghost use Rattle.udb_refute.specs.Variables.{alone_extension, alone_param, extension_among, param_among, HasVariables, IsTable, one_or_none};

use std::alloc::Global;
use std::collections::HashMap;
use udb_base::{Copied, Many, Name, NoMemory, both, copy_two};
use udb_cond::{Cond, Conds, ExtSpace, ParamSpace, Partial, Space, constraint};

/// A variable: its place in its space, counted from 0, and a space of it alone, in which its atoms
/// are read without a look at the others.
#[derive(Drop)]
pub(crate) struct Variable {
    pub(crate) place: usize,
    pub(crate) alone: Space,
}

/// The variables of a space by their names.
#[derive(Drop)]
pub(crate) struct Variables {
    pub(crate) extensions: HashMap<String, Variable>,
    pub(crate) params: HashMap<String, Variable>,
}

/// What a search looks up: the variables, and the constraints in the order of their numbers.
#[derive(Drop)]
pub(crate) struct Table {
    pub(crate) variables: Variables,
    pub(crate) constraints: Conds,
}

fn alone_extension(alloc: Global, extension: &ExtSpace) -> Result<Space, NoMemory>
    ensures { IfOk result (λ s. s ≡ alone_extension extension.now) }
{
    let versions = Many::from_slice(alloc, extension.versions.as_slice());
    let (name, versions) = both(extension.name.copy(alloc), versions)?;
    let needs = Cond::Always;
    let mut extensions = Many::new(alloc);
    extensions.push(ExtSpace {
        name,
        versions,
        needs,
    })?;
    let params = Many::new(alloc);
    Ok(Space { extensions, params })
}

fn alone_param(alloc: Global, param: &ParamSpace) -> Result<Space, NoMemory>
    ensures { IfOk result (λ s. s ≡ alone_param param.now) }
{
    let (name, domain) = copy_two(alloc, &param.name, &param.domain)?;
    let (defined, needs) = (Cond::Always, Cond::Always);
    let mut params = Many::new(alloc);
    params.push(ParamSpace {
        name,
        domain,
        defined,
        needs,
    })?;
    let extensions = Many::new(alloc);
    Ok(Space { extensions, params })
}

// One more variable, which its name finds from then on.
fn insert(
    alloc: Global,
    all: &mut HashMap<String, Variable>,
    name: &Name,
    place: usize,
    alone: Space,
) -> Result<(), NoMemory>
    ensures { OnOk result ((q : List ℕ) → get_by_text all.new q
        ≡ (if same_bytes name.now q then Some (record { place = place; alone = alone })
        else get_by_text all.old q)) }
{
    let (name, alone) = both(String::from_str(alloc, name.as_str()), Ok(alone))?;
    all.insert(name, Variable { place, alone })?;
    Ok(())
}

// From the last to the first, so that a name finds the first of its variables.
fn extensions_by_name(
    alloc: Global,
    extensions: &[ExtSpace],
) -> Result<HashMap<String, Variable>, NoMemory>
    ensures { IfOk result (λ all. (name : List ℕ)
        → get_by_text all name ≡ extension_among extensions.now name 0) }
{
    let mut all = HashMap::new(alloc);
    let count = extensions.len();
    for done in 0..count {
        let place = count - 1 - done;
        let extension = &extensions[place];
        let alone = alone_extension(alloc, extension)?;
        insert(alloc, &mut all, &extension.name, place, alone)?;
    }
    Ok(all)
}

fn params_by_name(
    alloc: Global,
    params: &[ParamSpace],
) -> Result<HashMap<String, Variable>, NoMemory>
    ensures { IfOk result (λ all. (name : List ℕ)
        → get_by_text all name ≡ param_among params.now name 0) }
{
    let mut all = HashMap::new(alloc);
    let count = params.len();
    for done in 0..count {
        let place = count - 1 - done;
        let param = &params[place];
        let alone = alone_param(alloc, param)?;
        insert(alloc, &mut all, &param.name, place, alone)?;
    }
    Ok(all)
}

fn variables_of(alloc: Global, space: &Space) -> Result<Variables, NoMemory>
    ensures { IfOk result (HasVariables space.now) }
{
    let extensions = extensions_by_name(alloc, space.extensions.as_slice());
    let (extensions, params) = both(extensions, params_by_name(alloc, space.params.as_slice()))?;
    Ok(Variables { extensions, params })
}

fn push_if_any<T: Drop>(items: &mut Many<T>, item: Option<T>) -> Result<(), NoMemory>
    ensures { OnOk result (items.new ≡ items.old ++ one_or_none item) }
{
    match item {
        Some(item) => items.push(item),
        None => Ok(()),
    }
}

fn constraints_of(
    alloc: Global,
    space: &Space,
    part: &Partial,
    cond: &Cond,
) -> Result<Conds, NoMemory>
    requires { space_count space.now + own_count part.now < 2 ^ 32 - 1 }
    ensures { IfOk result (λ all. all ≡ constraints space.now part.now cond.now) }
{
    let last = space.extensions.len() + 2 * space.params.len() + (part.constraints.len() + 1);
    let mut all = Many::new(alloc);
    for number in 1..last as u32 + 1 {
        push_if_any(&mut all, constraint(alloc, space, part, cond, number)?)?;
    }
    Ok(all)
}

impl Table {
    /// The table of a space, a configuration and an asked condition.
    pub(crate) fn of(
        alloc: Global,
        space: &Space,
        part: &Partial,
        cond: &Cond,
    ) -> Result<Table, NoMemory>
        requires { space_count space.now + own_count part.now < 2 ^ 32 - 1 }
        ensures { IfOk result (IsTable space.now part.now cond.now) }
    {
        let (variables, constraints) = both(
            variables_of(alloc, space),
            constraints_of(alloc, space, part, cond),
        )?;
        Ok(Table {
            variables,
            constraints,
        })
    }

    /// The constraint of a number, counted from 1.
    pub(crate) fn constraint(&self, number: u32) -> Option<&Cond>
        ensures { option_copied result ≡ numbered self.now.constraints number }
    {
        if number == 0 {
            return None;
        }
        self.constraints.get(number as usize - 1)
    }
}
