//! The constraints of a configuration.

ghost use Rattle.std.specs.Prelude.{◌≡◌, ◌++◌, [], map, IfOk, OnOk};
ghost use Rattle.std.specs.Option.{option_copied};
ghost use Rattle.udb_base.specs.declared.conditions.Test.{Test};
ghost use Rattle.udb_entry.specs.Config as spec;

use entry_tree::{ConfigEntry, ConfigKind, Given, Member};
use std::alloc::Global;
use udb_base::{
    Boxed, Cond, Conds, Copied, ExtSpace, Many, Name, NoMemory, ParamSpace, Partial, Space, Test,
    both, copy_two,
};

// ---- parameters

fn given_among<'a>(givens: &'a [Given], name: &Name) -> Option<&'a Given>
    ensures { option_copied result ≡ spec.given_among givens.now name.now }
{
    for given in givens {
        if given.name == *name {
            return Some(given);
        }
    }
    None
}

fn equals_given(alloc: Global, given: &Given) -> Result<Cond, NoMemory>
    ensures { IfOk result (λ c. c ≡ Cond.Param given.now.name Test.Equal given.now.value) }
{
    let (name, value) = copy_two(alloc, &given.name, &given.value)?;
    Ok(Cond::Param {
        name,
        test: Test::Equal,
        value,
    })
}

fn push_value(
    alloc: Global,
    into: &mut Conds,
    name: &Name,
    givens: &[Given],
) -> Result<(), NoMemory>
    ensures { OnOk result (into.new ≡ into.old ++ spec.value_constraint givens.now name.now) }
{
    match given_among(givens, name) {
        Some(given) => into.push(equals_given(alloc, given)?),
        None => Ok(()),
    }
}

fn push_values(
    alloc: Global,
    into: &mut Conds,
    params: &[ParamSpace],
    givens: &[Given],
) -> Result<(), NoMemory>
    ensures { OnOk result (into.new ≡ into.old ++ spec.value_constraints params.now givens.now) }
{
    for param in params {
        push_value(alloc, into, &param.name, givens)?;
    }
    Ok(())
}

// ---- extensions

fn present(alloc: Global, member: &Member) -> Result<Cond, NoMemory>
    ensures { IfOk result (λ c. c ≡ spec.present member.now) }
{
    let needs = Many::from_slice(alloc, member.needs.as_slice());
    let (name, needs) = both(member.name.copy(alloc), needs)?;
    Ok(Cond::Ext { name, needs })
}

fn contrary(alloc: Global, member: &Member) -> Result<Cond, NoMemory>
    ensures { IfOk result (λ c. c ≡ spec.contrary member.now) }
{
    let present = present(alloc, member)?;
    Ok(Cond::Not(Boxed::new(alloc, present)?))
}

fn absent(alloc: Global, name: &Name) -> Result<Cond, NoMemory>
    ensures { IfOk result (λ c. c ≡ Cond.Not (Cond.Ext name.now [])) }
{
    let present = Cond::Ext {
        name: name.copy(alloc)?,
        needs: Many::new(alloc),
    };
    Ok(Cond::Not(Boxed::new(alloc, present)?))
}

fn push_present(alloc: Global, into: &mut Conds, members: &[Member]) -> Result<(), NoMemory>
    ensures { OnOk result (into.new ≡ into.old ++ map spec.present members.now) }
{
    for member in members {
        into.push(present(alloc, member)?)?;
    }
    Ok(())
}

fn push_contrary(alloc: Global, into: &mut Conds, members: &[Member]) -> Result<(), NoMemory>
    ensures { OnOk result (into.new ≡ into.old ++ map spec.contrary members.now) }
{
    for member in members {
        into.push(contrary(alloc, member)?)?;
    }
    Ok(())
}

fn is_named(members: &[Member], extension: &ExtSpace) -> bool
    ensures { result ≡ spec.is_named members.now extension.now }
{
    for member in members {
        if member.name == extension.name {
            return true;
        }
    }
    false
}

fn push_unless_named(
    alloc: Global,
    into: &mut Conds,
    members: &[Member],
    extension: &ExtSpace,
) -> Result<(), NoMemory>
    ensures { OnOk result (into.new ≡ into.old ++ spec.unless_named members.now extension.now) }
{
    if is_named(members, extension) {
        Ok(())
    } else {
        into.push(absent(alloc, &extension.name)?)
    }
}

fn push_others(
    alloc: Global,
    into: &mut Conds,
    extensions: &[ExtSpace],
    members: &[Member],
) -> Result<(), NoMemory>
    ensures { OnOk result (into.new ≡ into.old ++ spec.others_absent extensions.now members.now) }
{
    for extension in extensions {
        push_unless_named(alloc, into, members, extension)?;
    }
    Ok(())
}

fn push_additional(
    alloc: Global,
    into: &mut Conds,
    additional: bool,
    extensions: &[ExtSpace],
    members: &[Member],
) -> Result<(), NoMemory>
    ensures { OnOk result (into.new ≡ into.old ++ spec.unless_additional additional extensions.now members.now) }
{
    if additional {
        Ok(())
    } else {
        push_others(alloc, into, extensions, members)
    }
}

// ---- configurations

fn push_part(
    alloc: Global,
    into: &mut Conds,
    space: &Space,
    entry: &ConfigEntry,
) -> Result<(), NoMemory>
    ensures { OnOk result (into.new ≡ into.old ++ spec.part_constraints space.now entry.now) }
{
    let extensions = space.extensions.as_slice();
    let mandatory = entry.mandatory.as_slice();
    push_values(
        alloc,
        into,
        space.params.as_slice(),
        entry.params.as_slice(),
    )?;
    push_present(alloc, into, mandatory)?;
    push_contrary(alloc, into, entry.prohibited.as_slice())?;
    push_additional(alloc, into, entry.additional, extensions, mandatory)
}

fn push_full(
    alloc: Global,
    into: &mut Conds,
    space: &Space,
    entry: &ConfigEntry,
) -> Result<(), NoMemory>
    ensures { OnOk result (into.new ≡ into.old ++ spec.full_constraints space.now entry.now) }
{
    let implemented = entry.implemented.as_slice();
    push_part(alloc, into, space, entry)?;
    push_present(alloc, into, implemented)?;
    push_others(alloc, into, space.extensions.as_slice(), implemented)
}

fn push_by_kind(
    alloc: Global,
    into: &mut Conds,
    space: &Space,
    entry: &ConfigEntry,
) -> Result<(), NoMemory>
    ensures { OnOk result (into.new ≡ into.old ++ spec.config_constraints space.now entry.now) }
{
    match entry.kind {
        ConfigKind::Unconfigured => Ok(()),
        ConfigKind::Partially => push_part(alloc, into, space, entry),
        ConfigKind::Fully => push_full(alloc, into, space, entry),
    }
}

fn partial(alloc: Global, space: &Space, entry: &ConfigEntry) -> Result<Partial, NoMemory>
    ensures { IfOk result (λ p. p.constraints ≡ spec.config_constraints space.now entry.now) }
{
    let mut constraints = Many::new(alloc);
    push_by_kind(alloc, &mut constraints, space, entry)?;
    Ok(Partial { constraints })
}

/// The constraints of a configuration, in this order: a value for each pair of `params`, by names;
/// that each mandatory member is present in a version that meets its requirements, and that no
/// prohibited one is; where no additional extensions are allowed, that each extension is absent
/// that no mandatory member names. A fully configured one adds that each implemented member is
/// present at its version, and that each other extension is absent. An unconfigured one has none.
/// The one refusal is want of memory.
///
/// An entry of a valid database names extensions and parameters of the space alone, each parameter
/// once. A pair for a parameter that the space doesn't have has no constraint.
pub fn read_config(alloc: Global, space: &Space, entry: &ConfigEntry) -> Result<Partial, NoMemory>
    ensures exact { IfOk result (λ p. p.constraints ≡ spec.config_constraints space.now entry.now) }

    // No pair of a parameter is left out.
    ensures values { IfOk result (spec.HasValues space.now entry.now) }
{
    partial(alloc, space, entry)
}
