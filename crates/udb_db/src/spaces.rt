//! The space of read entries.

ghost use Rattle.std.specs.Prelude.{◌≡◌, ◌++◌, IfOk, OnOk, map};
ghost use Rattle.std.specs.List.{flat_map};
ghost use Rattle.manual_spec.specs.Entries as manual;
ghost use Rattle.db_spec.specs.Entries as spec;
ghost use Rattle.udb_db.specs.Phases.{ext_spaces_in, param_spaces_in};

use entry_tree::{ExtensionEntry, ParamEntry};
use std::alloc::Global;
use udb_base::{
    Copied, ExtSpace, ExtSpaces, Many, NoMemory, ParamSpace, ParamSpaces, Space, both, copy_two,
};
use udb_entry::Entry;

fn ext_space(alloc: Global, entry: &ExtensionEntry) -> Result<ExtSpace, NoMemory>
    ensures { IfOk result (λ space. space ≡ manual.ext_space entry.now) }
{
    let versions = Many::from_slice(alloc, entry.versions.as_slice());
    let (versions, (name, needs)) = both(versions, copy_two(alloc, &entry.name, &entry.needs))?;
    Ok(ExtSpace {
        name,
        versions,
        needs,
    })
}

fn param_space(alloc: Global, entry: &ParamEntry) -> Result<ParamSpace, NoMemory>
    ensures { IfOk result (λ space. space ≡ manual.param_space entry.now) }
{
    let ((name, domain), (defined, needs)) = both(
        copy_two(alloc, &entry.name, &entry.domain),
        copy_two(alloc, &entry.defined, &entry.needs),
    )?;
    Ok(ParamSpace {
        name,
        domain,
        defined,
        needs,
    })
}

fn push_extension(alloc: Global, into: &mut ExtSpaces, entry: &Entry) -> Result<(), NoMemory>
    ensures { OnOk result (into.new ≡ into.old ++ ext_spaces_in entry.now) }
{
    match entry {
        Entry::Extension(entry) => into.push(ext_space(alloc, entry)?),
        Entry::Param(_) => Ok(()),
        Entry::Instruction(_) => Ok(()),
        Entry::Csr(_) => Ok(()),
        Entry::Functions(_) => Ok(()),
        Entry::Config(_) => Ok(()),
    }
}

fn push_param(alloc: Global, into: &mut ParamSpaces, entry: &Entry) -> Result<(), NoMemory>
    ensures { OnOk result (into.new ≡ into.old ++ param_spaces_in entry.now) }
{
    match entry {
        Entry::Extension(_) => Ok(()),
        Entry::Param(entry) => into.push(param_space(alloc, entry)?),
        Entry::Instruction(_) => Ok(()),
        Entry::Csr(_) => Ok(()),
        Entry::Functions(_) => Ok(()),
        Entry::Config(_) => Ok(()),
    }
}

fn ext_spaces(alloc: Global, entries: &[Entry]) -> Result<ExtSpaces, NoMemory>
    ensures { IfOk result (λ all. all ≡ flat_map ext_spaces_in entries.now) }
{
    let mut all = Many::new(alloc);
    for entry in entries {
        push_extension(alloc, &mut all, entry)?;
    }
    Ok(all)
}

fn param_spaces(alloc: Global, entries: &[Entry]) -> Result<ParamSpaces, NoMemory>
    ensures { IfOk result (λ all. all ≡ flat_map param_spaces_in entries.now) }
{
    let mut all = Many::new(alloc);
    for entry in entries {
        push_param(alloc, &mut all, entry)?;
    }
    Ok(all)
}

/// The space of read entries: extensions and parameters in the order of the entries.
pub fn space_of(alloc: Global, entries: &[Entry]) -> Result<Space, NoMemory>
    ensures { IfOk result (λ space. space ≡ spec.space_of entries.now) }
{
    let (extensions, params) = both(ext_spaces(alloc, entries), param_spaces(alloc, entries))?;
    Ok(Space { extensions, params })
}
