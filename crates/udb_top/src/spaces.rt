//! The space of a bundle's parameters.

ghost use Rattle.std.specs.Prelude.{◌≡◌, IfOk, map};
ghost use Rattle.manual_spec.specs.Entries.{param_space, space_of};
ghost use Rattle.first_prune.specs.Known.{entries_of};

use entry_tree::ParamEntry;
use first_bundle::FirstBundle;
use std::alloc::Global;
use udb_base::{Copied, Many, NoMemory, ParamSpace, ParamSpaces, Space};

fn space_of_param(alloc: Global, param: &ParamEntry) -> Result<ParamSpace, NoMemory>
    ensures { IfOk result (λ space. space ≡ param_space param.now) }
{
    Ok(ParamSpace {
        name: param.name.copy(alloc)?,
        domain: param.domain.copy(alloc)?,
        defined: param.defined.copy(alloc)?,
        needs: param.needs.copy(alloc)?,
    })
}

fn spaces_of_params(alloc: Global, params: &[ParamEntry]) -> Result<ParamSpaces, NoMemory>
    ensures { IfOk result (λ spaces. spaces ≡ map param_space params.now) }
{
    let mut spaces = Many::new(alloc);
    for param in params {
        spaces.push(space_of_param(alloc, param)?)?;
    }
    Ok(spaces)
}

/// The space of the bundle's entries.
pub fn space_of_bundle(alloc: Global, bundle: &FirstBundle) -> Result<Space, NoMemory>
    ensures { IfOk result (λ space. space ≡ space_of (entries_of bundle.now)) }
{
    Ok(Space {
        extensions: Many::new(alloc),
        params: spaces_of_params(alloc, bundle.params.as_slice())?,
    })
}
