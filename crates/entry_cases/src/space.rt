//! Spaces of names.

use std::alloc::Global;
use udb_base::{
    Cond, Domain, ExtSpace, ExtSpaces, Many, Name, NoMemory, ParamSpace, ParamSpaces, Space, both,
};

fn extension(alloc: Global, name: &str) -> Result<ExtSpace, NoMemory> {
    Ok(ExtSpace {
        name: Name::of(alloc, name)?,
        versions: Many::new(alloc),
        needs: Cond::Always,
    })
}

fn param(alloc: Global, name: &str) -> Result<ParamSpace, NoMemory> {
    Ok(ParamSpace {
        name: Name::of(alloc, name)?,
        domain: Domain::Flags,
        defined: Cond::Always,
        needs: Cond::Always,
    })
}

fn extensions(alloc: Global, names: &str) -> Result<ExtSpaces, NoMemory> {
    let mut list = Many::new(alloc);
    for name in names.split(' ') {
        list.push(extension(alloc, name)?)?;
    }
    Ok(list)
}

fn params(alloc: Global, names: &str) -> Result<ParamSpaces, NoMemory> {
    let mut list = Many::new(alloc);
    for name in names.split(' ') {
        list.push(param(alloc, name)?)?;
    }
    Ok(list)
}

/// A space of extensions and parameters, whose names a comma parts.
pub fn space_of(alloc: Global, names: &str) -> Result<Space, NoMemory> {
    let (first, second) = names.split_once(", ").unwrap_or((names, ""));
    let (extensions, params) = both(extensions(alloc, first), params(alloc, second))?;
    Ok(Space { extensions, params })
}
