//! The sample space: the extension E in versions 1.0 and 2.0, which is required to be absent, and
//! the parameter N from 0 to 9, which is defined where E is there and has to be above 2.

use std::alloc::Global;
use udb_base::{Boxed, Chars, Copied, Many, Name, NoMemory, both};
use udb_cond::{
    Cond, Domain, ExtSpace, Full, Listed, ParamSpace, Partial, Space, Test, Value, Version,
    parse_version,
};

fn version(major: u32) -> Version {
    Version {
        major,
        minor: 0,
        patch: 0,
    }
}

fn listed(major: u32) -> Listed {
    Listed {
        version: version(major),
        breaking: false,
    }
}

fn e_is_there(alloc: Global) -> Result<Cond, NoMemory> {
    let name = Name::of(alloc, "E")?;
    let needs = Many::new(alloc);
    Ok(Cond::Ext { name, needs })
}

fn e_is_absent(alloc: Global) -> Result<Cond, NoMemory> {
    Ok(Cond::Not(Boxed::new(alloc, e_is_there(alloc)?)?))
}

fn n_is_above_2(alloc: Global) -> Result<Cond, NoMemory> {
    Ok(Cond::Param {
        name: Name::of(alloc, "N")?,
        test: Test::Above,
        value: Value::Number(2),
    })
}

fn list_of<T: Drop>(alloc: Global, item: Result<T, NoMemory>) -> Result<Many<T>, NoMemory> {
    let mut items = Many::new(alloc);
    items.push(item?)?;
    Ok(items)
}

fn extension(alloc: Global) -> Result<ExtSpace, NoMemory> {
    let versions = Many::from_slice(alloc, &[listed(1), listed(2)]);
    let parts = both(versions, e_is_absent(alloc));
    let (name, (versions, needs)) = both(Name::of(alloc, "E"), parts)?;
    Ok(ExtSpace {
        name,
        versions,
        needs,
    })
}

fn param(alloc: Global) -> Result<ParamSpace, NoMemory> {
    let parts = both(e_is_there(alloc), n_is_above_2(alloc));
    let (name, (defined, needs)) = both(Name::of(alloc, "N"), parts)?;
    Ok(ParamSpace {
        name,
        domain: Domain::Range { low: 0, high: 9 },
        defined,
        needs,
    })
}

/// The sample space.
pub fn space(alloc: Global) -> Result<Space, NoMemory> {
    let extensions = list_of(alloc, extension(alloc));
    let (extensions, params) = both(extensions, list_of(alloc, param(alloc)))?;
    Ok(Space { extensions, params })
}

/// The configuration that nothing completes.
pub fn part(alloc: Global) -> Result<Partial, NoMemory> {
    Ok(Partial {
        constraints: list_of(alloc, Ok(Cond::Never))?,
    })
}

fn value_of(alloc: Global, word: &str) -> Result<Value, NoMemory> {
    match word.parse::<u64>() {
        Ok(number) => Ok(Value::Number(number)),
        Err(_) => Ok(Value::Word(Chars::of(alloc, word)?)),
    }
}

/// The full configuration of a version, or none, and a number.
pub fn full_of(alloc: Global, text: &str) -> Result<Full, NoMemory> {
    let (version, number) = text.split_once(' ').unwrap_or((text, ""));
    let extensions = list_of(alloc, Ok(parse_version(version).ok()));
    let params = list_of(alloc, value_of(alloc, number));
    let (extensions, params) = both(extensions, params)?;
    Ok(Full { extensions, params })
}
