//! Spaces, conditions and configurations of cases.

use std::alloc::Global;
use udb_base::{
    Cond, Conds, Domain, Many, Name, NoMemory, ParamSpace, ParamSpaces, Partial, Space, Test, Value,
};

fn param(alloc: Global, name: &str, domain: Domain) -> Result<ParamSpace, NoMemory> {
    Ok(ParamSpace {
        name: Name::of(alloc, name)?,
        domain,
        defined: Cond::Always,
        needs: Cond::Always,
    })
}

fn widths(alloc: Global) -> Result<Domain, NoMemory> {
    Ok(Domain::Numbers(Many::from_slice(alloc, &[32, 64])?))
}

fn push_param(to: &mut ParamSpaces, one: Result<ParamSpace, NoMemory>) -> Result<(), NoMemory> {
    to.push(one?)?;
    Ok(())
}

fn push_params(alloc: Global, to: &mut ParamSpaces, has_width: bool) -> Result<(), NoMemory> {
    push_param(to, param(alloc, "A", Domain::Flags))?;
    push_param(to, param(alloc, "B", Domain::Flags))?;
    if has_width {
        let domain = widths(alloc)?;
        push_param(to, param(alloc, "MXLEN", domain))?;
    }
    Ok(())
}

/// A space without extensions: two free Boolean parameters, A and B, and where the text isn't `bare`
/// a parameter MXLEN, 32 or 64.
pub fn space_of(alloc: Global, text: &str) -> Result<Space, NoMemory> {
    let mut params = Many::new(alloc);
    push_params(alloc, &mut params, text != "bare")?;
    Ok(Space {
        extensions: Many::new(alloc),
        params,
    })
}

fn param_is(alloc: Global, name: &str, value: Value) -> Result<Cond, NoMemory> {
    Ok(Cond::Param {
        name: Name::of(alloc, name)?,
        test: Test::Equal,
        value,
    })
}

fn atom(alloc: Global, word: &str) -> Result<Cond, NoMemory> {
    match word {
        "32" => param_is(alloc, "MXLEN", Value::Number(32)),
        "64" => param_is(alloc, "MXLEN", Value::Number(64)),
        "always" => Ok(Cond::Always),
        "never" => Ok(Cond::Never),
        _ => match word.strip_prefix('!') {
            Some(name) => param_is(alloc, name, Value::Flag(false)),
            None => param_is(alloc, word, Value::Flag(true)),
        },
    }
}

fn push_cond(to: &mut Conds, one: Result<Cond, NoMemory>) -> Result<(), NoMemory> {
    to.push(one?)?;
    Ok(())
}

fn atoms(alloc: Global, text: &str) -> Result<Conds, NoMemory> {
    let mut parts = Many::new(alloc);
    for word in text.split('&') {
        push_cond(&mut parts, atom(alloc, word))?;
    }
    Ok(parts)
}

/// The condition that all of some words joined by `&` hold: `32` and `64` of MXLEN, `always`,
/// `never`, a parameter's name, or `!` before a parameter's name where it is false.
pub fn cond_of(alloc: Global, text: &str) -> Result<Cond, NoMemory> {
    Ok(Cond::All(atoms(alloc, text)?))
}

/// A configuration with such words as its constraints.
pub fn part_of(alloc: Global, text: &str) -> Result<Partial, NoMemory> {
    Ok(Partial {
        constraints: atoms(alloc, text)?,
    })
}
