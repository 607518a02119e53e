//! The numbers of widths.

use idl_parse::parse_body;
use idl_tree::{Body, Shape, Stmt, Width};
use idl_width::{BitsOf, BitsScope, width_value};
use std::alloc::Global;
use udb_base::{Chars, Cond, Domain, Full, Many, Name, NoMemory, ParamSpace, Space, Value};

fn parameter(alloc: Global, name: &str) -> Result<ParamSpace, NoMemory> {
    Ok(ParamSpace {
        name: Name::of(alloc, name)?,
        domain: Domain::Range { low: 0, high: 64 },
        defined: Cond::Always,
        needs: Cond::Always,
    })
}

// The parameters MXLEN and N.
fn space(alloc: Global) -> Result<Space, NoMemory> {
    let mut params = Many::new(alloc);
    params.push(parameter(alloc, "MXLEN")?)?;
    params.push(parameter(alloc, "N")?)?;
    Ok(Space {
        extensions: Many::new(alloc),
        params,
    })
}

fn full(alloc: Global, mxlen: u64, n: u64) -> Result<Full, NoMemory> {
    let mut params = Many::new(alloc);
    params.push(Value::Number(mxlen))?;
    params.push(Value::Number(n))?;
    Ok(Full {
        extensions: Many::new(alloc),
        params,
    })
}

fn number(text: &str) -> u64 {
    text.parse::<u64>().unwrap_or(0)
}

fn bits(text: &str) -> u8 {
    text.parse::<u8>().unwrap_or(0)
}

fn csr_name(alloc: Global, csr: Option<&str>) -> Result<Option<Name>, NoMemory> {
    match csr {
        Some(csr) => Ok(Some(Name::of(alloc, csr)?)),
        None => Ok(None),
    }
}

// A name with its bits: `v=12/20`, or `c.F=0/7` where a CSR stands.
fn bits_of(alloc: Global, entry: &str) -> Result<BitsOf, NoMemory> {
    let (name, places) = entry.split_once('=').unwrap_or((entry, ""));
    let (rv32, rv64) = places.split_once('/').unwrap_or((places, places));
    let (csr, name) = match name.split_once('.') {
        Some((csr, field)) => (Some(csr), field),
        None => (None, name),
    };
    Ok(BitsOf {
        csr: csr_name(alloc, csr)?,
        name: Name::of(alloc, name)?,
        rv32: bits(rv32),
        rv64: bits(rv64),
    })
}

fn scope(alloc: Global, entries: &str) -> Result<BitsScope, NoMemory> {
    let mut scope = Many::new(alloc);
    for entry in entries.split(',') {
        scope.push(bits_of(alloc, entry)?)?;
    }
    Ok(scope)
}

// The width of the local that a body declares first.
fn first_width(body: &Body) -> Option<&Width> {
    match body.statements.as_slice().first() {
        Some(
            Stmt::Declare {
                shape: Shape::Bits { width, .. },
                ..
            },
        ) => Some(width),
        _ => None,
    }
}

fn value(
    alloc: Global,
    body: &Body,
    space: &Space,
    full: &Full,
    scope: &BitsScope,
) -> Result<Chars, NoMemory> {
    match first_width(body) {
        Some(width) => {
            let value = width_value(width, space, full, scope);
            Ok(Chars::from_string(format!(in alloc; "{value}")?))
        }
        None => Chars::of(alloc, "no width"),
    }
}

/// The number of a width: the values of MXLEN and N, the scope and the width.
pub fn width_answer(alloc: Global, case: &str) -> Result<Chars, NoMemory> {
    let (mxlen, case) = case.split_once(' ').unwrap_or((case, ""));
    let (n, case) = case.split_once(' ').unwrap_or((case, ""));
    let (entries, width) = case.split_once(' ').unwrap_or((case, ""));
    let source = format!(in alloc; "Bits<{width}> x = 0;")?;
    if source.len() > 65_536 {
        return Chars::of(alloc, "too long");
    }
    let space = space(alloc)?;
    let full = full(alloc, number(mxlen), number(n))?;
    let scope = scope(alloc, entries)?;
    match parse_body(alloc, source.as_str()) {
        Ok(body) => value(alloc, &body, &space, &full, &scope),
        Err(_) => Chars::of(alloc, "no width"),
    }
}
