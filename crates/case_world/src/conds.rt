//! Conditions of cases.

use crate::numbers::number_of;
use std::alloc::Global;
use udb_base::{Boxed, Chars, Cond, Conds, Many, Name, NoMemory, Test, Value, both};

// A value: a number where it begins with a digit.
fn value_of(alloc: Global, text: &str) -> Result<Value, NoMemory> {
    match text {
        "true" => Ok(Value::Flag(true)),
        "false" => Ok(Value::Flag(false)),
        _ => {
            if text.starts_with(|letter: char| letter.is_ascii_digit()) {
                return Ok(Value::Number(number_of(text)));
            }
            Ok(Value::Word(Chars::of(alloc, text)?))
        }
    }
}

fn parameter_is(alloc: Global, name: &str, value: &str) -> Result<Cond, NoMemory> {
    let (name, value) = both(Name::of(alloc, name), value_of(alloc, value))?;
    Ok(Cond::Param {
        name,
        test: Test::Equal,
        value,
    })
}

fn has_extension(alloc: Global, name: &str) -> Result<Cond, NoMemory> {
    Ok(Cond::Ext {
        name: Name::of(alloc, name)?,
        needs: Many::new(alloc),
    })
}

fn plain_atom(alloc: Global, word: &str) -> Result<Cond, NoMemory> {
    match word {
        "always" => Ok(Cond::Always),
        "never" => Ok(Cond::Never),
        "32" => parameter_is(alloc, "MXLEN", "32"),
        "64" => parameter_is(alloc, "MXLEN", "64"),
        _ => match word.split_once('=') {
            Some((name, value)) => parameter_is(alloc, name, value),
            None => has_extension(alloc, word),
        },
    }
}

fn negation(alloc: Global, part: Result<Cond, NoMemory>) -> Result<Cond, NoMemory> {
    Ok(Cond::Not(Boxed::new(alloc, part?)?))
}

fn atom(alloc: Global, word: &str) -> Result<Cond, NoMemory> {
    match word.strip_prefix('!') {
        Some(rest) => negation(alloc, plain_atom(alloc, rest)),
        None => plain_atom(alloc, word),
    }
}

fn push(to: &mut Conds, one: Result<Cond, NoMemory>) -> Result<(), NoMemory> {
    to.push(one?)?;
    Ok(())
}

/// The condition that all of some words joined by `&` hold: `NAME=VALUE` of a parameter, an
/// extension's name, `32` and `64` of MXLEN, `always`, `never`, or `!` before one of these.
pub fn cond_of(alloc: Global, text: &str) -> Result<Cond, NoMemory> {
    let mut parts = Many::new(alloc);
    for word in text.split('&') {
        push(&mut parts, atom(alloc, word))?;
    }
    Ok(Cond::All(parts))
}
