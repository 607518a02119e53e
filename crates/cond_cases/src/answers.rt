//! The answers of cases.

use crate::sample::{full_of, part, space};
use crate::values::{cond_of, members_of};
use cond_text::{
    cond_or_none, known_text, members_or_none, push_requirement, push_value, push_version,
    truth_text,
};
use std::alloc::Global;
use udb_base::{Many, NoMemory};
use udb_cond::{
    Cells, Cond, Full, Listed, ListedVersions, Partial, Space, constraint, extension_place, holds,
    holds3, meets, param_place, parse_requirement, parse_version, value_of,
};

const NO_CASE: &str = "no case";

// ---- texts

fn version_answer(alloc: Global, text: &str) -> Result<String, NoMemory> {
    let mut told = String::new(alloc);
    match parse_version(text) {
        Ok(version) => push_version(&mut told, &version)?,
        Err(_) => told.push_str("none")?,
    }
    Ok(told)
}

fn requirement_answer(alloc: Global, text: &str) -> Result<String, NoMemory> {
    let mut told = String::new(alloc);
    match parse_requirement(text) {
        Ok(need) => push_requirement(&mut told, &need)?,
        Err(_) => told.push_str("none")?,
    }
    Ok(told)
}

fn listed_of(word: &str) -> Option<Listed> {
    let (text, breaking) = match word.strip_suffix('!') {
        Some(text) => (text, true),
        None => (word, false),
    };
    match parse_version(text) {
        Ok(version) => Some(Listed { version, breaking }),
        Err(_) => None,
    }
}

fn list_of(alloc: Global, text: &str) -> Result<ListedVersions, NoMemory> {
    let mut list = Many::new(alloc);
    for word in text.split(' ') {
        if let Some(listed) = listed_of(word) {
            list.push(listed)?;
        }
    }
    Ok(list)
}

fn meets_answer(alloc: Global, list: &str, rest: &str) -> Result<&'static str, NoMemory> {
    let list = list_of(alloc, list)?;
    let (need, version) = rest.split_once(" ; ").unwrap_or((rest, ""));
    match (parse_requirement(need), parse_version(version)) {
        (Ok(need), Ok(version)) => Ok(truth_text(meets(list.as_slice(), &need, &version))),
        _ => Ok(NO_CASE),
    }
}

// ---- conditions

fn holds_answer(alloc: Global, full: &str, text: &str) -> Result<&'static str, NoMemory> {
    let Some(cond) = cond_of(alloc, text)? else {
        return Ok(NO_CASE);
    };
    let space = space(alloc)?;
    let full = full_of(alloc, full)?;
    Ok(truth_text(holds(&space, &cond, &full)))
}

fn number(word: &str) -> u64 {
    word.parse::<u64>().unwrap_or(0)
}

fn small(word: &str) -> u32 {
    word.parse::<u32>().unwrap_or(0)
}

// A further step of a path: `E K` and `N K` for a child, `below K`, `from K`; else one that leaves
// all that is left.
fn step_of<'a>(step: &str, rest: &'a Cells<'a>) -> Cells<'a> {
    let (word, count) = step.split_once(' ').unwrap_or((step, ""));
    let (place, child) = (0, small(count));
    match word {
        "E" => Cells::Child {
            param: false,
            place,
            child,
            rest,
        },
        "N" => Cells::Child {
            param: true,
            place,
            child,
            rest,
        },
        "below" => Cells::Below {
            place,
            at: number(count),
            rest,
        },
        _ => Cells::From {
            place,
            at: number(count),
            rest,
        },
    }
}

// What is known after one step or two.
fn known_answer(alloc: Global, steps: &str, text: &str) -> Result<&'static str, NoMemory> {
    let Some(cond) = cond_of(alloc, text)? else {
        return Ok(NO_CASE);
    };
    let space = space(alloc)?;
    let (first, second) = steps.split_once(", ").unwrap_or((steps, ""));
    let all = Cells::All;
    let oldest = step_of(first, &all);
    let newest = step_of(second, &oldest);
    Ok(known_text(holds3(&space, &cond, &newest)))
}

// ---- constraints

fn constraint_answer(
    alloc: Global,
    space: &Space,
    part: &Partial,
    asked: &Cond,
    full: &Full,
    number: u32,
) -> Result<&'static str, NoMemory> {
    match constraint(alloc, space, part, asked, number)? {
        Some(cond) => Ok(truth_text(holds(space, &cond, full))),
        None => Ok("none"),
    }
}

fn push_constraints(
    to: &mut String,
    alloc: Global,
    full: &Full,
    asked: &Cond,
) -> Result<(), NoMemory> {
    let space = space(alloc)?;
    let part = part(alloc)?;
    for number in 0..7 {
        if number > 0 {
            to.push_str(" ")?;
        }
        to.push_str(constraint_answer(alloc, &space, &part, asked, full, number)?)?;
    }
    Ok(())
}

fn constraints_answer(alloc: Global, full: &str, text: &str) -> Result<String, NoMemory> {
    let mut told = String::new(alloc);
    let full = full_of(alloc, full)?;
    match cond_of(alloc, text)? {
        Some(asked) => push_constraints(&mut told, alloc, &full, &asked)?,
        None => told.push_str(NO_CASE)?,
    }
    Ok(told)
}

// ---- names

fn value_answer(alloc: Global, full: &str, name: &str) -> Result<String, NoMemory> {
    let mut told = String::new(alloc);
    let space = space(alloc)?;
    let full = full_of(alloc, full)?;
    match value_of(&space, &full, name) {
        Some(value) => push_value(&mut told, value)?,
        None => told.push_str("none")?,
    }
    Ok(told)
}

fn place_answer(alloc: Global, name: &str) -> Result<String, NoMemory> {
    let space = space(alloc)?;
    let extension = extension_place(&space, name);
    let param = param_place(&space, name);
    format!(in alloc; "extension {extension:?}, parameter {param:?}")
}

// ---- cases

fn two_parts(alloc: Global, word: &str, first: &str, second: &str) -> Result<String, NoMemory> {
    match word {
        "meets" => meets_answer(alloc, first, second)?.to_string(alloc),
        "holds" => holds_answer(alloc, first, second)?.to_string(alloc),
        "known" => known_answer(alloc, first, second)?.to_string(alloc),
        "constraints" => constraints_answer(alloc, first, second),
        "value" => value_answer(alloc, first, second),
        _ => NO_CASE.to_string(alloc),
    }
}

/// The answer of a case.
pub fn answer(alloc: Global, line: &str) -> Result<String, NoMemory> {
    let (word, rest) = line.split_once(' ').unwrap_or((line, ""));
    match word {
        "version" => version_answer(alloc, rest),
        "requirement" => requirement_answer(alloc, rest),
        "cond" => cond_or_none(alloc, &cond_of(alloc, rest)?),
        "members" => members_or_none(alloc, &members_of(alloc, rest, false)?),
        "implemented" => members_or_none(alloc, &members_of(alloc, rest, true)?),
        "place" => place_answer(alloc, rest),
        _ => match rest.split_once(" ; ") {
            Some((first, second)) => two_parts(alloc, word, first, second),
            None => NO_CASE.to_string(alloc),
        },
    }
}
