//! The answers of cases.

ghost use Rattle.udb_spec.specs.Lawful.{Lawful};
ghost use Rattle.search_cases.specs.Small.{IsSmall};

use crate::database::{cond_of, partial_of, space_of};
use crate::limits::is_small;
use crate::refuting::{check_answer, find_answer, full_answer, tell};
use std::alloc::Global;
use udb_base::{Chars, Cond, Lines, Many, NoMemory, Partial, Space, both};
use udb_lawful::{is_lawful, misfit};
use udb_yaml::read_tree;
use yaml_spec::Tree;

// The lines behind the word of an action.
fn lines_of(alloc: Global, action: &str) -> Result<Lines, NoMemory> {
    let mut lines = Many::new(alloc);
    for (at, line) in action.split(" ; ").enumerate() {
        if at > 0 {
            lines.push(Chars::of(alloc, line)?)?;
        }
    }
    Ok(lines)
}

// A line as often as a number says.
fn repeated(alloc: Global, text: &str) -> Result<Lines, NoMemory> {
    let (count, line) = text.split_once(' ').unwrap_or(("", ""));
    let mut lines = Many::new(alloc);
    for _ in 0..count.parse::<u32>().unwrap_or(0) {
        lines.push(Chars::of(alloc, line)?)?;
    }
    Ok(lines)
}

fn fits_answer(to: &mut String, space: &Space, asked: &Cond) -> Result<(), NoMemory> {
    match misfit(space, asked) {
        None => tell(to, "fits"),
        Some(name) => {
            tell(to, "misfit ")?;
            to.push_str(name.as_str())
        }
    }
}

fn lines_answer(
    alloc: Global,
    to: &mut String,
    space: &Space,
    part: &Partial,
    asked: &Cond,
    action: &str,
) -> Result<(), NoMemory>
    requires lawful { Lawful space.now }
    requires small { IsSmall space.now part.now }
{
    if let Some(rest) = action.strip_prefix("deep ") {
        let lines = repeated(alloc, rest)?;
        return check_answer(alloc, to, space, part, asked, &lines);
    }
    let lines = lines_of(alloc, action)?;
    if action.starts_with("check") {
        check_answer(alloc, to, space, part, asked, &lines)
    } else if action.starts_with("full") {
        full_answer(alloc, to, space, &lines)
    } else {
        tell(to, "no case")
    }
}

fn action_answer(
    alloc: Global,
    to: &mut String,
    space: &Space,
    part: &Partial,
    asked: &Cond,
    action: &str,
) -> Result<(), NoMemory>
    requires lawful { Lawful space.now }
    requires small { IsSmall space.now part.now }
{
    match action {
        "lawful" => tell(to, "lawful"),
        "fits" => fits_answer(to, space, asked),
        "find" => find_answer(alloc, to, space, part, asked, true),
        "answer" => find_answer(alloc, to, space, part, asked, false),
        _ => lines_answer(alloc, to, space, part, asked, action),
    }
}

fn tested_answer(
    alloc: Global,
    to: &mut String,
    space: &Space,
    part: &Partial,
    asked: &Cond,
    action: &str,
) -> Result<(), NoMemory> {
    if !is_lawful(space) {
        return tell(to, "unlawful");
    }
    if !is_small(space, part) {
        return tell(to, "too long");
    }
    action_answer(alloc, to, space, part, asked, action)
}

fn tree_answer(alloc: Global, to: &mut String, tree: &Tree, action: &str) -> Result<(), NoMemory> {
    let conds = both(partial_of(alloc, tree), cond_of(alloc, tree, "asked"));
    let (space, (part, asked)) = both(space_of(alloc, tree), conds)?;
    tested_answer(alloc, to, &space, &part, &asked, action)
}

fn case_answer(alloc: Global, to: &mut String, text: &str, action: &str) -> Result<(), NoMemory> {
    match read_tree(alloc, text) {
        Ok(tree) => tree_answer(alloc, to, &tree, action),
        Err(_) => tell(to, "no case"),
    }
}

/// A line and, where it is a case, the answer behind its name.
pub fn answer(alloc: Global, line: &str) -> Result<String, NoMemory> {
    let mut told = String::new(alloc);
    let (name, rest) = line.split_once(" | ").unwrap_or((line, ""));
    told.push_str(name)?;
    if let Some((text, action)) = rest.split_once(" | ") {
        case_answer(alloc, &mut told, text, action)?;
    }
    Ok(told)
}
