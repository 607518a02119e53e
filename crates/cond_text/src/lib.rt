//! Versions, requirements, conditions and members as texts, for programs of cases.
#![tactic(auto)]

use entry_tree::{Member, Members};
use std::alloc::Global;
use udb_base::NoMemory;
use udb_cond::{Compare, Cond, Known, Requirement, Test, Value, Version};

/// `yes` or `no`.
pub fn truth_text(truth: bool) -> &'static str {
    if truth { "yes" } else { "no" }
}

/// `yes`, `no` or `unknown`.
pub fn known_text(known: Known) -> &'static str {
    match known {
        Known::Yes => "yes",
        Known::No => "no",
        Known::Unknown => "unknown",
    }
}

/// Appends a version, with three parts.
pub fn push_version(to: &mut String, version: &Version) -> Result<(), NoMemory> {
    let (major, minor, patch) = (version.major, version.minor, version.patch);
    write!(to, "{major}.{minor}.{patch}")
}

fn compare_sign(compare: Compare) -> &'static str {
    match compare {
        Compare::Equal => "= ",
        Compare::NotEqual => "!= ",
        Compare::Above => "> ",
        Compare::AtLeast => ">= ",
        Compare::Below => "< ",
        Compare::AtMost => "<= ",
        Compare::Compatible => "~> ",
    }
}

/// Appends a requirement: its comparison, a space and its version.
pub fn push_requirement(to: &mut String, need: &Requirement) -> Result<(), NoMemory> {
    to.push_str(compare_sign(need.compare))?;
    push_version(to, &need.version)
}

fn push_extension(to: &mut String, name: &str, needs: &[Requirement]) -> Result<(), NoMemory> {
    to.push_str(name)?;
    for need in needs {
        to.push_str(" ")?;
        push_requirement(to, need)?;
    }
    Ok(())
}

fn test_sign(test: Test) -> &'static str {
    match test {
        Test::Equal => " = ",
        Test::NotEqual => " != ",
        Test::Above => " > ",
        Test::AtLeast => " >= ",
        Test::Below => " < ",
        Test::AtMost => " <= ",
    }
}

/// Appends a value; a text stands in double quotes.
pub fn push_value(to: &mut String, value: &Value) -> Result<(), NoMemory> {
    match value {
        Value::Flag(flag) => write!(to, "{flag}"),
        Value::Number(number) => write!(to, "{number}"),
        Value::Word(word) => write!(to, "\"{}\"", word.as_str()),
    }
}

#[cycle(cond_texts)]
fn push_parts(to: &mut String, word: &str, parts: &[Cond]) -> Result<(), NoMemory> {
    to.push_str(word)?;
    to.push_str("(")?;
    for (place, part) in parts.iter().enumerate() {
        if place > 0 {
            to.push_str(", ")?;
        }
        push_cond(to, part)?;
    }
    to.push_str(")")
}

/// Appends a condition: an extension as its name with its requirements, a parameter with its test,
/// and `all`, `any`, `one` and `not` before their parts.
#[cycle(cond_texts)]
pub fn push_cond(to: &mut String, cond: &Cond) -> Result<(), NoMemory> {
    match cond {
        Cond::Always => to.push_str("always"),
        Cond::Never => to.push_str("never"),
        Cond::Ext { name, needs } => push_extension(to, name.as_str(), needs.as_slice()),
        Cond::Param { name, test, value } => {
            to.push_str(name.as_str())?;
            to.push_str(test_sign(*test))?;
            push_value(to, value)
        }
        Cond::All(parts) => push_parts(to, "all", parts.as_slice()),
        Cond::Any(parts) => push_parts(to, "any", parts.as_slice()),
        Cond::One(parts) => push_parts(to, "one", parts.as_slice()),
        Cond::Not(part) => {
            to.push_str("not ")?;
            push_cond(to, part.get())
        }
    }
}

/// A condition, or `none`.
pub fn cond_or_none(alloc: Global, cond: &Option<Cond>) -> Result<String, NoMemory> {
    let mut text = String::new(alloc);
    match cond {
        Some(cond) => push_cond(&mut text, cond)?,
        None => text.push_str("none")?,
    }
    Ok(text)
}

/// Appends members, each ended by `;`.
pub fn push_members(to: &mut String, members: &[Member]) -> Result<(), NoMemory> {
    for member in members {
        push_extension(to, member.name.as_str(), member.needs.as_slice())?;
        to.push_str(";")?;
    }
    Ok(())
}

/// Members, each ended by `;`, or `none`.
pub fn members_or_none(alloc: Global, members: &Option<Members>) -> Result<String, NoMemory> {
    let mut text = String::new(alloc);
    match members {
        Some(members) => push_members(&mut text, members.as_slice())?,
        None => text.push_str("none")?,
    }
    Ok(text)
}
