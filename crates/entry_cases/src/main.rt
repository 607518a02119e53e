//! Reads cases, one a line, and prints each with its answer. In a text `\n` is a line feed.
//!
//! - `KIND N T`, of each of the six kinds: the entry that the text T gives in the row of
//!   the name N, or the rule that it breaks with the lines that show it.
//! - `constraints E .., P .. ; T`: the constraints of the configuration that the text gives in a
//!   space of these extensions and parameters.
//! - `alphabet K N`: whether a name is one of a kind.
#![tactic(auto)]

mod entries;
mod programs;
mod space;

use case_text::text_of;
use cond_text::{push_cond, truth_text};
use entries::push_entry;
use space::space_of;
use std::alloc::Global;
use std::io;
use udb_base::{Cond, Kind, Lines, Name, NoMemory, Row, Space, Text, text};
use udb_entry::{ConfigEntry, Entry, EntryFault, has_alphabet, read_config, read_entry};

const NO_CASE: &str = "no case";

// ---- entries

fn entry_text(alloc: Global, escaped: &str) -> Result<Option<Text>, NoMemory> {
    let written = text_of(alloc, escaped)?;
    match text(alloc, written.as_bytes()) {
        Ok(text) => Ok(Some(text)),
        Err(_) => Ok(None),
    }
}

fn broken_text(alloc: Global, rule: u8, shows: &Lines) -> Result<String, NoMemory> {
    let mut told = format!(in alloc; "rule {rule}")?;
    for line in shows.as_slice() {
        told.push_str(" | ")?;
        told.push_str(line.as_str())?;
    }
    Ok(told)
}

fn fault_text(alloc: Global, fault: &EntryFault) -> Result<String, NoMemory> {
    match fault {
        EntryFault::Memory => "out of memory".to_string(alloc),
        EntryFault::Broken { rule, shows } => broken_text(alloc, *rule, shows),
    }
}

fn told_entry(alloc: Global, entry: &Entry) -> Result<String, NoMemory> {
    let mut told = "ok ".to_string(alloc)?;
    push_entry(alloc, &mut told, entry)?;
    Ok(told)
}

fn row_answer(alloc: Global, row: &Row) -> Result<String, NoMemory> {
    match read_entry(alloc, row) {
        Ok(entry) => told_entry(alloc, &entry),
        Err(fault) => fault_text(alloc, &fault),
    }
}

fn entry_answer(alloc: Global, kind: Kind, rest: &str) -> Result<String, NoMemory> {
    let (name, escaped) = rest.split_once(' ').unwrap_or((rest, ""));
    let name = Name::of(alloc, name)?;
    match entry_text(alloc, escaped)? {
        Some(text) => row_answer(alloc, &Row { kind, name, text }),
        None => NO_CASE.to_string(alloc),
    }
}

// ---- constraints

fn told_conds(alloc: Global, conds: &[Cond]) -> Result<String, NoMemory> {
    let mut told = String::new(alloc);
    for cond in conds {
        push_cond(&mut told, cond)?;
        told.push_str(";")?;
    }
    Ok(told)
}

fn constraints_in(alloc: Global, space: &Space, entry: &ConfigEntry) -> Result<String, NoMemory> {
    let part = read_config(alloc, space, entry)?;
    told_conds(alloc, part.constraints.as_slice())
}

fn told_constraints(alloc: Global, names: &str, entry: &Entry) -> Result<String, NoMemory> {
    match entry {
        Entry::Config(entry) => {
            let space = space_of(alloc, names)?;
            constraints_in(alloc, &space, entry)
        }
        _ => NO_CASE.to_string(alloc),
    }
}

fn constraints_of(alloc: Global, names: &str, row: &Row) -> Result<String, NoMemory> {
    match read_entry(alloc, row) {
        Ok(entry) => told_constraints(alloc, names, &entry),
        Err(fault) => fault_text(alloc, &fault),
    }
}

fn constraints_answer(alloc: Global, rest: &str) -> Result<String, NoMemory> {
    let (names, escaped) = rest.split_once(" ; ").unwrap_or((rest, ""));
    let name = Name::of(alloc, "c")?;
    let kind = Kind::Config;
    match entry_text(alloc, escaped)? {
        Some(text) => constraints_of(alloc, names, &Row { kind, name, text }),
        None => NO_CASE.to_string(alloc),
    }
}

// ---- names

fn kind_of(word: &str) -> Option<Kind> {
    match word {
        "extension" => Some(Kind::Extension),
        "parameter" => Some(Kind::Parameter),
        "instruction" => Some(Kind::Instruction),
        "csr" => Some(Kind::Csr),
        "functions" => Some(Kind::Functions),
        "config" => Some(Kind::Config),
        _ => None,
    }
}

fn alphabet_answer(rest: &str) -> &'static str {
    let (word, name) = rest.split_once(' ').unwrap_or((rest, ""));
    match kind_of(word) {
        Some(kind) => truth_text(has_alphabet(kind, name)),
        None => NO_CASE,
    }
}

// ---- cases

fn answer(alloc: Global, line: &str) -> Result<String, NoMemory> {
    let (word, rest) = line.split_once(' ').unwrap_or((line, ""));
    match word {
        "extension" => entry_answer(alloc, Kind::Extension, rest),
        "parameter" => entry_answer(alloc, Kind::Parameter, rest),
        "instruction" => entry_answer(alloc, Kind::Instruction, rest),
        "csr" => entry_answer(alloc, Kind::Csr, rest),
        "functions" => entry_answer(alloc, Kind::Functions, rest),
        "config" => entry_answer(alloc, Kind::Config, rest),
        "constraints" => constraints_answer(alloc, rest),
        "alphabet" => alphabet_answer(rest).to_string(alloc),
        _ => NO_CASE.to_string(alloc),
    }
}

fn main(rt: HostRuntime) -> io::Result<()> {
    for line in rt.lines(rt.alloc()) {
        let line = line?;
        let told = answer(rt.alloc(), line.as_str())?;
        println!(rt; "{line}\n    {told}")?;
    }
    Ok(())
}
