//! Cases of the YAML profile, one a line. In a line `\n`, `\r` and `\t` are a line feed, a carriage
//! return and a tab, and `\` before any other character is that character. Each line is printed
//! again, and below it what `read_tree` answers: the tree in flow style and the lines that
//! `write_tree` writes of it, or the line of the fault.
//!
//! A line `@COUNT|FRONT|PART|END` stands for a long text: FRONT, COUNT times PART, and END. In PART
//! a `%` is a word of three letters, another one each time, and `^` as many spaces as parts stand
//! before. Of such a text the length and what the tree is at its root are printed.
#![tactic(auto)]

ghost use Rattle.yaml_spec.specs.Print.{IsWritable};

use case_text::text_of;
use std::alloc::{AllocError, Global};
use std::io;
use udb_yaml::{Mark, Pair, Tree, YamlFault, read_tree, write_tree};

fn push_quoted(alloc: Global, out: &mut String, text: &str) -> Result<(), AllocError> {
    let quoted = format!(in alloc; "{text:?}")?;
    out.push_str(quoted.as_str())
}

fn push_number(alloc: Global, out: &mut String, number: i128) -> Result<(), AllocError> {
    let digits = format!(in alloc; "{number}")?;
    out.push_str(digits.as_str())
}

/// A tree in flow style.
#[cycle(trees)]
fn push_tree(alloc: Global, out: &mut String, tree: &Tree) -> Result<(), AllocError> {
    match tree {
        Tree::Null => out.push_str("null"),
        Tree::Flag(true) => out.push_str("true"),
        Tree::Flag(false) => out.push_str("false"),
        Tree::Int(number) => push_number(alloc, out, *number),
        Tree::Text(text) => push_quoted(alloc, out, text.as_str()),
        Tree::List(items) => push_items(alloc, out, items.as_slice()),
        Tree::Map(entries) => push_entries(alloc, out, entries.as_slice()),
    }
}

#[cycle(trees)]
fn push_items(alloc: Global, out: &mut String, items: &[Tree]) -> Result<(), AllocError> {
    out.push_str("[")?;
    for (place, item) in items.iter().enumerate() {
        if place > 0 {
            out.push_str(", ")?;
        }
        push_tree(alloc, out, item)?;
    }
    out.push_str("]")
}

#[cycle(trees)]
fn push_entries(alloc: Global, out: &mut String, entries: &[Pair]) -> Result<(), AllocError> {
    out.push_str("{")?;
    for (place, entry) in entries.iter().enumerate() {
        if place > 0 {
            out.push_str(", ")?;
        }
        push_quoted(alloc, out, entry.key.as_str())?;
        out.push_str(": ")?;
        push_tree(alloc, out, &entry.value)?;
    }
    out.push_str("}")
}

fn word_of(mark: Mark) -> &'static str {
    match mark {
        Mark::Anchor => "anchor",
        Mark::Alias => "alias",
        Mark::Tag => "tag",
        Mark::Document => "document",
        Mark::Directive => "directive",
    }
}

fn fault_text(alloc: Global, fault: YamlFault) -> Result<String, AllocError> {
    match fault {
        YamlFault::Memory => "no memory\n".to_string(alloc),
        YamlFault::Bad { line } => format!(in alloc; "bad line {line}\n"),
        YamlFault::Outside { line, word } => {
            format!(in alloc; "outside line {line} {}\n", word_of(word))
        }
    }
}

fn push_written(alloc: Global, out: &mut String, tree: &Tree) -> Result<(), AllocError>
    requires { IsWritable 32 tree.now }
{
    let text = write_tree(alloc, tree)?;
    for line in text.as_str().lines() {
        out.push_str("    | ")?;
        out.push_str(line)?;
        out.push('\n')?;
    }
    Ok(())
}

fn tree_text(alloc: Global, tree: &Tree) -> Result<String, AllocError>
    requires { IsWritable 32 tree.now }
{
    let mut out = String::new(alloc);
    push_tree(alloc, &mut out, tree)?;
    out.push('\n')?;
    push_written(alloc, &mut out, tree)?;
    Ok(out)
}

fn answer(alloc: Global, text: &str) -> Result<String, AllocError> {
    match read_tree(alloc, text) {
        Ok(tree) => tree_text(alloc, &tree),
        Err(fault) => fault_text(alloc, fault),
    }
}

fn letter(number: u32) -> char {
    (b'a' + (number % 26) as u8) as char
}

fn push_word(text: &mut String, number: u32) -> Result<(), AllocError> {
    text.push(letter(number / 676))?;
    text.push(letter(number / 26))?;
    text.push(letter(number))
}

fn push_spaces(text: &mut String, count: u32) -> Result<(), AllocError> {
    for _ in 0..count {
        text.push(' ')?;
    }
    Ok(())
}

fn push_part(text: &mut String, part: &str, number: u32) -> Result<(), AllocError> {
    for sign in part.chars() {
        match sign {
            '%' => push_word(text, number)?,
            '^' => push_spaces(text, number)?,
            other => text.push(other)?,
        }
    }
    Ok(())
}

fn long_text(
    alloc: Global,
    count: u32,
    front: &str,
    part: &str,
    end: &str,
) -> Result<String, AllocError> {
    let mut text = String::from_str(alloc, front)?;
    for number in 0..count {
        push_part(&mut text, part, number)?;
    }
    text.push_str(end)?;
    Ok(text)
}

fn root_text(alloc: Global, tree: &Tree) -> Result<String, AllocError> {
    match tree {
        Tree::Text(text) => format!(in alloc; "text of {} bytes\n", text.len()),
        Tree::List(items) => format!(in alloc; "list of {}\n", items.len()),
        Tree::Map(entries) => format!(in alloc; "map of {}\n", entries.len()),
        _ => "scalar\n".to_string(alloc),
    }
}

fn long_answer(alloc: Global, text: &str) -> Result<String, AllocError> {
    match read_tree(alloc, text) {
        Ok(tree) => root_text(alloc, &tree),
        Err(fault) => fault_text(alloc, fault),
    }
}

/// The parts of a long text's line, and its answer with the length in front.
fn long_case(alloc: Global, line: &str) -> Result<String, AllocError> {
    let mut parts = line.split('|');
    let count = parts.next().unwrap_or("").parse::<u32>().unwrap_or(0);
    let front = text_of(alloc, parts.next().unwrap_or(""))?;
    let part = text_of(alloc, parts.next().unwrap_or(""))?;
    let end = text_of(alloc, parts.next().unwrap_or(""))?;
    let text = long_text(alloc, count, front.as_str(), part.as_str(), end.as_str())?;
    let told = long_answer(alloc, text.as_str())?;
    format!(in alloc; "{} bytes: {}", text.len(), told.as_str())
}

fn case(alloc: Global, line: &str) -> Result<String, AllocError> {
    match line.strip_prefix('@') {
        Some(rest) => long_case(alloc, rest),
        None => {
            let text = text_of(alloc, line)?;
            answer(alloc, text.as_str())
        }
    }
}

fn main(rt: HostRuntime) -> io::Result<()> {
    for line in rt.lines(rt.alloc()) {
        let line = line?;
        let told = case(rt.alloc(), line.as_str())?;
        print!(rt; "{line}\n    {}", told.as_str())?;
    }
    Ok(())
}
