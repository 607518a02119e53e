//! Writes trees.

ghost use Rattle.std.specs.Prelude.{◌≡◌, ◌+◌, ◌++◌, ◌≤◌, ◌<◌, length, true, IfOk, OnOk, slice_index, replicate};
ghost use Rattle.std.specs.Fmt.{signed_decimal};
ghost use Rattle.yaml_spec.specs.Texts as texts;
ghost use Rattle.yaml_spec.specs.Line.{spaces};
ghost use Rattle.yaml_spec.specs.Print as spec;
ghost use Rattle.udb_yaml.specs.Clauses.{hex_escape, WritesRun};
ghost use Rattle.udb_yaml.specs.Printing.{is_escaped, run_place, value_text, items_text, entries_text, group_text};

use crate::bytes;
use crate::nodes::right_of;
use crate::rows::push_times;
use std::alloc::Global;
use udb_base::{Chars, NoMemory};
use yaml_spec::{Pair, Tree};

/// Whether a byte is written behind a backslash.
fn is_escaped(byte: u8) -> bool
    ensures { result ≡ is_escaped byte }
{
    byte == b'"' || byte == b'\\' || byte < 32
}

/// The place of the first byte that is written behind a backslash, or the end.
fn run(text: &[u8]) -> usize
    ensures place { result ≡ run_place text.now }
    ensures next { result < length text.now → is_escaped (slice_index text.now result) ≡ true }
    ensures within { result ≤ length text.now }
{
    let mut at = 0;
    'bytes: while at < text.len() {
        if is_escaped(text[at]) {
            return at;
        }
        at += 1;
    }
    at
}

fn glyph(digit: u8) -> char
    requires { digit < 16 }
    ensures sign { result ≡ spec.glyph digit }
    ensures small { result < 128 }
{
    if digit < 10 {
        (b'0' + digit) as char
    } else {
        (b'W' + digit) as char
    }
}

fn push_code(out: &mut Chars, byte: u8) -> Result<(), NoMemory>
    requires { byte < 32 }
    ensures { OnOk result (out.new ≡ out.old ++ hex_escape byte) }
{
    out.push_str("\\x")?;
    out.push(glyph(byte / 16))?;
    out.push(glyph(byte % 16))
}

/// A byte behind a backslash.
fn push_escaped(out: &mut Chars, byte: u8) -> Result<(), NoMemory>
    requires { is_escaped byte ≡ true }
    ensures { OnOk result (out.new ≡ out.old ++ spec.escape_byte byte) }
{
    match byte {
        b'"' => out.push_str("\\\""),
        b'\\' => out.push_str("\\\\"),
        b'\n' => out.push_str("\\n"),
        b'\t' => out.push_str("\\t"),
        b'\r' => out.push_str("\\r"),
        _ => push_code(out, byte),
    }
}

/// The first bytes of a text between quotes, and how many they are.
fn push_run(out: &mut Chars, text: &str) -> Result<usize, NoMemory>
    requires { 0 < length text.now }
    ensures { IfOk result (λ n. WritesRun out.old out.new text.now n) }
{
    let bytes = text.as_bytes();
    if is_escaped(bytes[0]) {
        push_escaped(out, bytes[0])?;
        return Ok(1);
    }
    let count = run(bytes);
    out.push_str(bytes::text_before(text, count))?;
    Ok(count)
}

fn push_quoted(out: &mut Chars, text: &str) -> Result<(), NoMemory>
    ensures { OnOk result (out.new ≡ out.old ++ spec.quote text.now) }
{
    out.push_str("\"")?;
    let mut rest = text;
    'runs: while !rest.is_empty() {
        let count = push_run(out, rest)?;
        rest = bytes::text_after(rest, count);
    }
    out.push_str("\"")
}

fn push_number(alloc: Global, out: &mut Chars, number: &i128) -> Result<(), NoMemory>
    ensures { OnOk result (out.new ≡ out.old ++ signed_decimal number.now) }
{
    let digits = format!(in alloc; "{number}")?;
    out.push_str(digits.as_str())
}

/// Whether a tree is a list or map that isn't empty.
fn is_group(tree: &Tree) -> bool
    ensures { result ≡ (spec.shown tree.now).0 }
{
    match tree {
        Tree::List(items) => !items.is_empty(),
        Tree::Map(entries) => !entries.is_empty(),
        Tree::Null => false,
        Tree::Flag(_) => false,
        Tree::Int(_) => false,
        Tree::Text(_) => false,
    }
}

/// What stands on one line of any other tree.
fn push_line(alloc: Global, out: &mut Chars, tree: &Tree) -> Result<(), NoMemory>
    ensures { OnOk result (out.new ≡ out.old ++ (spec.shown tree.now).1) }
{
    match tree {
        Tree::Null => out.push_str("null"),
        Tree::Flag(flag) => {
            if *flag {
                out.push_str("true")
            } else {
                out.push_str("false")
            }
        }
        Tree::Int(number) => push_number(alloc, out, number),
        Tree::Text(text) => push_quoted(out, text.as_str()),
        Tree::List(_) => out.push_str("[]"),
        Tree::Map(_) => out.push_str("{}"),
    }
}

/// What stands behind a mark at a column.
#[cycle(print)]
fn push_value(alloc: Global, out: &mut Chars, column: usize, tree: &Tree) -> Result<(), NoMemory>
    ensures { OnOk result (out.new ≡ out.old ++ value_text column (spec.shown tree.now)) }
{
    if is_group(tree) {
        let inner = right_of(right_of(column)?)?;
        out.push_str("\n")?;
        return push_group(alloc, out, inner, tree);
    }
    out.push_str(" ")?;
    push_line(alloc, out, tree)?;
    out.push_str("\n")
}

/// The lines of a list or map at a column.
#[cycle(print)]
fn push_group(alloc: Global, out: &mut Chars, column: usize, tree: &Tree) -> Result<(), NoMemory>
    ensures { OnOk result (out.new ≡ out.old ++ group_text column tree.now) }
{
    match tree {
        Tree::List(items) => push_items(alloc, out, column, items.as_slice()),
        Tree::Map(entries) => push_entries(alloc, out, column, entries.as_slice()),
        Tree::Null => Ok(()),
        Tree::Flag(_) => Ok(()),
        Tree::Int(_) => Ok(()),
        Tree::Text(_) => Ok(()),
    }
}

#[cycle(print)]
fn push_items(alloc: Global, out: &mut Chars, column: usize, items: &[Tree]) -> Result<(), NoMemory>
    ensures { OnOk result (out.new ≡ out.old ++ items_text column items.now) }
{
    'items: for item in items {
        push_times(out, ' ', column)?;
        out.push_str("-")?;
        push_value(alloc, out, column, item)?;
    }
    Ok(())
}

#[cycle(print)]
fn push_entries(
    alloc: Global,
    out: &mut Chars,
    column: usize,
    entries: &[Pair],
) -> Result<(), NoMemory>
    ensures { OnOk result (out.new ≡ out.old ++ entries_text column entries.now) }
{
    'entries: for entry in entries {
        push_times(out, ' ', column)?;
        push_quoted(out, entry.key.as_str())?;
        out.push_str(":")?;
        push_value(alloc, out, column, &entry.value)?;
    }
    Ok(())
}

/// The text of any tree, writable or not.
fn text_of_tree(alloc: Global, tree: &Tree) -> Result<Chars, NoMemory>
    ensures { IfOk result (λ x. x ≡ spec.tree_text tree.now) }
{
    let mut out = Chars::new(alloc);
    if is_group(tree) {
        push_group(alloc, &mut out, 0, tree)?;
    } else {
        push_line(alloc, &mut out, tree)?;
        out.push_str("\n")?;
    }
    Ok(out)
}

/// The text of a tree: block sequences and mappings (YAML 1.2.2, 8.2), the inner ones two columns to the
/// right of the outer ones, and texts in double quotes. `read_tree` answers the tree for it. The tree has
/// at most 32 lists and maps in one another, distinct keys and numbers from -2^63 to 2^64-1, as every tree
/// that `read_tree` answers. The one refusal is want of memory.
pub fn write_tree(alloc: Global, tree: &Tree) -> Result<Chars, NoMemory>
    requires { spec.IsWritable 32 tree.now }
    ensures text { IfOk result (λ x. x ≡ spec.tree_text tree.now) }
    ensures back { IfOk result (λ x. texts.Spelled x tree.now) }
{
    text_of_tree(alloc, tree)
}
