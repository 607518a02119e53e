//! Reads texts.

ghost use Rattle.std.specs.Prelude.{◌≡◌, ◌+◌, ◌-◌, ◌≤◌, ◌<◌, ◌∷◌, [], ℕ, slice_index, length, take, drop, Ok, Err, Some, None, ◌⊎◌};
ghost use Rattle.std.specs.Str.{IsCharBoundary};
ghost use Rattle.yaml_spec.specs.Spells.{at};
ghost use Rattle.yaml_spec.specs.Texts as texts;
ghost use Rattle.yaml_spec.specs.Marks as marks;
ghost use Rattle.yaml_spec.specs.Machine as spec;
ghost use Rattle.yaml_spec.specs.Faults.{IsFirstBadLine};
ghost use Rattle.yaml_spec.specs.Print.{IsWritable};
ghost use Rattle.udb_yaml.specs.Answers.{IsFault, IsWhole, IsAnswer, IsReadAs, OnBad, OnOutside, feed_place};
ghost use Rattle.udb_yaml.specs.Clauses.{IsFirstLine};

use crate::bytes;
use crate::marks::line_mark;
use crate::steps::{State, close, empty, step};
use std::alloc::Global;
use yaml_spec::{Mark, Tree, YamlFault};

/// The first line of a text: its column, how long it is without its end, and with its end.
#[derive(Clone, Copy)]
pub struct Row {
    pub column: usize,
    pub count: usize,
    pub length: usize,
}

/// The place of the first line feed, or the end.
fn feed(text: &[u8]) -> usize
    ensures place { result ≡ feed_place text.now }
    ensures next { result < length text.now → slice_index text.now result ≡ 10 }
    ensures within { result ≤ length text.now }
{
    let mut at = 0;
    'bytes: while at < text.len() {
        if text[at] == b'\n' {
            return at;
        }
        at += 1;
    }
    at
}

/// How long a line is without a carriage return at its end.
fn without_return(line: &[u8]) -> usize
    ensures content { texts.without_return line.now ≡ take result line.now }
    ensures next { result < length line.now → slice_index line.now result ≡ 13 }
    ensures within { result ≤ length line.now }
{
    if line.len() > 0 && line[line.len() - 1] == b'\r' {
        line.len() - 1
    } else {
        line.len()
    }
}

fn first_row(text: &str) -> Row
    requires { 0 < length text.now }
    ensures lines { IsFirstLine text.now result.column result.count result.length }
    ensures count { IsCharBoundary text.now result.count }
    ensures column { IsCharBoundary (take result.count text.now) result.column }
    ensures length { IsCharBoundary text.now result.length }
    ensures shorter { 0 < result.length }
    ensures within { result.length ≤ length text.now }
{
    let bytes = text.as_bytes();
    let end = feed(bytes);
    let count = without_return(&bytes[..end]);
    let column = bytes::front(&bytes[..count]);
    let length = if end < bytes.len() { end + 1 } else { end };
    Row {
        column,
        count,
        length,
    }
}

fn fault(alloc: Global, line: u32, column: usize, content: &str) -> YamlFault
    ensures { IsFault line (marks.line_mark (at column content.now)) result }
{
    match line_mark(alloc, column, content) {
        Err(_) => YamlFault::Memory,
        Ok(None) => YamlFault::Bad { line },
        Ok(Some(word)) => YamlFault::Outside { line, word },
    }
}

fn whole(alloc: Global, state: State) -> Result<Tree, YamlFault>
    ensures { IsWhole (spec.close state.frames state.leaf) result }
{
    let State {
        started: _,
        frames,
        leaf,
    } = state;
    let mut all = frames;
    match close(alloc, &mut all, 0, leaf) {
        Ok(tree) => Ok(tree),
        Err(_) => Err(YamlFault::Memory),
    }
}

fn read(alloc: Global, text: &str) -> Result<Tree, YamlFault>
    ensures { IsAnswer (texts.lines_of text.now) result }
{
    let mut state = empty(alloc, false);
    let mut rest = text;
    let mut line: u32 = 0;
    'rows: while !rest.is_empty() {
        if line == u32::MAX {
            return Err(YamlFault::Memory);
        }
        let row = first_row(rest);
        let content = bytes::text_after(bytes::text_before(rest, row.count), row.column);
        line += 1;
        match step(alloc, state, row.column, content) {
            Err(_) => return Err(YamlFault::Memory),
            Ok(None) => return Err(fault(alloc, line, row.column, content)),
            Ok(Some(next)) => state = next,
        }
        rest = bytes::text_after(rest, row.length);
    }
    whole(alloc, state)
}

/// The tree that a text in the profile of YAML 1.2 spells, which `docs/formats/yaml.md` describes.
///
/// `Bad` and `Outside` name the first line, counted from 1, at which no text in the profile goes on:
/// `Outside` where that line uses an anchor, an alias, a tag, a directive or a document mark (YAML
/// 1.2.2, sections 6.8 and 6.9, 7.1 and 9.1), else `Bad`. `Memory` is answered for want of memory,
/// and for a text of more than 4,294,967,295 lines, which `u32` can't count.
pub fn read_tree(alloc: Global, text: &str) -> Result<Tree, YamlFault>
    ensures read { (x : Tree) → result ≡ Ok x → texts.Spelled text.now x }
    ensures writable { (x : Tree) → result ≡ Ok x → IsWritable 32 x }
    ensures spelled { (x : Tree) → texts.Spelled text.now x → IsReadAs x result }
    ensures once { (x y : Tree) → texts.Spelled text.now x → texts.Spelled text.now y → x ≡ y }
    ensures bad { OnBad result (λ n. IsFirstBadLine text.now n None) }
    ensures outside { OnOutside result (λ n w. IsFirstBadLine text.now n (Some w)) }
{
    read(alloc, text)
}
