//! Block scalars, row by row.

ghost use Rattle.std.specs.Prelude.{◌≡◌, ◌++◌, ◌<◌, ◌≤◌, ◌-◌, replicate, IfOk, OnOk, suc};
ghost use Rattle.yaml_spec.specs.Spells.{at};
ghost use Rattle.yaml_spec.specs.Line as line;
ghost use Rattle.yaml_spec.specs.Machine as spec;
ghost use Rattle.udb_yaml.specs.Clauses.{deeper_row};

use crate::bytes;
use std::alloc::{AllocError, Global};
use udb_base::{Chars, NoMemory};
use yaml_spec::{Block, Tree};

/// A block scalar without rows.
pub fn open_block(alloc: Global, least: usize, folds: bool, keeps: bool) -> Block
    ensures { result ≡ spec.open_block least folds keeps }
{
    Block {
        least,
        folds,
        keeps,
        indentation: None,
        text: Chars::new(alloc),
        blanks: 0,
        deeper: false,
    }
}

/// Appends an ASCII character so many times.
pub fn push_times(text: &mut Chars, code: char, count: usize) -> Result<(), NoMemory>
    requires { code < 128 }
    ensures { OnOk result (text.new ≡ text.old ++ replicate count code) }
{
    'times: for _ in 0..count {
        text.push(code)?;
    }
    Ok(())
}

/// Appends one line feed more than there are blank rows.
fn push_feeds(text: &mut Chars, blanks: usize) -> Result<(), NoMemory>
    ensures { OnOk result (text.new ≡ text.old ++ replicate (suc blanks) 10) }
{
    text.push('\n')?;
    push_times(text, '\n', blanks)
}

/// What joins a row to the rows before it.
fn push_glue(text: &mut Chars, folds: bool, deeper: bool, blanks: usize) -> Result<(), NoMemory>
    ensures { OnOk result (text.new ≡ text.old ++ spec.glue folds deeper blanks) }
{
    if !folds || deeper {
        return push_feeds(text, blanks);
    }
    if blanks == 0 {
        return text.push(' ');
    }
    push_feeds(text, blanks - 1)
}

/// The first row that isn't blank: the blank rows before it each give a line feed.
fn add_first_row(block: &mut Block, column: usize, content: &str) -> Result<(), NoMemory>
    ensures { OnOk result (block.new ≡ spec.first_row block.old column content.now) }
{
    push_times(&mut block.text, '\n', block.blanks)?;
    block.text.push_str(content)?;
    block.indentation = Some(column);
    block.blanks = 0;
    block.deeper = bytes::begins(b' ', content.as_bytes());
    Ok(())
}

/// Whether a row begins with a space behind the indentation.
fn is_deeper(indentation: usize, column: usize, content: &str) -> bool
    requires { indentation ≤ column }
    ensures { result ≡ line.begins 32 (line.spaces (column - indentation) ++ content.now) }
{
    column > indentation || bytes::begins(b' ', content.as_bytes())
}

/// A later row that isn't blank, folded or kept behind the rows before it.
fn add_next_row(
    block: &mut Block,
    indentation: usize,
    column: usize,
    content: &str,
) -> Result<(), NoMemory>
    requires { indentation ≤ column }
    ensures { OnOk result (block.new ≡ deeper_row block.old indentation column content.now) }
{
    let deeper = is_deeper(indentation, column, content);
    push_glue(
        &mut block.text,
        block.folds,
        block.deeper || deeper,
        block.blanks,
    )?;
    push_times(&mut block.text, ' ', column - indentation)?;
    block.text.push_str(content)?;
    block.indentation = Some(indentation);
    block.blanks = 0;
    block.deeper = deeper;
    Ok(())
}

/// One more blank row.
fn add_blank_row(block: &mut Block) -> Result<(), NoMemory>
    ensures { OnOk result (block.new ≡ spec.blank_row block.old) }
{
    match block.blanks.checked_add(1) {
        Some(blanks) => {
            block.blanks = blanks;
            Ok(())
        }
        None => Err(AllocError),
    }
}

/// A block scalar (YAML 1.2.2, 8.1) with one more line inside it, or none where that line stands left of
/// its indentation.
pub fn with_row(block: Block, column: usize, content: &str) -> Result<Option<Block>, NoMemory>
    ensures { IfOk result (λ o. o ≡ spec.grown block (at column content.now)) }
{
    let mut block = block;
    if content.is_empty() {
        add_blank_row(&mut block)?;
        return Ok(Some(block));
    }
    match block.indentation {
        None => add_first_row(&mut block, column, content)?,
        Some(indentation) => {
            if column < indentation {
                return Ok(None);
            }
            add_next_row(&mut block, indentation, column, content)?;
        }
    }
    Ok(Some(block))
}

/// The text of a block scalar: without the chomping indicator `-`, text that isn't empty ends in one line
/// feed (YAML 1.2.2, 8.1.1.2).
pub fn block_tree(block: Block) -> Result<Tree, NoMemory>
    ensures { IfOk result (λ x. x ≡ spec.block_tree block) }
{
    let mut text = block.text;
    if block.keeps && text.len() > 0 {
        text.push('\n')?;
    }
    Ok(Tree::Text(text))
}
