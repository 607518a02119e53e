//! The lines of statements, and the text of a body.

ghost use Rattle.std.specs.Prelude.{◌≡◌, ◌++◌, ◌∷◌, [], IfOk, OnOk};
ghost use Rattle.udb_base.specs.Lines.{text_of_lines};
ghost use Rattle.idl_tree.specs.Print.{target_text, expr_text, for_text, margined, stmt_lines, lines_of_statements, body_lines, body_text};
ghost use Rattle.idl_print.specs.StatementLines.{pair_text, statement_head, statement_tail, block_lines};

use crate::expression_text::{push_call, push_enclosed, push_expression, push_memory};
use crate::width_text::{push_field, push_range, push_shape, push_width};
use idl_tree::{Body, Expr, Stmt, Target, Width};
use std::alloc::Global;
use udb_base::{Chars, Lines, Many, Name, NoMemory, text_of_lines};

// Appends two expressions with a text between them, and the end of a call.
fn push_pair(
    alloc: Global,
    out: &mut Chars,
    first: &Expr,
    between: &str,
    second: &Expr,
) -> Result<(), NoMemory>
    ensures { OnOk result (out.new ≡ out.old ++ pair_text first.now between.now second.now) }
{
    push_expression(alloc, out, first)?;
    push_enclosed(alloc, out, between, second, ");")
}

fn push_target(alloc: Global, out: &mut Chars, target: &Target) -> Result<(), NoMemory>
    ensures { OnOk result (out.new ≡ out.old ++ target_text target.now) }
{
    match target {
        Target::Word(name) => out.push_str(name.as_str()),
        Target::Bit { name, at } => {
            out.push_str(name.as_str())?;
            push_enclosed(alloc, out, "[", at, "]")
        }
        Target::Slice { name, high, low } => {
            out.push_str(name.as_str())?;
            push_range(alloc, out, high, low)
        }
        Target::Register(at) => push_enclosed(alloc, out, "X[", at, "]"),
        Target::Field { csr, field } => push_field(out, csr, field),
    }
}

fn push_for(
    alloc: Global,
    out: &mut Chars,
    name: &Name,
    from: &Width,
    to: &Width,
) -> Result<(), NoMemory>
    ensures { OnOk result (out.new ≡ out.old ++ for_text name.now from.now to.now) }
{
    out.push_str("for (U32 ")?;
    out.push_str(name.as_str())?;
    out.push_str(" = ")?;
    push_width(alloc, out, from)?;
    out.push_str("; ")?;
    out.push_str(name.as_str())?;
    out.push_str(" < ")?;
    push_width(alloc, out, to)?;
    out.push_str("; ")?;
    out.push_str(name.as_str())?;
    out.push_str("++) {")
}

// Appends the first line of a statement, which is the whole of one without a block.
#[tactic(auto, using(crate::proofs::StatementLaws::heads))]
fn push_head(alloc: Global, out: &mut Chars, s: &Stmt) -> Result<(), NoMemory>
    ensures { OnOk result (out.new ≡ out.old ++ statement_head s.now) }
{
    match s {
        Stmt::Declare { shape, name, value } => {
            push_shape(alloc, out, shape)?;
            out.push_str(" ")?;
            out.push_str(name.as_str())?;
            push_enclosed(alloc, out, " = ", value, ";")
        }
        Stmt::Assign { target, value } => {
            push_target(alloc, out, target)?;
            push_enclosed(alloc, out, " = ", value, ";")
        }
        Stmt::Block(_) => out.push_str("{"),
        Stmt::Return(value) => push_enclosed(alloc, out, "return ", value, ";"),
        Stmt::If { test, .. } => push_enclosed(alloc, out, "if (", test, ") {"),
        Stmt::For { name, from, to, .. } => push_for(alloc, out, name, from, to),
        Stmt::Jump(to) => push_enclosed(alloc, out, "jump(", to, ");"),
        Stmt::Raise { code, tval } => {
            out.push_str("raise(")?;
            push_pair(alloc, out, code, ", mode(), ", tval)
        }
        Stmt::WriteMemory { bits, at, value } => {
            push_memory(alloc, out, "write_memory<", *bits)?;
            push_pair(alloc, out, at, ", ", value)
        }
        Stmt::SoftWrite { address, value } => {
            out.push_str("CSR[")?;
            push_pair(alloc, out, address, "].sw_write(", value)
        }
        Stmt::Call { name, args } => {
            push_call(alloc, out, name, args.as_slice())?;
            out.push_str(";")
        }
    }
}

fn push_first_line(alloc: Global, out: &mut Lines, margin: &str, s: &Stmt) -> Result<(), NoMemory>
    ensures { OnOk result (out.new ≡ out.old ++ (margin.now ++ statement_head s.now) ∷ []) }
{
    let mut line = Chars::of(alloc, margin)?;
    push_head(alloc, &mut line, s)?;
    out.push(line)
}

fn push_line(alloc: Global, out: &mut Lines, margin: &str, text: &str) -> Result<(), NoMemory>
    ensures { OnOk result (out.new ≡ out.old ++ (margin.now ++ text.now) ∷ []) }
{
    let mut line = Chars::of(alloc, margin)?;
    line.push_str(text)?;
    out.push(line)
}

// Appends the lines of a statement, each after the margin.
#[cycle(statement_lines)]
#[tactic(auto, using(crate::proofs::StatementLaws::statement_lines))]
fn push_statement(alloc: Global, out: &mut Lines, margin: &str, s: &Stmt) -> Result<(), NoMemory>
    ensures { OnOk result (out.new ≡ out.old ++ margined margin.now (stmt_lines s.now)) }
{
    push_first_line(alloc, out, margin, s)?;
    push_blocks(alloc, out, margin, s)
}

// Appends the blocks of a statement, each with the line that closes it.
#[cycle(statement_lines)]
#[tactic(auto, using(crate::proofs::StatementLaws::tails))]
fn push_blocks(alloc: Global, out: &mut Lines, margin: &str, s: &Stmt) -> Result<(), NoMemory>
    ensures { OnOk result (out.new ≡ out.old ++ margined margin.now (statement_tail s.now)) }
{
    match s {
        Stmt::Declare { .. } => Ok(()),
        Stmt::Assign { .. } => Ok(()),
        Stmt::Block(block) => push_block(alloc, out, margin, block.as_slice(), "}"),
        Stmt::Return(_) => Ok(()),
        Stmt::If { yes, no, .. } => match no {
            None => push_block(alloc, out, margin, yes.as_slice(), "}"),
            Some(no) => {
                push_block(alloc, out, margin, yes.as_slice(), "} else {")?;
                push_block(alloc, out, margin, no.as_slice(), "}")
            }
        },
        Stmt::For { block, .. } => push_block(alloc, out, margin, block.as_slice(), "}"),
        Stmt::Jump(_) => Ok(()),
        Stmt::Raise { .. } => Ok(()),
        Stmt::WriteMemory { .. } => Ok(()),
        Stmt::SoftWrite { .. } => Ok(()),
        Stmt::Call { .. } => Ok(()),
    }
}

// Appends the lines of a block, one level further in, and the line that closes it.
#[cycle(statement_lines)]
#[tactic(auto, using(crate::proofs::StatementLaws::block_steps))]
fn push_block(
    alloc: Global,
    out: &mut Lines,
    margin: &str,
    all: &[Stmt],
    last: &str,
) -> Result<(), NoMemory>
    ensures { OnOk result
        (out.new ≡ out.old ++ margined margin.now (block_lines all.now last.now)) }
{
    let mut inner = Chars::of(alloc, margin)?;
    inner.push_str("  ")?;
    push_statements(alloc, out, inner.as_str(), all)?;
    push_line(alloc, out, margin, last)
}

#[cycle(statement_lines)]
#[tactic(auto, using(idl_tree::proofs::Margins::more_statements))]
fn push_statements(
    alloc: Global,
    out: &mut Lines,
    margin: &str,
    all: &[Stmt],
) -> Result<(), NoMemory>
    ensures { OnOk result (out.new ≡ out.old ++ margined margin.now (lines_of_statements all.now)) }
{
    for next in all {
        push_statement(alloc, out, margin, next)?;
    }
    Ok(())
}

/// Appends the lines of a body's statements, each after the margin.
pub fn push_body(alloc: Global, out: &mut Lines, margin: &str, body: &Body) -> Result<(), NoMemory>
    ensures { OnOk result (out.new ≡ out.old ++ margined margin.now (body_lines body.now)) }
{
    push_statements(alloc, out, margin, body.statements.as_slice())
}

/// The lines of a statement that is printed alone.
#[tactic(auto, using(idl_tree::proofs::Margins::margins))]
pub fn statement_alone(alloc: Global, s: &Stmt) -> Result<Lines, NoMemory>
    ensures { IfOk result (λ lines. lines ≡ stmt_lines s.now) }
{
    let mut lines = Many::new(alloc);
    push_statement(alloc, &mut lines, "", s)?;
    Ok(lines)
}

/// The line of a target that is printed alone.
pub fn target_alone(alloc: Global, target: &Target) -> Result<Lines, NoMemory>
    ensures { IfOk result (λ lines. lines ≡ target_text target.now ∷ []) }
{
    let mut line = Chars::new(alloc);
    push_target(alloc, &mut line, target)?;
    let mut lines = Many::new(alloc);
    lines.push(line)?;
    Ok(lines)
}

/// The line of an expression that is printed alone.
pub fn expression_alone(alloc: Global, e: &Expr) -> Result<Lines, NoMemory>
    ensures { IfOk result (λ lines. lines ≡ expr_text e.now ∷ []) }
{
    let mut line = Chars::new(alloc);
    push_expression(alloc, &mut line, e)?;
    let mut lines = Many::new(alloc);
    lines.push(line)?;
    Ok(lines)
}

/// The printed lines of a body's statements, two spaces a level, without line feeds. The variables
/// of an encoding are no part of the text. The one refusal is want of memory.
#[tactic(auto, using(idl_tree::proofs::Margins::margins))]
pub fn body_lines(alloc: Global, body: &Body) -> Result<Lines, NoMemory>
    ensures { IfOk result (λ lines. lines ≡ body_lines body.now) }
{
    let mut lines = Many::new(alloc);
    push_statements(alloc, &mut lines, "", body.statements.as_slice())?;
    Ok(lines)
}

/// The printed text of a body's statements: its lines, each ended by a line feed. The one refusal
/// is want of memory.
pub fn print_body(alloc: Global, body: &Body) -> Result<Chars, NoMemory>
    ensures { IfOk result (λ text. text ≡ body_text body.now) }
{
    let lines = body_lines(alloc, body)?;
    text_of_lines(alloc, lines.as_slice())
}
