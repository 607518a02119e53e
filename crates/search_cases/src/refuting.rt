//! The answers about proofs and full configurations.

ghost use Rattle.std.specs.Prelude.{◌≡◌, ◌<◌, ◌-◌, ◌^◌, true, IsTrue, length};
ghost use Rattle.udb_spec.specs.Lawful.{Lawful};
ghost use Rattle.udb_spec.specs.Refutes.{refutes};
ghost use Rattle.udb_spec.specs.ProofText.{HasShortPlaces, is_named};
ghost use Rattle.search_cases.specs.Small.{IsShort, IsSmall};

use crate::limits::LIMIT;
use std::alloc::Global;
use udb_base::{Chars, Cond, Full, Lines, NoMemory, Partial, Proof, Space};
use udb_check::{Path, ProofFault, check, find_flaw, print_proof, read_proof};
use udb_cond::{constraint, holds};
use udb_full::{FullFault, print_full, read_full};
use udb_refute::{Found, find};

/// A further line of an answer.
pub fn tell(to: &mut String, line: &str) -> Result<(), NoMemory> {
    to.push_str("\n    ")?;
    to.push_str(line)
}

fn tell_lines(to: &mut String, lines: &Lines) -> Result<(), NoMemory> {
    for line in lines.as_slice() {
        tell(to, line.as_str())?;
    }
    Ok(())
}

fn tell_number(alloc: Global, to: &mut String, word: &str, number: u32) -> Result<(), NoMemory> {
    tell(to, format!(in alloc; "{word} {number}")?.as_str())
}

fn tell_checked(to: &mut String, right: bool) -> Result<(), NoMemory> {
    tell(to, if right { "checked" } else { "wrong" })
}

fn are_same(a: &Lines, b: &Lines) -> bool {
    a.as_slice() == b.as_slice()
}

// ---- full configurations

fn is_printed(alloc: Global, space: &Space, full: &Full, lines: &Lines) -> Result<bool, NoMemory> {
    let printed = print_full(alloc, space, full)?;
    Ok(are_same(&printed, lines))
}

fn full_is_read(alloc: Global, space: &Space, lines: &Lines) -> Result<bool, NoMemory>
    requires { Lawful space.now }
{
    if LIMIT <= lines.len() {
        return Ok(false);
    }
    match read_full(alloc, space, lines) {
        Ok(full) => is_printed(alloc, space, &full, lines),
        Err(_) => Ok(false),
    }
}

fn constraint_holds(cond: &Option<Cond>, space: &Space, full: &Full) -> bool {
    match cond {
        Some(cond) => holds(space, cond, full),
        None => false,
    }
}

// Whether all numbered constraints hold.
fn completes(
    alloc: Global,
    space: &Space,
    part: &Partial,
    asked: &Cond,
    full: &Full,
) -> Result<bool, NoMemory>
    requires { IsShort space.now part.now }
{
    let count = space.extensions.len() + 2 * space.params.len() + part.constraints.len() + 1;
    for number in 1..count as u32 + 1 {
        if !constraint_holds(&constraint(alloc, space, part, asked, number)?, space, full) {
            return Ok(false);
        }
    }
    Ok(true)
}

fn tell_completion(
    alloc: Global,
    to: &mut String,
    space: &Space,
    part: &Partial,
    asked: &Cond,
    full: &Full,
    with_lines: bool,
) -> Result<(), NoMemory>
    requires lawful { Lawful space.now }
    requires small { IsSmall space.now part.now }
{
    let lines = print_full(alloc, space, full)?;
    tell(to, "completion")?;
    if with_lines {
        tell_lines(to, &lines)?;
    }
    let is_read = full_is_read(alloc, space, &lines)?;
    tell_checked(to, is_read && completes(alloc, space, part, asked, full)?)
}

fn tell_full(alloc: Global, to: &mut String, space: &Space, full: &Full) -> Result<(), NoMemory> {
    let lines = print_full(alloc, space, full)?;
    tell(to, "read")?;
    tell_lines(to, &lines)
}

/// The full configuration that lines are.
pub fn full_answer(
    alloc: Global,
    to: &mut String,
    space: &Space,
    lines: &Lines,
) -> Result<(), NoMemory>
    requires { Lawful space.now }
{
    if LIMIT <= lines.len() {
        return tell(to, "too long");
    }
    match read_full(alloc, space, lines) {
        Ok(full) => tell_full(alloc, to, space, &full),
        Err(FullFault::Line { number }) => tell_number(alloc, to, "line", number),
        Err(FullFault::Memory) => tell(to, "out of memory"),
    }
}

// ---- proofs

fn is_printed_proof(
    alloc: Global,
    space: &Space,
    proof: &Proof,
    lines: &Lines,
) -> Result<bool, NoMemory>
    requires { IsTrue (is_named space.now proof.now) }
{
    let printed = print_proof(alloc, space, proof)?;
    Ok(are_same(&printed, lines))
}

fn proof_is_read(alloc: Global, space: &Space, lines: &Lines) -> Result<bool, NoMemory>
    requires lawful { Lawful space.now }
    requires places { HasShortPlaces space.now }
{
    if LIMIT <= lines.len() {
        return Ok(false);
    }
    match read_proof(alloc, space, lines) {
        Ok(proof) => is_printed_proof(alloc, space, &proof, lines),
        Err(_) => Ok(false),
    }
}

fn tell_proof(
    alloc: Global,
    to: &mut String,
    space: &Space,
    part: &Partial,
    asked: &Cond,
    proof: &Proof,
    with_lines: bool,
) -> Result<(), NoMemory>
    requires lawful { Lawful space.now }
    requires small { IsSmall space.now part.now }
    requires refuted { refutes space.now part.now asked.now proof.now ≡ true }
{
    let lines = print_proof(alloc, space, proof)?;
    tell(to, "proof")?;
    if with_lines {
        tell_lines(to, &lines)?;
    }
    let is_read = proof_is_read(alloc, space, &lines)?;
    tell_checked(to, is_read && check(space, part, asked, proof))
}

/// A completion or a proof.
pub fn find_answer(
    alloc: Global,
    to: &mut String,
    space: &Space,
    part: &Partial,
    asked: &Cond,
    with_lines: bool,
) -> Result<(), NoMemory>
    requires lawful { Lawful space.now }
    requires small { IsSmall space.now part.now }
{
    match find(alloc, space, part, asked)? {
        Found::Completion(full) => {
            tell_completion(alloc, to, space, part, asked, &full, with_lines)
        }
        Found::Refuted(proof) => tell_proof(alloc, to, space, part, asked, &proof, with_lines),
    }
}

fn path_text(alloc: Global, path: &Path) -> Result<String, NoMemory> {
    let mut text = String::new(alloc);
    for (at, number) in path.as_slice().iter().enumerate() {
        if at > 0 {
            text.push_str(".")?;
        }
        write!(text, "{number}")?;
    }
    Ok(text)
}

fn tell_flaw(alloc: Global, to: &mut String, path: &Path) -> Result<(), NoMemory> {
    if path.is_empty() {
        return tell(to, "rejected root");
    }
    tell(to, "rejected ")?;
    to.push_str(path_text(alloc, path)?.as_str())
}

fn tell_verdict(
    alloc: Global,
    to: &mut String,
    space: &Space,
    part: &Partial,
    asked: &Cond,
    proof: &Proof,
) -> Result<(), NoMemory>
    requires { Lawful space.now }
{
    let right = check(space, part, asked, proof);
    match find_flaw(alloc, space, part, asked, proof)? {
        None => tell(to, if right { "accepted" } else { "wrong" }),
        Some(path) => tell_flaw(alloc, to, &path),
    }
}

/// Whether lines are a right proof.
pub fn check_answer(
    alloc: Global,
    to: &mut String,
    space: &Space,
    part: &Partial,
    asked: &Cond,
    lines: &Lines,
) -> Result<(), NoMemory>
    requires lawful { Lawful space.now }
    requires places { HasShortPlaces space.now }
{
    if LIMIT <= lines.len() {
        return tell(to, "too long");
    }
    match read_proof(alloc, space, lines) {
        Ok(proof) => tell_verdict(alloc, to, space, part, asked, &proof),
        Err(ProofFault::Line { number }) => tell_number(alloc, to, "rejected line", number),
        Err(ProofFault::Memory) => tell(to, "out of memory"),
    }
}
