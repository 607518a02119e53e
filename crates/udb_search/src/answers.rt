//! What a search finds, and what is said of a proof.

ghost use Rattle.std.specs.Prelude.{◌≡◌, IfOk, IsTrue};
ghost use Rattle.udb_spec.specs.Lawful.{Lawful};
ghost use Rattle.udb_spec.specs.ProofText.{HasShortPlaces, is_named};
ghost use Rattle.udb_search.specs.Texts as spec;
ghost use Rattle.udb_search.specs.Replies.{IsFoundText, IsVerdict, IsVerdictOn};

use crate::texts::{accepted_text, bad_line_text, counted_text, rejected_text};
use std::alloc::{AllocError, Global};
use udb_base::{Chars, Cond, Full, Lines, NoMemory, Partial, Proof, Space};
use udb_check::{ProofFault, find_flaw, print_proof, read_proof};
use udb_db::search;
use udb_full::print_full;
use udb_refute::Found;

fn completion_text(alloc: Global, space: &Space, full: &Full) -> Result<Chars, NoMemory>
    ensures { IfOk result (λ text. text ≡ spec.found_text space.now (Found.Completion full.now)) }
{
    let lines = print_full(alloc, space, full)?;
    counted_text(alloc, "completion", &lines)
}

fn proof_text(alloc: Global, space: &Space, proof: &Proof) -> Result<Chars, NoMemory>
    requires { IsTrue (is_named space.now proof.now) }
    ensures { IfOk result (λ text. text ≡ spec.found_text space.now (Found.Refuted proof.now)) }
{
    let lines = print_proof(alloc, space, proof)?;
    counted_text(alloc, "proof", &lines)
}

/// A completion of a configuration that meets a condition, or a proof that there is none, as text.
pub(crate) fn found_text(
    alloc: Global,
    space: &Space,
    part: &Partial,
    cond: &Cond,
) -> Result<Chars, NoMemory>
    requires { Lawful space.now }
    ensures { IfOk result (IsFoundText space.now part.now cond.now) }
{
    match search(alloc, space, part, cond)? {
        Found::Completion(full) => completion_text(alloc, space, &full),
        Found::Refuted(proof) => proof_text(alloc, space, &proof),
    }
}

const LIMIT: usize = u32::MAX as usize;

fn has_short_places(space: &Space) -> bool
    ensures { IsTrue result → HasShortPlaces space.now }
{
    space.extensions.len() < LIMIT && space.params.len() < LIMIT
}

fn verdict_on(
    alloc: Global,
    space: &Space,
    part: &Partial,
    cond: &Cond,
    proof: &Proof,
) -> Result<Chars, NoMemory>
    requires { Lawful space.now }
    ensures { IfOk result (IsVerdictOn space.now part.now cond.now proof.now) }
{
    match find_flaw(alloc, space, part, cond, proof)? {
        None => accepted_text(alloc),
        Some(path) => rejected_text(alloc, path.as_slice()),
    }
}

/// What is said of the lines of a proof: the first line with which no proof goes on, that the proof
/// refutes, or its first wrong node. More lines than 32 bits can number are want of memory.
pub(crate) fn verdict_text(
    alloc: Global,
    space: &Space,
    part: &Partial,
    cond: &Cond,
    lines: &Lines,
) -> Result<Chars, NoMemory>
    requires { Lawful space.now }
    ensures { IfOk result (IsVerdict lines.now space.now part.now cond.now) }
{
    if !has_short_places(space) || lines.len() >= LIMIT {
        return Err(AllocError);
    }
    match read_proof(alloc, space, lines) {
        Ok(proof) => verdict_on(alloc, space, part, cond, &proof),
        Err(ProofFault::Line { number }) => bad_line_text(alloc, number),
        Err(ProofFault::Memory) => Err(AllocError),
    }
}
