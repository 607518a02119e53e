//! Proofs, read from their lines.

ghost use Rattle.std.specs.Prelude.{ℕ, ◌≡◌, ◌≤◌, ◌<◌, ◌-◌, ◌^◌, ◌++◌, ◌∷◌, [], IfOk, OnOk, Some, length, reverse};
ghost use Rattle.udb_base.specs.declared.refutations.Proof.{Proof};
ghost use Rattle.udb_spec.specs.Lawful.{Lawful};
ghost use Rattle.udb_spec.specs.ProofText.{HasShortPlaces, SpellsProof, SpellProof, IsFirstBadLine};
ghost use Rattle.udb_check.specs.Heads.{arity, awaited_after, plant, grow};
ghost use Rattle.udb_check.specs.Reading.{AnswersOnly, IsReading};

use crate::heads::{Head, read_head};
use std::alloc::Global;
use udb_base::{Boxed, Chars, Lines, Many, NoMemory};
use udb_cond::{Proof, Proofs, Space};

/// Why lines are no text of a kind. The line counts from 1: the first with which no text of the
/// kind goes on, or one past the last where lines are missing.
#[derive(Clone, Copy, Debug, PartialEq, Eq)]
pub enum ProofFault {
    Memory,
    Line { number: u32 },
}

// The heads of lines that are a proof, or else the number of the first bad line.
fn read_heads(
    alloc: Global,
    space: &Space,
    lines: &[Chars],
) -> Result<Result<Many<Head>, u32>, NoMemory>
    requires lawful { Lawful space.now }
    requires places { HasShortPlaces space.now }
    requires few { length lines.now < 2 ^ 32 - 1 }
    ensures { IfOk result (IsReading space.now lines.now) }
{
    let mut heads = Many::new(alloc);
    let mut awaited: u64 = 1;
    for (at, line) in lines.iter().enumerate() {
        if awaited == 0 {
            return Ok(Err(at as u32 + 1));
        }
        let Some(head) = read_head(alloc, space, line.as_bytes())? else {
            return Ok(Err(at as u32 + 1));
        };
        awaited = awaited - 1 + u64::from(head.arity());
        heads.push(head)?;
    }
    if awaited > 0 {
        return Ok(Err(lines.len() as u32 + 1));
    }
    Ok(Ok(heads))
}

// The last proofs of a stack, the last one first.
fn take_parts(alloc: Global, stack: &mut Proofs, count: u32) -> Result<Proofs, NoMemory>
    requires { count ≤ length stack.old }
    ensures { IfOk result (λ parts. (reverse stack.old ≡ parts ++ reverse stack.new)
        × (length parts ≡ count)) }
{
    let mut parts = Many::new(alloc);
    while parts.len() < count as usize {
        let Some(part) = stack.pop() else {
            unreachable!();
        };
        parts.push(part)?;
    }
    Ok(parts)
}

fn take_cut(alloc: Global, stack: &mut Proofs, place: u32, at: u64) -> Result<Proof, NoMemory>
    requires { 2 ≤ length stack.old }
    ensures { IfOk result (λ proof. plant (Head.Cut place at) (reverse stack.old)
        ≡ proof ∷ reverse stack.new) }
{
    let Some(below) = stack.pop() else {
        unreachable!();
    };
    let below = Boxed::new(alloc, below)?;
    let Some(from) = stack.pop() else {
        unreachable!();
    };
    let from = Boxed::new(alloc, from)?;
    Ok(Proof::Cut {
        place,
        at,
        below,
        from,
    })
}

// A node takes its children from the end of the stack.
fn plant(alloc: Global, stack: &mut Proofs, head: Head) -> Result<(), NoMemory>
    requires { arity head ≤ length stack.old }
    ensures { OnOk result (reverse stack.new ≡ plant head (reverse stack.old)) }
{
    let proof = match head {
        Head::Leaf { number } => Proof::Leaf { constraint: number },
        Head::Split {
            param,
            place,
            cells,
        } => Proof::Split {
            param,
            place,
            parts: take_parts(alloc, stack, cells)?,
        },
        Head::Cut { place, at } => take_cut(alloc, stack, place, at)?,
    };
    stack.push(proof)
}

// The proof of heads: from the last line to the first, so that no stack of calls grows with them.
fn grow(alloc: Global, heads: &[Head]) -> Result<Proof, NoMemory>
    requires { awaited_after 1 heads.now ≡ Some 0 }
    ensures { IfOk result (λ proof. grow heads.now ≡ proof ∷ []) }
{
    let mut stack = Many::new(alloc);
    for done in 0..heads.len() {
        plant(alloc, &mut stack, heads[heads.len() - 1 - done])?;
    }
    let Some(proof) = stack.pop() else {
        unreachable!();
    };
    Ok(proof)
}

/// The proof that lines spell, right or wrong: names are those of the space, numbers are decimal
/// without leading zeros, those of cells and leaves below 2^32. It reads no deeper than its heap.
pub fn read_proof(alloc: Global, space: &Space, lines: &Lines) -> Result<Proof, ProofFault>
    requires lawful { Lawful space.now }
    requires places { HasShortPlaces space.now }
    requires few { length lines.now < 2 ^ 32 - 1 }
    ensures spelled { IfOk result (SpellsProof space.now lines.now) }
    ensures every { (proof : Proof) → SpellsProof space.now lines.now proof
        → AnswersOnly proof result }
    ensures line { (number : ℕ) → result ≡ Err (ProofFault.Line number)
        → IsFirstBadLine (SpellProof space.now) lines.now number }
{
    match read_heads(alloc, space, lines.as_slice()) {
        Err(_) => Err(ProofFault::Memory),
        Ok(Err(number)) => Err(ProofFault::Line { number }),
        Ok(Ok(heads)) => match grow(alloc, heads.as_slice()) {
            Ok(proof) => Ok(proof),
            Err(_) => Err(ProofFault::Memory),
        },
    }
}
