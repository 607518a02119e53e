//! Proofs walked on the stack of the calls: whether each node is right, and the first wrong one.

ghost use Rattle.std.specs.Prelude.{◌≡◌, ◌+◌, ◌^◌, ◌<◌, ◌∷◌, [], true, false, IsTrue, IfOk, map, length, reverse};
ghost use Rattle.std.specs.Option.{option_map, is_none};
ghost use Rattle.udb_base.specs.declared.spaces.Space.{Space};
ghost use Rattle.udb_base.specs.declared.spaces.Full.{Full};
ghost use Rattle.udb_base.specs.declared.conditions.Cond.{Cond};
ghost use Rattle.udb_base.specs.declared.refutations.Partial.{Partial};
ghost use Rattle.udb_base.specs.declared.refutations.Proof.{Proof};
ghost use Rattle.udb_spec.specs.Conditions.{holds};
ghost use Rattle.udb_spec.specs.Spaces.{Completes};
ghost use Rattle.udb_spec.specs.Lawful.{Lawful};
ghost use Rattle.udb_spec.specs.Refutes.{refutes, refutes_under, each_refutes, first_wrong, first_wrong_under, first_in_parts, or_later};
ghost use Rattle.udb_cond.specs.Steps.{steps_of};

use crate::nodes::{is_cut, is_leaf, is_split};
use std::alloc::Global;
use udb_base::{Many, NoMemory};
use udb_cond::{Cells, Cond, Partial, Proof, Space};

/// A node of a proof as its child numbers from 1, from the root on.
pub type Path = Many<u32>;

#[cycle(checking)]
#[tactic(auto, using(crate::proofs::CheckLaws::check_laws))]
fn refutes_under(proof: &Proof, space: &Space, part: &Partial, cond: &Cond, cells: &Cells) -> bool
    requires { Lawful space.now }
    ensures { result ≡ refutes_under space.now part.now cond.now proof.now (steps_of cells.now) }
{
    match proof {
        Proof::Leaf { constraint } => is_leaf(space, part, cond, *constraint, cells),
        Proof::Split {
            param,
            place,
            parts,
        } => {
            let parts = parts.as_slice();
            is_split(space, *param, *place, parts.len(), cells)
                && each_refutes(parts, space, part, cond, *param, *place, cells)
        }
        Proof::Cut {
            place,
            at,
            below,
            from,
        } => {
            let place = *place;
            let at = *at;
            let low = Cells::Below {
                place,
                at,
                rest: &*cells,
            };
            let high = Cells::From {
                place,
                at,
                rest: &*cells,
            };
            is_cut(space, place, at, cells)
                && refutes_under(below.get(), space, part, cond, &low)
                && refutes_under(from.get(), space, part, cond, &high)
        }
    }
}

// The parts of a split, each under its own choice.
#[cycle(checking)]
fn each_refutes(
    parts: &[Proof],
    space: &Space,
    part: &Partial,
    cond: &Cond,
    param: bool,
    place: u32,
    cells: &Cells,
) -> bool
    requires lawful { Lawful space.now }
    requires few { length parts.now < 2 ^ 32 }
    ensures { result ≡ each_refutes (map
        (refutes_under space.now part.now cond.now) parts.now) param place 0 (steps_of cells.now) }
{
    for (at, proof) in parts.iter().enumerate() {
        let under = Cells::Child {
            param,
            place,
            child: at as u32,
            rest: &*cells,
        };
        if !refutes_under(proof, space, part, cond, &under) {
            return false;
        }
    }
    true
}

// A node within a child of a number. Nodes are kept from the last number to the first.
fn under_child(number: u32, node: Option<Path>) -> Result<Option<Path>, NoMemory>
    ensures { IfOk result (λ found. option_map reverse found
        ≡ or_later number (option_map reverse node) None) }
{
    match node {
        None => Ok(None),
        Some(mut node) => {
            node.push(number)?;
            Ok(Some(node))
        }
    }
}

#[cycle(flaws)]
#[tactic(auto, using(crate::proofs::CheckLaws::flaw_laws))]
fn flaw_under(
    alloc: Global,
    proof: &Proof,
    space: &Space,
    part: &Partial,
    cond: &Cond,
    cells: &Cells,
) -> Result<Option<Path>, NoMemory>
    requires { Lawful space.now }
    ensures { IfOk result (λ found. option_map reverse found
        ≡ first_wrong_under space.now part.now cond.now proof.now (steps_of cells.now)) }
{
    match proof {
        Proof::Leaf { constraint } => {
            if is_leaf(space, part, cond, *constraint, cells) {
                Ok(None)
            } else {
                Ok(Some(Many::new(alloc)))
            }
        }
        Proof::Split {
            param,
            place,
            parts,
        } => {
            let parts = parts.as_slice();
            if is_split(space, *param, *place, parts.len(), cells) {
                Ok(flaw_in_parts(alloc, parts, space, part, cond, *param, *place, cells)?)
            } else {
                Ok(Some(Many::new(alloc)))
            }
        }
        Proof::Cut {
            place,
            at,
            below,
            from,
        } => {
            let place = *place;
            let at = *at;
            if is_cut(space, place, at, cells) {
                let low = Cells::Below {
                    place,
                    at,
                    rest: &*cells,
                };
                let found = flaw_under(alloc, below.get(), space, part, cond, &low)?;
                if found.is_some() {
                    return Ok(under_child(1, found)?);
                }
                let high = Cells::From {
                    place,
                    at,
                    rest: &*cells,
                };
                let found = flaw_under(alloc, from.get(), space, part, cond, &high)?;
                Ok(under_child(2, found)?)
            } else {
                Ok(Some(Many::new(alloc)))
            }
        }
    }
}

// The parts of a split, each under its own choice.
#[cycle(flaws)]
fn flaw_in_parts(
    alloc: Global,
    parts: &[Proof],
    space: &Space,
    part: &Partial,
    cond: &Cond,
    param: bool,
    place: u32,
    cells: &Cells,
) -> Result<Option<Path>, NoMemory>
    requires lawful { Lawful space.now }
    requires few { length parts.now < 2 ^ 32 }
    ensures { IfOk result (λ found. option_map reverse found ≡ first_in_parts (map
        (first_wrong_under space.now part.now cond.now) parts.now) param place 0
        (steps_of cells.now)) }
{
    for (at, proof) in parts.iter().enumerate() {
        let under = Cells::Child {
            param,
            place,
            child: at as u32,
            rest: &*cells,
        };
        let found = flaw_under(alloc, proof, space, part, cond, &under)?;
        if found.is_some() {
            return Ok(under_child(at as u32 + 1, found)?);
        }
    }
    Ok(None)
}

fn reversed(alloc: Global, mut node: Path) -> Result<Path, NoMemory>
    ensures { IfOk result (λ path. path ≡ reverse node) }
{
    let mut path = Many::new(alloc);
    while let Some(number) = node.pop() {
        path.push(number)?;
    }
    Ok(path)
}

/// The first wrong node of a proof, in the order of its lines: a node before its children. There is
/// none exactly where the proof refutes.
pub fn find_flaw(
    alloc: Global,
    space: &Space,
    part: &Partial,
    cond: &Cond,
    proof: &Proof,
) -> Result<Option<Path>, NoMemory>
    requires { Lawful space.now }
    ensures first { IfOk result (λ node. node ≡ first_wrong space.now part.now cond.now proof.now) }
    ensures none { IfOk result (λ node. is_none node
        ≡ refutes space.now part.now cond.now proof.now) }
{
    match flaw_under(alloc, proof, space, part, cond, &Cells::All)? {
        None => Ok(None),
        Some(node) => Ok(Some(reversed(alloc, node)?)),
    }
}

/// Whether a proof refutes that a completion of the configuration meets the condition: it does
/// exactly where each of its nodes is right, and then there is no such completion. It takes no
/// memory, and a stack as deep as the proof.
pub fn check(space: &Space, part: &Partial, cond: &Cond, proof: &Proof) -> bool
    requires { Lawful space.now }
    ensures right { result ≡ refutes space.now part.now cond.now proof.now }
    ensures none { IsTrue result → (full : Full) → Completes space.now part.now full
        → holds space.now full cond.now ≡ false }
{
    refutes_under(proof, space, part, cond, &Cells::All)
}

/// What refutes leaves no completion that meets the condition, whoever checked it.
pub fn none_meets()
    ensures { (space : Space) (part : Partial) (cond : Cond) (proof : Proof) (full : Full)
        → Lawful space
        → refutes space part cond proof ≡ true → Completes space part full → holds space full cond ≡ false }
{}
