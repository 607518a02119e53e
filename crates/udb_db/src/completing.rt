//! Whether a configuration has a completion.

ghost use Rattle.std.specs.Prelude.{◌≡◌, true, IfOk};
ghost use Rattle.udb_spec.specs.Lawful.{Lawful};
ghost use Rattle.udb_base.specs.declared.conditions.Cond.{Cond};
ghost use Rattle.udb_spec.specs.ProofText.{proof_lines};
ghost use Rattle.udb_spec.specs.Refutes.{refutes};
ghost use Rattle.udb_refute.specs.Answers.{IsAnswer};
ghost use Rattle.udb_db.specs.Phases.{IsSearched};

use crate::searching::search;
use std::alloc::Global;
use udb_base::{Cond, Lines, NoMemory, Partial, Proof, Space};
use udb_check::print_proof;
use udb_refute::Found;

// The lines of a proof that refutes.
fn refuted_lines(
    alloc: Global,
    space: &Space,
    _part: &Partial,
    proof: &Proof,
) -> Result<Lines, NoMemory>
    requires { refutes space.now _part.now Cond.Always proof.now ≡ true }
    ensures { IfOk result (λ lines. lines ≡ proof_lines space.now proof.now) }
{
    print_proof(alloc, space, proof)
}

fn answer_of(
    alloc: Global,
    space: &Space,
    part: &Partial,
    found: &Found,
) -> Result<Option<Lines>, NoMemory>
    requires { IsAnswer space.now part.now Cond.Always found.now }
    ensures { IfOk result (IsSearched space.now part.now) }
{
    match found {
        Found::Completion(_full) => Ok(None),
        Found::Refuted(proof) => {
            let lines = refuted_lines(alloc, space, part, proof)?;
            Ok(Some(lines))
        }
    }
}

/// Nothing where the configuration has a completion, else the lines of a proof that it has none.
/// More constraints than 32 bits can number are want of memory.
pub fn missing_completion(
    alloc: Global,
    space: &Space,
    part: &Partial,
) -> Result<Option<Lines>, NoMemory>
    requires { Lawful space.now }
    ensures { IfOk result (IsSearched space.now part.now) }
{
    let found = search(alloc, space, part, &Cond::Always)?;
    answer_of(alloc, space, part, &found)
}
