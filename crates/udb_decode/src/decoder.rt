//! The decoder of a configuration.

ghost use Rattle.std.specs.Prelude.{◌≡◌, ◌<◌, ◌-◌, ◌^◌, ℕ, IfOk, length};
ghost use Rattle.udb_base.specs.declared.conditions.Cond.{Cond};
ghost use Rattle.udb_spec.specs.Constraints.{constraints};
ghost use Rattle.udb_spec.specs.Lawful.{Lawful};
ghost use Rattle.udb_spec.specs.ProofText.{HasShortPlaces};
ghost use Rattle.udb_refute.specs.Search.{HasShortLists};
ghost use Rattle.udb_decode.specs.Picks.{ArePicks};
ghost use Rattle.udb_decode.specs.Kept.{kept_of, AreKept, names_of, names_left};

use crate::patterns::Pattern;
use crate::picks::Picks;
use crate::searching::can_hold;
use std::alloc::Global;
use udb_base::{Cond, Copied, Name, NoMemory, Partial, Space};

/// An encoding of an instruction: the instruction's name, the fixed bits, and where the instruction
/// is present with this encoding. Several codings may have one name.
#[derive(Drop)]
pub struct Coding {
    pub name: Name,
    pub pattern: Pattern,
    pub present: Cond,
}

/// What the decoder keeps of a coding that some completion has.
#[derive(Drop)]
pub struct Kept {
    pub name: Name,
    pub pattern: Pattern,
}

/// The codings that some completion of a configuration has, in the order of their names.
#[derive(Drop)]
pub struct Decoder {
    kept: Vec<Kept>,
}

fn keep(alloc: Global, coding: &Coding) -> Result<Kept, NoMemory>
    ensures { IfOk result (λ kept. kept ≡ kept_of coding.now) }
{
    Ok(Kept {
        name: coding.name.copy(alloc)?,
        pattern: coding.pattern,
    })
}

// The codings that some completion has, in the order of the list.
#[tactic(auto, using(crate::proofs::KeptLaws::keeping))]
fn keep_present(
    alloc: Global,
    space: &Space,
    part: &Partial,
    codings: &[Coding],
) -> Result<Vec<Kept>, NoMemory>
    requires lawful { Lawful space.now }
    requires lists { HasShortLists space.now }
    requires places { HasShortPlaces space.now }
    requires few { (c : Cond) → length (constraints space.now part.now c) < 2 ^ 32 - 1 }
    ensures { IfOk result (λ all. AreKept space.now part.now codings.now all.items) }
{
    let mut all = Vec::new(alloc);
    for coding in codings {
        if can_hold(alloc, space, part, &coding.present)? {
            all.push(keep(alloc, coding)?)?;
        }
    }
    Ok(all)
}

impl Decoder {
    /// The decoder of a configuration over a list of codings, in whatever order these stand. It
    /// asks once for each coding whether some completion has it. The one refusal is want of memory.
    pub fn build(
        alloc: Global,
        space: &Space,
        part: &Partial,
        codings: &[Coding],
    ) -> Result<Decoder, NoMemory>
        requires lawful { Lawful space.now }
        requires lists { HasShortLists space.now }
        requires places { HasShortPlaces space.now }
        requires few { (c : Cond) → length (constraints space.now part.now c) < 2 ^ 32 - 1 }
        ensures { IfOk result (λ decoder. (word : ℕ)
            → ArePicks space.now part.now codings.now word (names_of decoder word)) }
    {
        let mut kept = keep_present(alloc, space, part, codings)?;
        kept.sort_by(|a, b| a.name.cmp(&b.name))?;
        Ok(Decoder { kept })
    }

    /// The names of the codings that match a word and are present in some completion, in the order
    /// of their bytes, each once. Neither this call nor the iterator takes memory.
    pub fn decode(&self, word: u32) -> Picks<'_>
        ensures names { names_left result ≡ names_of self.now word }
        ensures few { length (names_left result) < 2 ^ 64 }
    {
        Picks::over(word, self.kept.as_slice())
    }
}
