//! Patterns of instruction words.

ghost use Rattle.std.specs.Prelude.{◌≡◌};
ghost use Rattle.udb_decode.specs.Patterns as spec;
ghost use Rattle.udb_decode.specs.Patterns.{IsOverlap};

/// The fixed bits of an encoding (RISC-V unprivileged manual, "Base Instruction Formats"): a word
/// has the pattern where its bits under the mask are `bits`. A pattern with a bit of `bits` outside
/// the mask is that of no word.
#[derive(Clone, Copy)]
pub struct Pattern {
    pub mask: u32,
    pub bits: u32,
}

impl Pattern {
    /// Whether a word has the pattern. It takes no memory.
    pub fn matches(&self, word: u32) -> bool
        ensures { result ≡ spec.matches self.now word }
    {
        word & self.mask == self.bits
    }
}

/// The least word that has both patterns; None exactly where no word has both. It takes no memory.
#[tactic(auto, using(crate::proofs::PatternLaws::overlaps))]
pub fn overlap(a: &Pattern, b: &Pattern) -> Option<u32>
    ensures { IsOverlap a.now b.now result }
{
    let word = a.bits | b.bits;
    if a.matches(word) && b.matches(word) {
        Some(word)
    } else {
        None
    }
}
