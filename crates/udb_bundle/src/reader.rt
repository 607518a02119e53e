//! Reads bundles.

ghost use Rattle.std.specs.Prelude.{◌≡◌, ℕ, Ok, Err, IfOk, All};
ghost use Rattle.udb_bundle.specs.declared.bundle.Bundle.{Bundle};
ghost use Rattle.udb_bundle.specs.Bundles.{Spells, HasDistinctKeys, IsRow};
ghost use Rattle.udb_bundle.specs.Faults.{Answers, IsAnswer, IsFaultLine, Refuses, SpellsNone};

use crate::bundle::{Bundle, BundleFault};
use crate::faults::LineFault;
use crate::lines::first_line;
use crate::reading::{Reading, Titles};
use std::alloc::Global;

fn read(alloc: Global, bytes: &[u8]) -> Result<Bundle, BundleFault>
    ensures { IsAnswer bytes.now result }
{
    if bytes.len() >= u32::MAX as usize {
        return Err(BundleFault::Memory);
    }
    let mut reading = Reading::new(alloc);
    let mut titles = Titles::new(alloc);
    let mut rest = bytes;
    let mut number: u32 = 0;
    'lines: while !rest.is_empty() {
        let (line, behind) = first_line(rest);
        number += 1;
        match reading.take_line(alloc, &mut titles, line) {
            Ok(()) => rest = behind,
            Err(LineFault::Memory) => return Err(BundleFault::Memory),
            Err(LineFault::Bad) => return Err(BundleFault::Line { number }),
        }
    }
    if reading.is_between() {
        Ok(reading.into_bundle())
    } else {
        Err(BundleFault::Line { number: number + 1 })
    }
}

/// Reads a bundle. Bytes that are none are refused at the first line with which no bundle goes on, a
/// row's heading too where no text within the limits has so many lines; where every line goes on and
/// lines are missing, at one past the last. Input of 4 GiB or more is want of memory, since lines are
/// numbered in 32 bits. The time grows with the length of the input and the logarithm of the number
/// of rows.
pub fn read_bundle(alloc: Global, bytes: &[u8]) -> Result<Bundle, BundleFault>
    ensures found { IfOk result (λ b. Spells bytes.now b) }
    ensures only { (b : Bundle) → Spells bytes.now b → Answers result b }
    ensures one { (a b : Bundle) → Spells bytes.now a → Spells bytes.now b → a ≡ b }
    ensures bad { (n : ℕ) → result ≡ Err (BundleFault.Line n) → IsFaultLine bytes.now n }
    ensures bad_only { SpellsNone bytes.now → Refuses result }
    ensures keys { IfOk result (λ b. HasDistinctKeys b.rows) }
    ensures rows { IfOk result (λ b. All IsRow b.rows) }
{
    read(alloc, bytes)
}
