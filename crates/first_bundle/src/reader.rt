//! The exact reader: by places, then examined, then compared with the one text of what was read.

ghost use Rattle.std.specs.Prelude.{◌≡◌, IfOk, IfSome, None, Some};
ghost use Rattle.udb_spec.specs.Conditions.{same_bytes};
ghost use Rattle.udb_base.specs.Lines.{text_of_lines};
ghost use Rattle.first_spec.specs.declared.bundle.FirstBundle.{FirstBundle};
ghost use Rattle.first_spec.specs.Bundle.{bundle_lines, SpellsFirst};
ghost use Rattle.first_bundle.specs.Laws.{OneBundle, SpellsNone};
ghost use Rattle.first_bundle.specs.Checks.{is_spelled, if_spelled, spelled_by};

use crate::checking::bundle_passes;
use crate::lines::split;
use crate::printing::text_of_bundle;
use crate::reading::entries;
use first_spec::FirstBundle;
use std::alloc::Global;
use udb_base::NoMemory;

fn has_text(alloc: Global, bytes: &[u8], bundle: &FirstBundle) -> Result<bool, NoMemory>
    ensures { IfOk result (λ has.
        has ≡ same_bytes (text_of_lines (bundle_lines bundle.now)) bytes.now) }
{
    let text = text_of_bundle(alloc, bundle)?;
    Ok(text.as_bytes() == bytes)
}

fn is_spelled(alloc: Global, bytes: &[u8], bundle: &FirstBundle) -> Result<bool, NoMemory>
    ensures { IfOk result (λ spelled. spelled ≡ is_spelled bytes.now bundle.now) }
{
    if !bundle_passes(alloc, bundle)? {
        return Ok(false);
    }
    has_text(alloc, bytes, bundle)
}

fn if_spelled(
    alloc: Global,
    bytes: &[u8],
    bundle: FirstBundle,
) -> Result<Option<FirstBundle>, NoMemory>
    ensures { IfOk result (λ found. found ≡ if_spelled bytes.now bundle) }
{
    if is_spelled(alloc, bytes, &bundle)? {
        return Ok(Some(bundle));
    }
    Ok(None)
}

fn spelled_by(alloc: Global, bytes: &[u8]) -> Result<Option<FirstBundle>, NoMemory>
    ensures { IfOk result (λ found. found ≡ spelled_by bytes.now) }
{
    let lines = split(alloc, bytes)?;
    match entries(alloc, lines.as_slice())? {
        None => Ok(None),
        Some(bundle) => if_spelled(alloc, bytes, bundle),
    }
}

/// Bytes spell at most one bundle. This is a law on the definitions, so it holds also where memory
/// is short.
pub fn one_bundle()
    ensures { OneBundle }
{}

/// The bundle of the first path that bytes spell, and `None` exactly where they spell none. Any
/// bytes are taken, in time and memory that grow with their number. The one refusal is want of
/// memory.
pub fn read_first(alloc: Global, bytes: &[u8]) -> Result<Option<FirstBundle>, NoMemory>
    ensures found { IfOk result (λ o. IfSome o (SpellsFirst bytes.now)) }
    ensures none { IfOk result (λ o. o ≡ None → SpellsNone bytes.now) }
    ensures one { (x : FirstBundle) → SpellsFirst bytes.now x → IfOk result (λ o. o ≡ Some x) }
{
    spelled_by(alloc, bytes)
}
