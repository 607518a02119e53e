//! The command `manual`.

ghost use Rattle.std.specs.Prelude.{◌≡◌, ◌++◌, ℕ, List, IfOk, MatchOption, codes};
ghost use Rattle.first_spec.specs.Bundle.{IsFirst, SpellsFirst};
ghost use Rattle.udb_bundle.specs.Faults.{IsFaultLine};
ghost use Rattle.udb_top.specs.Making.{IsManualText};
ghost use Rattle.udb_top.specs.Run.{IsBundle, ManualReplies, ManualStatuses, no_bundle_text, no_config_text};

use crate::making::make_manual;
use crate::spaces::space_of_bundle;
use first_bundle::{FirstBundle, read_first};
use std::alloc::{AllocError, Global};
use udb_base::{Chars, NoMemory};
use udb_bundle::{BundleFault, read_bundle};
use udb_command::Reply;
use udb_manual::print_manual;

const NO_SUCH_CONFIG: u8 = 9;

const NO_BUNDLE: u8 = 10;

const NOT_BUILT: u8 = 12;

// The text of the manual of the bundle's configuration.
fn printed_manual(alloc: Global, bundle: &FirstBundle) -> Result<Chars, NoMemory>
    ensures { IfOk result (λ text. IsFirst bundle.now → IsManualText bundle.now text) }
{
    let space = space_of_bundle(alloc, bundle)?;
    let manual = make_manual(alloc, bundle)?;
    print_manual(alloc, &space, &manual)
}

fn no_config_text(alloc: Global, config: &str) -> Result<Chars, NoMemory>
    ensures { IfOk result (λ text. text ≡ no_config_text config.now) }
{
    let mut text = Chars::of(alloc, "no such config ")?;
    text.push_str(config)?;
    text.push_str("\n")?;
    Ok(text)
}

// The reply to an input that is a bundle and spells the first form's.
fn reply_to_bundle(alloc: Global, config: &str, bundle: &FirstBundle) -> Result<Reply, NoMemory>
    ensures { IfOk result (λ reply. (input : List ℕ) → IsBundle input →
        SpellsFirst input bundle.now → ManualReplies config.now input reply) }
{
    if bundle.config.name.as_str() != config {
        let text = no_config_text(alloc, config)?;
        return Ok(Reply::Refused {
            status: NO_SUCH_CONFIG,
            text,
        });
    }
    let text = printed_manual(alloc, bundle)?;
    Ok(Reply::Done { text })
}

fn not_built(alloc: Global) -> Result<Reply, NoMemory>
    ensures { IfOk result (λ reply. reply ≡ Reply.Refused 12 (codes "not built\n")) }
{
    let text = Chars::of(alloc, "not built\n")?;
    Ok(Reply::Refused {
        status: NOT_BUILT,
        text,
    })
}

// The reply to an input that is a bundle.
fn reply_to_parts(alloc: Global, config: &str, input: &[u8]) -> Result<Reply, NoMemory>
    ensures { IfOk result (λ reply. IsBundle input.now →
        ManualReplies config.now input.now reply) }
{
    match read_first(alloc, input) {
        Ok(Some(bundle)) => reply_to_bundle(alloc, config, &bundle),
        Ok(None) => not_built(alloc),
        Err(_) => Err(AllocError),
    }
}

fn no_bundle(alloc: Global, number: u32) -> Result<Reply, NoMemory>
    ensures { IfOk result (λ reply. reply ≡ Reply.Refused 10 (no_bundle_text number)) }
{
    let text = format!(in alloc; "no bundle at line {number}\n")?;
    Ok(Reply::Refused {
        status: NO_BUNDLE,
        text: Chars::from_string(text),
    })
}

// The first bad line of an input that is no bundle.
fn fault_line(alloc: Global, input: &[u8]) -> Result<Option<u32>, NoMemory>
    ensures { IfOk result (λ line. MatchOption line (IsBundle input.now)
        (IsFaultLine input.now)) }
{
    match read_bundle(alloc, input) {
        Ok(_bundle) => Ok(None),
        Err(BundleFault::Line { number }) => Ok(Some(number)),
        Err(BundleFault::Memory) => Err(AllocError),
    }
}

/// The reply of the command `manual` to an input: the manual of its bundle where the configuration
/// has the asked name. The one refusal is want of memory, also for an input of 4 GiB or more.
pub fn manual_reply(alloc: Global, config: &str, input: &[u8]) -> Result<Reply, NoMemory>
    ensures { IfOk result (ManualReplies config.now input.now) }
{
    match fault_line(alloc, input) {
        Ok(None) => reply_to_parts(alloc, config, input),
        Ok(Some(number)) => no_bundle(alloc, number),
        Err(_) => Err(AllocError),
    }
}

/// Which status the replies of the command have. This is a law on the definitions.
pub fn manual_statuses()
    ensures { ManualStatuses }
{}
