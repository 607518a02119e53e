//! Listed versions.

ghost use Rattle.std.specs.Prelude.{◌≡◌, IfOk, map, None, codes, option_map};
ghost use Rattle.std.specs.Result.{result_ok};
ghost use Rattle.std.specs.Fmt.{signed_decimal};
ghost use Rattle.udb_entry.specs.Keys as keys;
ghost use Rattle.udb_entry.specs.Entries as spec;
ghost use Rattle.udb_entry.specs.Rules as rules;
ghost use Rattle.udb_entry.specs.Parts.{ReadsBy};

use crate::answers::EntryFault;
use crate::chains::breach_of;
use crate::keys::{flag_at, items_at, text_in, value_at};
use crate::rules::one_line;
use std::alloc::Global;
use udb_base::{Chars, ListedVersions, Many, NoMemory};
use udb_cond::{Listed, Version, is_below, parse_version};
use yaml_spec::Tree;

fn digits(alloc: Global, number: i128) -> Result<Chars, NoMemory>
    ensures { IfOk result (λ text. text ≡ signed_decimal number) }
{
    Ok(Chars::from_string(format!(in alloc; "{number}")?))
}

fn scalar_text(alloc: Global, tree: &Tree) -> Result<Chars, NoMemory>
    ensures { IfOk result (λ text. text ≡ spec.scalar_text tree.now) }
{
    match tree.as_int() {
        Some(number) => digits(alloc, number),
        None => Chars::of(alloc, text_in(tree)),
    }
}

fn version_text(alloc: Global, tree: &Tree) -> Result<Chars, NoMemory>
    ensures { IfOk result (λ text. text ≡ spec.version_text tree.now) }
{
    match value_at(tree, "version") {
        Some(value) => scalar_text(alloc, value),
        None => Ok(Chars::new(alloc)),
    }
}

fn follows(before: Option<Version>, version: Option<Version>) -> bool
    ensures { result ≡ rules.follows before version }
{
    match version {
        None => false,
        Some(version) => match before {
            None => true,
            Some(before) => is_below(&before, &version),
        },
    }
}

fn listed(version: Option<Version>, breaking: bool) -> Listed
    ensures { result ≡ spec.listed version breaking }
{
    match version {
        Some(version) => Listed { version, breaking },
        None => Listed {
            version: Version {
                major: 0,
                minor: 0,
                patch: 0,
            },
            breaking,
        },
    }
}

fn listed_versions(alloc: Global, versions: &[Tree]) -> Result<ListedVersions, EntryFault>
    ensures { ReadsBy 5 (option_map rules.one_line (rules.first_wrong None versions.now))
        (map spec.listed_of versions.now) result }
{
    let mut list = Many::new(alloc);
    let mut before = None;
    for tree in versions {
        let text = version_text(alloc, tree)?;
        let version = parse_version(text.as_str()).ok();
        if !follows(before, version) {
            return Err(breach_of(5, one_line(alloc, text.as_str())));
        }
        list.push(listed(version, flag_at(tree, "breaking", false)))?;
        before = version;
    }
    Ok(list)
}

/// The versions of an extension. Rule 5 is that each can be read and is above the one before it; the
/// first that isn't is shown.
pub fn versions(alloc: Global, tree: &Tree) -> Result<ListedVersions, EntryFault>
    ensures { ReadsBy 5 (rules.version_rule tree.now)
        (map spec.listed_of (keys.items_at tree.now (codes "versions"))) result }
{
    listed_versions(alloc, items_at(tree, "versions"))
}
