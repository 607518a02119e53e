//! The commands over a bundle.

ghost use Rattle.std.specs.Prelude.{◌≡◌, IfOk, IsTrue};
ghost use Rattle.udb_spec.specs.Lawful.{Lawful};
ghost use Rattle.udb_bundle.specs.declared.bundle.Bundle.{Bundle};
ghost use Rattle.udb_bundle.specs.Bundles.{HasDistinctKeys};
ghost use Rattle.db_spec.specs.Entries as spec;
ghost use Rattle.db_spec.specs.Kinds.{is_read_kind};
ghost use Rattle.db_spec.specs.First.{HasReadKinds};
ghost use Rattle.udb_search.specs.Texts as texts;
ghost use Rattle.udb_search.specs.Replies.{IsFoundText, IsVerdict, IsReplyTo, RefuteReply, CheckReply, RefuteReplies, CheckReplies};
ghost use Rattle.udb_search.specs.Steps.{AreNames, IsDone, IsTablesOf};

use crate::answers::{found_text, verdict_text};
use crate::texts::{broken_text, no_bundle_text, no_such_text, not_built_text};
use std::alloc::{AllocError, Global};
use udb_base::{Cond, Copied, Kind, Lines, Many, Name, NoMemory, Partial, Row, Space, both};
use udb_bundle::{Bundle, BundleFault, read_bundle};
use udb_command::Reply;
use udb_db::{AcceptFault, Broken, Draft, Tables, accept, open};
use udb_entry::Entry;

// ---- refusals

// The first rule that tables break.
fn broken(alloc: Global, first: &Broken) -> Result<Reply, NoMemory>
    ensures { IfOk result (λ reply. reply ≡ Reply.Refused 1 (texts.broken_text first.now)) }
{
    let text = broken_text(alloc, first)?;
    Ok(Reply::Refused { status: 1, text })
}

fn no_bundle(alloc: Global, number: u32) -> Result<Reply, NoMemory>
    ensures { IfOk result (λ reply. reply ≡ Reply.Refused 10 (texts.no_bundle_text number)) }
{
    let text = no_bundle_text(alloc, number)?;
    Ok(Reply::Refused { status: 10, text })
}

fn not_built(alloc: Global) -> Result<Reply, NoMemory>
    ensures { IfOk result (λ reply. reply ≡ Reply.Refused 12 texts.not_built_text) }
{
    let text = not_built_text(alloc)?;
    Ok(Reply::Refused { status: 12, text })
}

// ---- what is asked

// The condition under which a full configuration has an entry.
fn asked(alloc: Global, entry: &Entry) -> Result<Cond, NoMemory>
    ensures { IfOk result (λ cond. cond ≡ spec.asked entry.now) }
{
    match entry {
        Entry::Extension(entry) => {
            let name = entry.name.copy(alloc)?;
            let needs = Many::new(alloc);
            Ok(Cond::Ext { name, needs })
        }
        Entry::Param(entry) => entry.defined.copy(alloc),
        Entry::Instruction(entry) => entry.defined.copy(alloc),
        Entry::Csr(entry) => entry.defined.copy(alloc),
        Entry::Functions(_) => Ok(Cond::Always),
        Entry::Config(_) => Ok(Cond::Always),
    }
}

// What the names in the tables give: the refusal of one that they lack, or the constraints of the
// configuration and the condition that is asked.
#[derive(Drop)]
enum Names {
    Lacking { reply: Reply },
    Asked { part: Partial, cond: Cond },
}

fn asked_of(alloc: Global, part: Partial, entry: &Entry) -> Result<Names, NoMemory>
    ensures { IfOk result (λ names. names ≡ Names.Asked part (spec.asked entry.now)) }
{
    let (part, cond) = both(Ok(part), asked(alloc, entry))?;
    Ok(Names::Asked { part, cond })
}

fn lacking(alloc: Global, kind: Kind, name: &Name) -> Result<Names, NoMemory>
    ensures { IfOk result (λ names. names
        ≡ Names.Lacking (Reply.Refused 9 (texts.no_such_text kind name.now))) }
{
    let text = no_such_text(alloc, kind, name)?;
    Ok(Names::Lacking {
        reply: Reply::Refused { status: 9, text },
    })
}

// The configuration is looked for before the entry.
fn names_in(
    alloc: Global,
    draft: &Draft,
    config: &Name,
    kind: Kind,
    name: &Name,
) -> Result<Names, NoMemory>
    ensures { IfOk result (AreNames draft.now config.now kind name.now) }
{
    match draft.config(alloc, config)? {
        None => lacking(alloc, Kind::Config, config),
        Some(part) => match draft.entry(kind, name) {
            Some(entry) => asked_of(alloc, part, entry),
            None => lacking(alloc, kind, name),
        },
    }
}

fn found_reply(alloc: Global, space: &Space, part: &Partial, cond: &Cond) -> Result<Reply, NoMemory>
    requires { Lawful space.now }
    ensures { IfOk result (IsDone IsFoundText space.now part.now cond.now) }
{
    let text = found_text(alloc, space, part, cond)?;
    Ok(Reply::Done { text })
}

fn verdict_reply(
    alloc: Global,
    lines: &Lines,
    space: &Space,
    part: &Partial,
    cond: &Cond,
) -> Result<Reply, NoMemory>
    requires { Lawful space.now }
    ensures { IfOk result (IsDone (IsVerdict lines.now) space.now part.now cond.now) }
{
    let text = verdict_text(alloc, space, part, cond, lines)?;
    Ok(Reply::Done { text })
}

fn refute_by(
    alloc: Global,
    draft: &Draft,
    config: &Name,
    kind: Kind,
    name: &Name,
) -> Result<Reply, NoMemory>
    ensures { IfOk result (IsReplyTo IsFoundText draft.now config.now kind name.now) }
{
    match names_in(alloc, draft, config, kind, name)? {
        Names::Lacking { reply } => Ok(reply),
        Names::Asked { part, cond } => found_reply(alloc, draft.space(), &part, &cond),
    }
}

fn check_by(
    alloc: Global,
    proof: &Lines,
    draft: &Draft,
    config: &Name,
    kind: Kind,
    name: &Name,
) -> Result<Reply, NoMemory>
    ensures { IfOk result (IsReplyTo (IsVerdict proof.now) draft.now config.now kind name.now) }
{
    match names_in(alloc, draft, config, kind, name)? {
        Names::Lacking { reply } => Ok(reply),
        Names::Asked { part, cond } => verdict_reply(alloc, proof, draft.space(), &part, &cond),
    }
}

// ---- tables

fn refute_in(
    alloc: Global,
    tables: Tables,
    config: &Name,
    kind: Kind,
    name: &Name,
) -> Result<Reply, NoMemory>
    requires { HasReadKinds tables }
    ensures { IfOk result (λ reply. (b : Bundle)
        → RefuteReply config.now kind name.now b tables reply) }
{
    match accept(alloc, tables) {
        Ok(database) => {
            let draft = database.into_draft();
            refute_by(alloc, &draft, config, kind, name)
        }
        Err(AcceptFault::Broken { first, .. }) => broken(alloc, &first),
        Err(AcceptFault::Memory { .. }) => Err(AllocError),
    }
}

fn check_in(
    alloc: Global,
    tables: Tables,
    proof: &Lines,
    config: &Name,
    kind: Kind,
    name: &Name,
) -> Result<Reply, NoMemory>
    requires { HasReadKinds tables }
    ensures { IfOk result (λ reply. (b : Bundle) → b.proof ≡ proof.now
        → CheckReply config.now kind name.now b tables reply) }
{
    match open(alloc, tables) {
        Ok(draft) => check_by(alloc, proof, &draft, config, kind, name),
        Err(AcceptFault::Broken { first, .. }) => broken(alloc, &first),
        Err(AcceptFault::Memory { .. }) => Err(AllocError),
    }
}

// ---- bundles

fn is_read(kind: Kind) -> bool
    ensures { result ≡ is_read_kind kind }
{
    match kind {
        Kind::Extension => true,
        Kind::Parameter => true,
        Kind::Config => true,
        Kind::Instruction => false,
        Kind::Csr => false,
        Kind::Functions => false,
    }
}

fn are_read(rows: &[Row]) -> bool
    ensures all { IsTrue result → HasReadKinds rows.now }
    ensures only { HasReadKinds rows.now → IsTrue result }
{
    for row in rows {
        if !is_read(row.kind) {
            return false;
        }
    }
    true
}

// The tables of a bundle, where all that it has is built.
fn tables_of(alloc: Global, bundle: &Bundle) -> Result<Option<Tables>, NoMemory>
    requires { HasDistinctKeys bundle.now.rows }
    ensures { IfOk result (IsTablesOf bundle.now) }
{
    if bundle.shipped || !are_read(bundle.rows.as_slice()) {
        return Ok(None);
    }
    let tables = Tables::new(alloc, bundle.rows.as_slice())?;
    Ok(Some(tables))
}

/// The reply of `refute <config> <kind> <name>` to the bytes of its input: a completion of the
/// configuration that has the entry, or the lines of a proof that there is none. Refusals are met in
/// this order: 10 no bundle, 12 a row of a kind that isn't examined yet or the word `shipped`, 1 a broken
/// rule, 9 a name that the tables lack, the configuration's before the entry's. The one answer beside
/// a reply is want of memory.
pub fn refute(
    alloc: Global,
    bytes: &[u8],
    config: &Name,
    kind: Kind,
    name: &Name,
) -> Result<Reply, NoMemory>
    ensures { IfOk result (RefuteReplies config.now kind name.now bytes.now) }
{
    match read_bundle(alloc, bytes) {
        Err(BundleFault::Memory) => Err(AllocError),
        Err(BundleFault::Line { number }) => no_bundle(alloc, number),
        Ok(bundle) => match tables_of(alloc, &bundle)? {
            None => not_built(alloc),
            Some(tables) => refute_in(alloc, tables, config, kind, name),
        },
    }
}

/// The reply of `check-proof <config> <kind> <name>` to the bytes of its input: what is said of the
/// proof in the bundle, `accepted`, `rejected` with the first wrong node, or with the first line with
/// which no proof goes on. The order of refusals is that of `refute`, but that rules after the
/// twelfth aren't asked.
pub fn check_proof(
    alloc: Global,
    bytes: &[u8],
    config: &Name,
    kind: Kind,
    name: &Name,
) -> Result<Reply, NoMemory>
    ensures { IfOk result (CheckReplies config.now kind name.now bytes.now) }
{
    match read_bundle(alloc, bytes) {
        Err(BundleFault::Memory) => Err(AllocError),
        Err(BundleFault::Line { number }) => no_bundle(alloc, number),
        Ok(bundle) => match tables_of(alloc, &bundle)? {
            None => not_built(alloc),
            Some(tables) => check_in(alloc, tables, &bundle.proof, config, kind, name),
        },
    }
}
