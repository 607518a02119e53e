//! The names in read entries.

ghost use Rattle.std.specs.Prelude.{◌≡◌, ◌↔◌, ◌∷◌, [], IfOk, IsTrue, map};
ghost use Rattle.std.specs.Option.{option_copied};
ghost use Rattle.udb_base.specs.declared.conditions.Test.{Test};
ghost use Rattle.udb_lawful.specs.Misfit.{first_misfit, unless};
ghost use Rattle.udb_entry.specs.Config.{present};
ghost use Rattle.db_spec.specs.Entries as spec;
ghost use Rattle.udb_db.specs.Phases.{AreNamed, IsLacking, IsNamed, first_unfit, or_name, unknown_lines};

use entry_tree::{ConfigEntry, Given, Member};
use std::alloc::Global;
use udb_base::{
    Chars, Cond, Copied, Lines, Many, Name, NoMemory, ParamSpace, Space, Test, both, copy_two,
};
use udb_entry::Entry;
use udb_lawful::{fits, lists_widths, misfit};

/// An entry that breaks the rule on names, by its place from 0, with the name that is shown.
#[derive(Drop)]
pub struct Unknown {
    pub place: usize,
    pub shows: Lines,
}

// ---- configurations

fn equals_given(alloc: Global, given: &Given) -> Result<Cond, NoMemory>
    ensures { IfOk result (λ cond. cond ≡ spec.given given.now) }
{
    let (name, value) = copy_two(alloc, &given.name, &given.value)?;
    let test = Test::Equal;
    Ok(Cond::Param { name, test, value })
}

fn present(alloc: Global, member: &Member) -> Result<Cond, NoMemory>
    ensures { IfOk result (λ cond. cond ≡ present member.now) }
{
    let needs = Many::from_slice(alloc, member.needs.as_slice());
    let (name, needs) = both(member.name.copy(alloc), needs)?;
    Ok(Cond::Ext { name, needs })
}

fn given_fits(alloc: Global, space: &Space, given: &Given) -> Result<bool, NoMemory>
    ensures { IfOk result (λ b. first_misfit space.now (spec.given given.now)
        ≡ unless b given.now.name) }
{
    let cond = equals_given(alloc, given)?;
    Ok(fits(space, &cond))
}

fn member_fits(alloc: Global, space: &Space, member: &Member) -> Result<bool, NoMemory>
    ensures { IfOk result (λ b. first_misfit space.now (present member.now)
        ≡ unless b member.now.name) }
{
    let cond = present(alloc, member)?;
    Ok(fits(space, &cond))
}

fn given_misfit<'a>(
    alloc: Global,
    space: &Space,
    givens: &'a [Given],
) -> Result<Option<&'a Name>, NoMemory>
    ensures { IfOk result (λ name. option_copied name
        ≡ first_unfit space.now (map spec.given givens.now)) }
{
    for given in givens {
        if !given_fits(alloc, space, given)? {
            return Ok(Some(&given.name));
        }
    }
    Ok(None)
}

fn member_misfit<'a>(
    alloc: Global,
    space: &Space,
    members: &'a [Member],
) -> Result<Option<&'a Name>, NoMemory>
    ensures { IfOk result (λ name. option_copied name
        ≡ first_unfit space.now (map present members.now)) }
{
    for member in members {
        if !member_fits(alloc, space, member)? {
            return Ok(Some(&member.name));
        }
    }
    Ok(None)
}

// A name that was found, or else the first of members.
fn or_member_misfit<'a>(
    alloc: Global,
    space: &Space,
    found: Option<&'a Name>,
    members: &'a [Member],
) -> Result<Option<&'a Name>, NoMemory>
    ensures { IfOk result (λ name. option_copied name
        ≡ or_name (option_copied found.entry) (first_unfit space.now (map present members.now))) }
{
    match found {
        Some(name) => Ok(Some(name)),
        None => member_misfit(alloc, space, members),
    }
}

fn config_misfit<'a>(
    alloc: Global,
    space: &Space,
    entry: &'a ConfigEntry,
) -> Result<Option<&'a Name>, NoMemory>
    ensures { IfOk result (λ name. option_copied name
        ≡ first_unfit space.now (spec.conditions_of (Entry.Config entry.now))) }
{
    let first = given_misfit(alloc, space, entry.params.as_slice())?;
    let second = or_member_misfit(alloc, space, first, entry.mandatory.as_slice())?;
    let third = or_member_misfit(alloc, space, second, entry.prohibited.as_slice())?;
    let last = or_member_misfit(alloc, space, third, entry.implemented.as_slice())?;
    Ok(last)
}

// ---- all entries

fn entry_misfit<'a>(
    alloc: Global,
    space: &Space,
    entry: &'a Entry,
) -> Result<Option<&'a Name>, NoMemory>
    ensures { IfOk result (λ name. option_copied name
        ≡ first_unfit space.now (spec.conditions_of entry.now)) }
{
    match entry {
        Entry::Extension(entry) => Ok(misfit(space, &entry.needs)),
        Entry::Param(entry) => match misfit(space, &entry.defined) {
            Some(name) => Ok(Some(name)),
            None => Ok(misfit(space, &entry.needs)),
        },
        Entry::Instruction(_) => Ok(None),
        Entry::Csr(_) => Ok(None),
        Entry::Functions(_) => Ok(None),
        Entry::Config(entry) => config_misfit(alloc, space, entry),
    }
}

fn is_width_name(name: &Name) -> bool
    ensures { IsTrue result ↔ (name.now ≡ spec.width_name) }
{
    name.as_str() == "MXLEN"
}

fn is_width_param(param: &ParamSpace) -> bool
    ensures { IsTrue result ↔ spec.IsWidths param.now }
{
    if is_width_name(&param.name) {
        lists_widths(&param.domain)
    } else {
        false
    }
}

// Whether there is a parameter MXLEN that lists only 32 and 64.
fn has_widths(space: &Space) -> bool
    ensures { IsTrue result ↔ spec.HasWidths space.now }
{
    for param in space.params.as_slice() {
        if is_width_param(param) {
            return true;
        }
    }
    false
}

fn depends_on_width(entry: &Entry) -> bool
    ensures { IsTrue result ↔ spec.DependsOnWidth entry.now }
{
    match entry {
        Entry::Extension(_) => false,
        Entry::Param(entry) => is_width_name(&entry.name),
        Entry::Instruction(_) => false,
        Entry::Csr(_) => false,
        Entry::Functions(_) => false,
        Entry::Config(_) => false,
    }
}

fn one_line(alloc: Global, name: &str) -> Result<Lines, NoMemory>
    ensures { IfOk result (λ lines. lines ≡ name.now ∷ []) }
{
    let line = Chars::of(alloc, name)?;
    let mut lines = Many::new(alloc);
    lines.push(line)?;
    Ok(lines)
}

fn lacks_width(widths: bool, entry: &Entry) -> bool
    ensures { IsLacking widths entry.now result }
{
    if widths {
        return false;
    }
    if depends_on_width(entry) { true } else { false }
}

fn lacking_name(alloc: Global, lacks: bool) -> Result<Option<Lines>, NoMemory>
    ensures { IfOk result (λ shows. shows ≡ unknown_lines None lacks) }
{
    if lacks {
        let lines = one_line(alloc, "MXLEN")?;
        Ok(Some(lines))
    } else {
        Ok(None)
    }
}

fn shown_name(alloc: Global, misfit: Option<&Name>, lacks: bool) -> Result<Option<Lines>, NoMemory>
    ensures { IfOk result (λ shows. shows ≡ unknown_lines (option_copied misfit.entry) lacks) }
{
    match misfit {
        Some(name) => {
            let lines = one_line(alloc, name.as_str())?;
            Ok(Some(lines))
        }
        None => lacking_name(alloc, lacks),
    }
}

fn unknown_name(
    alloc: Global,
    space: &Space,
    widths: bool,
    entry: &Entry,
) -> Result<Option<Lines>, NoMemory>
    requires { IsTrue widths ↔ spec.HasWidths space.now }
    ensures { IfOk result (IsNamed space.now entry.now) }
{
    let misfit = entry_misfit(alloc, space, entry)?;
    let lacks = lacks_width(widths, entry);
    let shows = shown_name(alloc, misfit, lacks)?;
    Ok(shows)
}

/// The first entry that names what isn't there, compares or gives a value of another kind, or
/// depends on MXLEN where no parameter gives it.
pub fn first_unknown(
    alloc: Global,
    space: &Space,
    entries: &[Entry],
) -> Result<Option<Unknown>, NoMemory>
    ensures { IfOk result (AreNamed space.now entries.now) }
{
    let widths = has_widths(space);
    for (place, entry) in entries.iter().enumerate() {
        let named = unknown_name(alloc, space, widths, entry)?;
        match named {
            Some(shows) => return Ok(Some(Unknown { place, shows })),
            None => {}
        }
    }
    Ok(None)
}
