//! The texts of refusals, of what a search finds and of what a checker says.

ghost use Rattle.std.specs.Prelude.{◌≡◌, ◌∷◌, ◌++◌, [], IfOk, OnOk, string_bytes};
ghost use Rattle.udb_base.specs.Lines.{text_of_lines};
ghost use Rattle.udb_search.specs.Texts as spec;

use db_spec::Broken;
use std::alloc::Global;
use udb_base::{Chars, Kind, Lines, Many, Name, NoMemory, kind_word, text_of_lines};

// The text of one line.
fn line_text(alloc: Global, line: Chars) -> Result<Chars, NoMemory>
    ensures { IfOk result (λ text. text ≡ text_of_lines (line ∷ [])) }
{
    let mut text = line;
    text.push_str("\n")?;
    Ok(text)
}

// ---- refusals

fn site_text(alloc: Global, kind: Option<Kind>, name: &Option<Name>) -> Result<Chars, NoMemory>
    ensures { IfOk result (λ text. text ≡ spec.site_text kind name.now) }
{
    match kind {
        None => Chars::of(alloc, "database"),
        Some(kind) => match name {
            None => Chars::of(alloc, "database"),
            Some(name) => {
                let mut text = Chars::of(alloc, kind_word(kind))?;
                text.push_str(" ")?;
                text.push_str(name.as_str())?;
                Ok(text)
            }
        },
    }
}

fn broken_line(alloc: Global, first: &Broken) -> Result<Chars, NoMemory>
    ensures { IfOk result (λ line. line ≡ spec.broken_line first.now) }
{
    let site = site_text(alloc, first.kind, &first.name)?;
    let site = site.as_str();
    let rule = first.rule;
    Ok(Chars::from_string(format!(in alloc; "refused {site} rule {rule}")?))
}

fn push_shown(text: &mut Chars, shows: &[Chars]) -> Result<(), NoMemory>
    ensures { OnOk result (text.new ≡ text.old ++ spec.shown_text shows.now) }
{
    for line in shows {
        text.push_str("  ")?;
        text.push_str(line.as_str())?;
        text.push_str("\n")?;
    }
    Ok(())
}

/// The text of a refusal by a rule: the entry and the rule, then the lines that show the breach, each
/// after two spaces. The one refusal of this and the other texts is want of memory.
pub fn broken_text(alloc: Global, first: &Broken) -> Result<Chars, NoMemory>
    ensures { IfOk result (λ text. text ≡ spec.broken_text first.now) }
{
    let mut text = line_text(alloc, broken_line(alloc, first)?)?;
    push_shown(&mut text, first.shows.as_slice())?;
    Ok(text)
}

/// The text of the refusal of an input that is no bundle, with its line, counted from 1.
pub fn no_bundle_text(alloc: Global, number: u32) -> Result<Chars, NoMemory>
    ensures { IfOk result (λ text. text ≡ spec.no_bundle_text number) }
{
    line_text(
        alloc,
        Chars::from_string(format!(in alloc; "no bundle at line {number}")?),
    )
}

/// The text of the refusal of a bundle with parts that no command takes yet.
pub fn not_built_text(alloc: Global) -> Result<Chars, NoMemory>
    ensures { IfOk result (λ text. text ≡ spec.not_built_text) }
{
    line_text(alloc, Chars::of(alloc, "not built")?)
}

/// The text of the refusal of a name that the tables lack.
pub fn no_such_text(alloc: Global, kind: Kind, name: &Name) -> Result<Chars, NoMemory>
    ensures { IfOk result (λ text. text ≡ spec.no_such_text kind name.now) }
{
    let kind = kind_word(kind);
    let name = name.as_str();
    line_text(
        alloc,
        Chars::from_string(format!(in alloc; "no such {kind} {name}")?),
    )
}

// ---- what a search finds and a checker says

/// A word and the number of lines, then the lines.
pub(crate) fn counted_text(alloc: Global, word: &str, lines: &Lines) -> Result<Chars, NoMemory>
    ensures { IfOk result (λ text. text ≡ spec.counted_text word.now lines.now) }
{
    let count = lines.len();
    let first = Chars::from_string(format!(in alloc; "{word} {count}")?);
    let mut text = line_text(alloc, first)?;
    let rest = text_of_lines(alloc, lines.as_slice())?;
    text.push_str(rest.as_str())?;
    Ok(text)
}

/// That a proof refutes.
pub(crate) fn accepted_text(alloc: Global) -> Result<Chars, NoMemory>
    ensures { IfOk result (λ text. text ≡ spec.accepted_text) }
{
    line_text(alloc, Chars::of(alloc, "accepted")?)
}

/// That lines are no proof.
pub(crate) fn bad_line_text(alloc: Global, number: u32) -> Result<Chars, NoMemory>
    ensures { IfOk result (λ text. text ≡ spec.bad_line_text number) }
{
    line_text(
        alloc,
        Chars::from_string(format!(in alloc; "rejected line {number}")?),
    )
}

fn push_dotted(text: &mut String, numbers: &[u32]) -> Result<(), NoMemory>
    ensures { OnOk result (string_bytes text.new
        ≡ string_bytes text.old ++ spec.dotted numbers.now) }
{
    for number in numbers {
        write!(text, ".{number}")?;
    }
    Ok(())
}

fn path_text(alloc: Global, path: &[u32]) -> Result<String, NoMemory>
    ensures { IfOk result (λ text. string_bytes text ≡ spec.path_text path.now) }
{
    match path.split_first() {
        None => "root".to_string(alloc),
        Some((first, rest)) => {
            let mut text = first.to_string(alloc)?;
            push_dotted(&mut text, rest)?;
            Ok(text)
        }
    }
}

/// That a proof is wrong at a node, whose path of child numbers is given, from 1.
pub(crate) fn rejected_text(alloc: Global, path: &[u32]) -> Result<Chars, NoMemory>
    ensures { IfOk result (λ text. text ≡ spec.rejected_text path.now) }
{
    let path = path_text(alloc, path)?;
    line_text(
        alloc,
        Chars::from_string(format!(in alloc; "rejected {path}")?),
    )
}
