//! The text of a manual.

ghost use Rattle.std.specs.Prelude.{◌≡◌, ◌++◌, ◌∷◌, [], IfOk, OnOk, map, length, codes};
ghost use Rattle.std.specs.Fmt.{decimal};
ghost use Rattle.udb_spec.specs.ProofText.{full_lines};
ghost use Rattle.manual_spec.specs.Text.{completion_lines, text_counts, text_lines, table_lines, source_lines, encoding_lines, shown_lines, shown_kind, part_heading, part_lines, parts_lines, manual_lines, manual_text};

use idl_print::body_lines;
use idl_tree::Body;
use manual_spec::{Manual, Part, PartText, Shown};
use std::alloc::Global;
use udb_base::{Chars, Full, Lines, Many, NoMemory, Space, text_of_lines};
use udb_full::print_full;

// A label and a text.
fn line_with_text(alloc: Global, label: &str, text: &str) -> Result<Chars, NoMemory>
    ensures { IfOk result (λ line. line ≡ label.now ++ text.now) }
{
    let mut line = Chars::of(alloc, label)?;
    line.push_str(text)?;
    Ok(line)
}

// A label and a number.
fn line_with_count(alloc: Global, label: &str, count: usize) -> Result<Chars, NoMemory>
    ensures { IfOk result (λ line. line ≡ label.now ++ decimal count) }
{
    Ok(Chars::from_string(format!(in alloc; "{label}{count}")?))
}

// Each line behind a label.
fn push_all(alloc: Global, out: &mut Lines, label: &str, lines: &[Chars]) -> Result<(), NoMemory>
    ensures { OnOk result (out.new ≡ out.old ++ map (λ l. label.now ++ l) lines.now) }
{
    for line in lines {
        out.push(line_with_text(alloc, label, line.as_str())?)?;
    }
    Ok(())
}

// The lines as they are.
fn push_lines(alloc: Global, out: &mut Lines, lines: &[Chars]) -> Result<(), NoMemory>
    ensures { OnOk result (out.new ≡ out.old ++ lines.now) }
{
    for line in lines {
        out.push(Chars::of(alloc, line.as_str())?)?;
    }
    Ok(())
}

#[tactic(auto, using(std::proofs::Common::append_assoc))]
fn push_completion(
    alloc: Global,
    out: &mut Lines,
    space: &Space,
    full: &Full,
) -> Result<(), NoMemory>
    ensures { OnOk result (out.new ≡ out.old ++ completion_lines space.now full.now) }
{
    let lines = print_full(alloc, space, full)?;
    out.push(line_with_count(alloc, "// completion ", lines.len())?)?;
    push_all(alloc, out, "// ", lines.as_slice())?;
    Ok(())
}

fn text_counts(alloc: Global, text: &PartText) -> Result<Chars, NoMemory>
    ensures { IfOk result (λ line. line ≡ text_counts text.now) }
{
    let long_name = text.long_name.len();
    let description = text.description.len();
    let assembly = text.assembly.len();
    Ok(Chars::from_string(format!(in alloc; "// text {long_name} {description} {assembly}")?))
}

fn push_text(alloc: Global, out: &mut Lines, text: &PartText) -> Result<(), NoMemory>
    ensures { OnOk result (out.new ≡ out.old ++ text_lines text.now) }
{
    out.push(text_counts(alloc, text)?)?;
    push_lines(alloc, out, text.long_name.as_slice())?;
    push_lines(alloc, out, text.description.as_slice())?;
    push_lines(alloc, out, text.assembly.as_slice())
}

fn push_table(alloc: Global, out: &mut Lines, rows: &[Chars]) -> Result<(), NoMemory>
    ensures { OnOk result (out.new ≡ out.old ++ table_lines rows.now) }
{
    out.push(Chars::of(alloc, "|===")?)?;
    push_all(alloc, out, "| ", rows)?;
    out.push(Chars::of(alloc, "|===")?)
}

#[tactic(auto, using(std::proofs::Common::append_assoc))]
fn push_source(alloc: Global, out: &mut Lines, lines: &[Chars]) -> Result<(), NoMemory>
    ensures { OnOk result (out.new ≡ out.old ++ source_lines lines.now) }
{
    out.push(line_with_count(alloc, "// body ", lines.len())?)?;
    out.push(Chars::of(alloc, "[source,idl]")?)?;
    out.push(Chars::of(alloc, "----")?)?;
    push_lines(alloc, out, lines)?;
    out.push(Chars::of(alloc, "----")?)?;
    Ok(())
}

#[tactic(auto, using(std::proofs::Common::append_assoc))]
fn push_encoding(
    alloc: Global,
    out: &mut Lines,
    matches: &[Chars],
    variables: &[Chars],
    body: &Body,
) -> Result<(), NoMemory>
    ensures { OnOk result (out.new ≡ out.old ++ encoding_lines matches.now variables.now body.now) }
{
    let lines = body_lines(alloc, body)?;
    push_table(alloc, out, matches)?;
    push_table(alloc, out, variables)?;
    push_source(alloc, out, lines.as_slice())?;
    Ok(())
}

fn push_shown(alloc: Global, out: &mut Lines, shown: &Shown) -> Result<(), NoMemory>
    ensures { OnOk result (out.new ≡ out.old ++ shown_lines shown.now) }
{
    match shown {
        Shown::Extension { versions } => push_table(alloc, out, versions.as_slice()),
        Shown::Parameter { values } => push_table(alloc, out, values.as_slice()),
        Shown::Instruction {
            matches,
            variables,
            body,
        } => push_encoding(alloc, out, matches.as_slice(), variables.as_slice(), body),
        Shown::Csr {
            register: _register,
            fields: _fields,
        } => Ok(()),
        Shown::Functions {
            functions: _functions,
        } => Ok(()),
    }
}

fn kind_of(shown: &Shown) -> &'static str
    ensures { result.now ≡ shown_kind shown.now }
{
    match shown {
        Shown::Extension {
            versions: _versions,
        } => "extension",
        Shown::Parameter { values: _values } => "parameter",
        Shown::Instruction {
            matches: _matches,
            variables: _variables,
            body: _body,
        } => "instruction",
        Shown::Csr {
            register: _register,
            fields: _fields,
        } => "csr",
        Shown::Functions {
            functions: _functions,
        } => "functions",
    }
}

fn heading(alloc: Global, part: &Part) -> Result<Chars, NoMemory>
    ensures { IfOk result (λ line. line ≡ part_heading part.now) }
{
    let mut line = line_with_text(alloc, "== ", kind_of(&part.shown))?;
    line.push_str(" ")?;
    line.push_str(part.name.as_str())?;
    Ok(line)
}

#[tactic(auto, using(std::proofs::Common::append_assoc))]
fn push_part(alloc: Global, out: &mut Lines, space: &Space, part: &Part) -> Result<(), NoMemory>
    ensures { OnOk result (out.new ≡ out.old ++ part_lines space.now part.now) }
{
    out.push(Chars::new(alloc))?;
    out.push(heading(alloc, part)?)?;
    push_completion(alloc, out, space, &part.completion)?;
    push_text(alloc, out, &part.text)?;
    push_shown(alloc, out, &part.shown)?;
    Ok(())
}

fn push_parts(alloc: Global, out: &mut Lines, space: &Space, parts: &[Part]) -> Result<(), NoMemory>
    ensures { OnOk result (out.new ≡ out.old ++ parts_lines space.now parts.now) }
{
    for part in parts {
        push_part(alloc, out, space, part)?;
    }
    Ok(())
}

fn lines_of_manual(alloc: Global, space: &Space, manual: &Manual) -> Result<Lines, NoMemory>
    ensures { IfOk result (λ lines. lines ≡ manual_lines space.now manual.now) }
{
    let mut lines = Many::new(alloc);
    lines.push(line_with_text(alloc, "= Manual of ", manual.config.as_str())?)?;
    push_completion(alloc, &mut lines, space, &manual.completion)?;
    lines.push(line_with_count(alloc, "// shown ", manual.parts.len())?)?;
    push_parts(alloc, &mut lines, space, manual.parts.as_slice())?;
    Ok(lines)
}

/// The text of a manual over a space, whose names stand in its completions. Of CSRs and functions
/// it has the heading, the completion and the texts alone, until their entries are read. The one
/// refusal is want of memory.
pub fn print_manual(alloc: Global, space: &Space, manual: &Manual) -> Result<Chars, NoMemory>
    ensures { IfOk result (λ text. text ≡ manual_text space.now manual.now) }
{
    let lines = lines_of_manual(alloc, space, manual)?;
    text_of_lines(alloc, lines.as_slice())
}
