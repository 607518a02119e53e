//! The lines of a bundle.

ghost use Rattle.std.specs.Prelude.{◌≡◌, ◌++◌, ◌∷◌, [], length, IfOk, OnOk, map, codes};
ghost use Rattle.std.specs.Fmt.{decimal};
ghost use Rattle.udb_base.specs.Lines.{text_of_lines};
ghost use Rattle.idl_tree.specs.Print.{body_lines};
ghost use Rattle.first_bundle.specs.Printing.{name_lines, encoding_lines, lines_before_body};
ghost use Rattle.first_spec.specs.Bundle.{bundle_part, schema_lines, param_lines, instruction_lines, value_word, given_line, kind_line, given_lines, config_lines, params_lines, bundle_lines, digits_among};

use entry_tree::{ConfigEntry, ConfigKind, Encoding, Given, InstructionEntry, ParamEntry};
use first_spec::FirstBundle;
use idl_print::body_lines;
use std::alloc::Global;
use udb_base::{Chars, Domain, Lines, Many, NoMemory, Value, text_of_lines};

fn line(alloc: Global, text: &str) -> Result<Chars, NoMemory>
    ensures { IfOk result (λ line. line ≡ text.now) }
{
    Chars::of(alloc, text)
}

fn labelled(alloc: Global, label: &str, text: &str) -> Result<Chars, NoMemory>
    ensures { IfOk result (λ line. line ≡ label.now ++ text.now) }
{
    let mut line = Chars::of(alloc, label)?;
    line.push_str(text)?;
    Ok(line)
}

fn heading(alloc: Global, kind: &str, name: &str, count: usize) -> Result<Chars, NoMemory>
    ensures { IfOk result (λ line.
        line ≡ codes "=== " ++ (kind.now ++ (32 ∷ name.now ++ (32 ∷ decimal count)))) }
{
    Ok(Chars::from_string(format!(in alloc; "=== {kind} {name} {count}")?))
}

fn lines_of_width(alloc: Global) -> Result<Lines, NoMemory>
    ensures { IfOk result (λ lines. lines ≡ codes "  type: integer" ∷ codes "  enum: [32]" ∷ []) }
{
    let mut lines = Many::new(alloc);
    lines.push(line(alloc, "  type: integer")?)?;
    lines.push(line(alloc, "  enum: [32]")?)?;
    Ok(lines)
}

fn lines_of_switch(alloc: Global) -> Result<Lines, NoMemory>
    ensures { IfOk result (λ lines. lines ≡ codes "  type: boolean" ∷ []) }
{
    let mut lines = Many::new(alloc);
    lines.push(line(alloc, "  type: boolean")?)?;
    Ok(lines)
}

fn lines_of_schema(alloc: Global, domain: &Domain) -> Result<Lines, NoMemory>
    ensures { IfOk result (λ lines. lines ≡ schema_lines domain.now) }
{
    match domain {
        Domain::Numbers(_) => lines_of_width(alloc),
        _ => lines_of_switch(alloc),
    }
}

/// The lines of a parameter after its heading.
pub fn lines_of_param(alloc: Global, param: &ParamEntry) -> Result<Lines, NoMemory>
    ensures { IfOk result (λ lines. lines ≡ param_lines param.now) }
{
    let mut lines = Many::new(alloc);
    lines.push(line(alloc, "kind: parameter")?)?;
    lines.push(labelled(alloc, "name: ", param.name.as_str())?)?;
    lines.push(labelled(alloc, "long_name: ", param.long_name.as_str())?)?;
    lines.push(labelled(alloc, "description: ", param.description.as_str())?)?;
    lines.push(line(alloc, "schema:")?)?;
    lines.append(lines_of_schema(alloc, &param.domain)?)?;
    Ok(lines)
}

/// The digits of the first encoding, where there is one.
pub fn match_digits(encodings: &[Encoding]) -> &str
    ensures { result.now ≡ digits_among encodings.now }
{
    match encodings {
        [] => "",
        [first, ..] => first.digits.as_str(),
    }
}

fn push_indented(alloc: Global, lines: &mut Lines, body: &Lines) -> Result<(), NoMemory>
    ensures { OnOk result (lines.new ≡ lines.old ++ map (λ l. codes "  " ++ l) body.now) }
{
    for text in body.as_slice() {
        lines.push(labelled(alloc, "  ", text.as_str())?)?;
    }
    Ok(())
}

fn value_word(value: &Value) -> &'static str
    ensures { result.now ≡ value_word value.now }
{
    match value {
        Value::Flag(true) => "true",
        _ => "false",
    }
}

fn line_of_given(alloc: Global, given: &Given) -> Result<Chars, NoMemory>
    ensures { IfOk result (λ line. line ≡ given_line given.now) }
{
    let mut line = labelled(alloc, "  ", given.name.as_str())?;
    line.push_str(": ")?;
    line.push_str(value_word(&given.value))?;
    Ok(line)
}

fn push_givens(alloc: Global, lines: &mut Lines, givens: &[Given]) -> Result<(), NoMemory>
    ensures { OnOk result (lines.new ≡ lines.old ++ map given_line givens.now) }
{
    for given in givens {
        lines.push(line_of_given(alloc, given)?)?;
    }
    Ok(())
}

fn kind_line(kind: &ConfigKind) -> &'static str
    ensures { result.now ≡ kind_line kind.now }
{
    match kind {
        ConfigKind::Partially => "type: partially configured",
        _ => "type: unconfigured",
    }
}

fn lines_of_givens(alloc: Global, kind: &ConfigKind, givens: &[Given]) -> Result<Lines, NoMemory>
    ensures { IfOk result (λ lines. lines ≡ given_lines kind.now givens.now) }
{
    let mut lines = Many::new(alloc);
    if let ConfigKind::Partially = kind {
        lines.push(line(alloc, "params:")?)?;
        push_givens(alloc, &mut lines, givens)?;
    }
    Ok(lines)
}

/// The lines of a configuration after its heading.
pub fn lines_of_config(alloc: Global, config: &ConfigEntry) -> Result<Lines, NoMemory>
    ensures { IfOk result (λ lines. lines ≡ config_lines config.now) }
{
    let mut lines = Many::new(alloc);
    lines.push(line(alloc, "kind: architecture configuration")?)?;
    lines.push(labelled(alloc, "name: ", config.name.as_str())?)?;
    lines.push(line(alloc, kind_line(&config.kind))?)?;
    lines.push(labelled(alloc, "description: ", config.description.as_str())?)?;
    lines.append(lines_of_givens(alloc, &config.kind, config.params.as_slice())?)?;
    Ok(lines)
}

fn lines_of_names(alloc: Global, instruction: &InstructionEntry) -> Result<Lines, NoMemory>
    ensures { IfOk result (λ lines. lines ≡ name_lines instruction.now) }
{
    let mut lines = Many::new(alloc);
    lines.push(line(alloc, "kind: instruction")?)?;
    lines.push(labelled(alloc, "name: ", instruction.name.as_str())?)?;
    lines.push(labelled(alloc, "long_name: ", instruction.long_name.as_str())?)?;
    lines.push(labelled(alloc, "description: ", instruction.description.as_str())?)?;
    Ok(lines)
}

fn lines_of_encoding(alloc: Global, digits: &str) -> Result<Lines, NoMemory>
    ensures { IfOk result (λ lines. lines ≡ encoding_lines digits.now) }
{
    let mut lines = Many::new(alloc);
    lines.push(line(alloc, "assembly: \"\"")?)?;
    lines.push(line(alloc, "encoding:")?)?;
    lines.push(labelled(alloc, "  match: ", digits)?)?;
    lines.push(line(alloc, "operation(): |")?)?;
    Ok(lines)
}

// The lines of an instruction up to its body.
fn lines_before_body(alloc: Global, instruction: &InstructionEntry) -> Result<Lines, NoMemory>
    ensures { IfOk result (λ lines. lines ≡ lines_before_body instruction.now) }
{
    let mut lines = lines_of_names(alloc, instruction)?;
    let digits = match_digits(instruction.encodings.as_slice());
    lines.append(lines_of_encoding(alloc, digits)?)?;
    Ok(lines)
}

/// The lines of an instruction after its heading.
pub fn lines_of_instruction(
    alloc: Global,
    instruction: &InstructionEntry,
) -> Result<Lines, NoMemory>
    ensures { IfOk result (λ lines. lines ≡ instruction_lines instruction.now) }
{
    let body = body_lines(alloc, &instruction.operation)?;
    let mut lines = lines_before_body(alloc, instruction)?;
    push_indented(alloc, &mut lines, &body)?;
    Ok(lines)
}

// A part with its heading.
fn part(alloc: Global, kind: &str, name: &str, lines: Lines) -> Result<Lines, NoMemory>
    ensures { IfOk result (λ part. part ≡ bundle_part kind.now name.now lines) }
{
    let mut part = Many::new(alloc);
    part.push(heading(alloc, kind, name, lines.len())?)?;
    part.append(lines)?;
    Ok(part)
}

fn part_of_param(alloc: Global, param: &ParamEntry) -> Result<Lines, NoMemory>
    ensures { IfOk result (λ part.
        part ≡ bundle_part (codes "parameter") param.now.name (param_lines param.now)) }
{
    let lines = lines_of_param(alloc, param)?;
    part(alloc, "parameter", param.name.as_str(), lines)
}

fn parts_of_params(alloc: Global, params: &[ParamEntry]) -> Result<Lines, NoMemory>
    ensures { IfOk result (λ lines. lines ≡ params_lines params.now) }
{
    let mut lines = Many::new(alloc);
    for param in params {
        lines.append(part_of_param(alloc, param)?)?;
    }
    Ok(lines)
}

fn part_of_instruction(alloc: Global, entry: &InstructionEntry) -> Result<Lines, NoMemory>
    ensures { IfOk result (λ part.
        part ≡ bundle_part (codes "instruction") entry.now.name (instruction_lines entry.now)) }
{
    let lines = lines_of_instruction(alloc, entry)?;
    part(alloc, "instruction", entry.name.as_str(), lines)
}

fn part_of_config(alloc: Global, entry: &ConfigEntry) -> Result<Lines, NoMemory>
    ensures { IfOk result (λ part.
        part ≡ bundle_part (codes "config") entry.now.name (config_lines entry.now)) }
{
    let lines = lines_of_config(alloc, entry)?;
    part(alloc, "config", entry.name.as_str(), lines)
}

fn lines_of_bundle(alloc: Global, bundle: &FirstBundle) -> Result<Lines, NoMemory>
    ensures { IfOk result (λ lines. lines ≡ bundle_lines bundle.now) }
{
    let mut after = part_of_instruction(alloc, &bundle.instruction)?;
    after.append(part_of_config(alloc, &bundle.config)?)?;
    let mut lines = parts_of_params(alloc, bundle.params.as_slice())?;
    lines.append(after)?;
    Ok(lines)
}

/// The text of a bundle.
pub fn text_of_bundle(alloc: Global, bundle: &FirstBundle) -> Result<Chars, NoMemory>
    ensures { IfOk result (λ text. text ≡ text_of_lines (bundle_lines bundle.now)) }
{
    let lines = lines_of_bundle(alloc, bundle)?;
    text_of_lines(alloc, lines.as_slice())
}
