//! The lines of a bundle as its entries.

ghost use Rattle.std.specs.Prelude.{◌≡◌, map, length, IfOk, []};
ghost use Rattle.first_bundle.specs.Reading.{field, is_switch_part, domain_of, param_of, after_param, is_param_part, params_onto, given_of, gives_params, kind_of, givens_of, instruction_of, config_of, bundle_after, bundle_of};

use crate::blocks::body;
use crate::lines::{Line, line_at, lines_from, past, plain_text, until};
use crate::statements::begins;
use entry_tree::{ConfigEntry, ConfigKind, Encoding, Given, Givens, InstructionEntry, ParamEntry};
use first_spec::{FirstBundle, ParamEntries};
use idl_tree::{Base, Body, Stmts};
use std::alloc::Global;
use udb_base::{Chars, Cond, Domain, Many, Name, NoMemory, Value};

fn text_field(alloc: Global, lines: &[Line], at: usize, skip: usize) -> Result<Chars, NoMemory>
    ensures { IfOk result (λ text. text ≡ field skip at lines.now) }
{
    let text = plain_text(alloc, past(line_at(lines, at), skip))?;
    Ok(Chars::from_string(text))
}

fn name_field(alloc: Global, lines: &[Line], at: usize, skip: usize) -> Result<Name, NoMemory>
    ensures { IfOk result (λ name. name ≡ field skip at lines.now) }
{
    let text = plain_text(alloc, past(line_at(lines, at), skip))?;
    Name::of(alloc, text.as_str())
}

fn is_switch(lines: &[Line]) -> bool
    ensures { result ≡ is_switch_part lines.now }
{
    begins(line_at(lines, 6), b"  type: boolean")
}

fn domain(alloc: Global, lines: &[Line]) -> Result<Domain, NoMemory>
    ensures { IfOk result (λ domain. domain ≡ domain_of lines.now) }
{
    if is_switch(lines) {
        return Ok(Domain::Flags);
    }
    Ok(Domain::Numbers(Many::from_slice(alloc, &[32])?))
}

fn param(alloc: Global, lines: &[Line]) -> Result<ParamEntry, NoMemory>
    ensures { IfOk result (λ param. param ≡ param_of lines.now) }
{
    Ok(ParamEntry {
        name: name_field(alloc, lines, 2, 6)?,
        long_name: text_field(alloc, lines, 3, 11)?,
        description: text_field(alloc, lines, 4, 13)?,
        domain: domain(alloc, lines)?,
        defined: Cond::Always,
        needs: Cond::Always,
    })
}

fn past_param(lines: &[Line]) -> &[Line]
    ensures { result.now ≡ after_param lines.now }
{
    if is_switch(lines) {
        lines_from(lines, 7)
    } else {
        lines_from(lines, 8)
    }
}

fn begins_param(lines: &[Line]) -> bool
    ensures { result ≡ is_param_part lines.now }
{
    begins(line_at(lines, 0), b"=== parameter ")
}

// The parameters at the front, and the lines after them.
fn params(alloc: Global, lines: &[Line]) -> Result<(ParamEntries, &[Line]), NoMemory>
    ensures { IfOk result (λ r. (r.0, r.1.now) ≡ params_onto (length lines.now) [] lines.now) }
{
    let mut params = Many::new(alloc);
    let mut rest = lines;
    for _turn in 0..lines.len() {
        if !begins_param(rest) {
            return Ok((params, rest));
        }
        params.push(param(alloc, rest)?)?;
        rest = past_param(rest);
    }
    Ok((params, rest))
}

fn instruction(
    alloc: Global,
    lines: &[Line],
    statements: Stmts,
) -> Result<InstructionEntry, NoMemory>
    ensures { IfOk result (λ entry. entry ≡ instruction_of lines.now statements) }
{
    let digits = text_field(alloc, lines, 7, 9)?;
    let mut encodings = Many::new(alloc);
    encodings.push(Encoding {
        base: Base::All,
        digits,
    })?;
    Ok(InstructionEntry {
        name: name_field(alloc, lines, 2, 6)?,
        long_name: text_field(alloc, lines, 3, 11)?,
        description: text_field(alloc, lines, 4, 13)?,
        assembly: Chars::new(alloc),
        base: None,
        encodings,
        defined: Cond::Always,
        operation: Body {
            variables: Many::new(alloc),
            statements,
        },
    })
}

// A line that gives a value.
fn given(alloc: Global, line: &[u8]) -> Result<Given, NoMemory>
    ensures { IfOk result (λ given. given ≡ given_of line.now) }
{
    let text = past(line, 2);
    let name = until(text, b':');
    let truth = begins(past(text, name.len()), b": true");
    let name = plain_text(alloc, name)?;
    Ok(Given {
        name: Name::of(alloc, name.as_str())?,
        value: Value::Flag(truth),
    })
}

fn gives(lines: &[Line]) -> bool
    ensures { result ≡ gives_params lines.now }
{
    begins(line_at(lines, 3), b"type: partially")
}

fn kind(lines: &[Line]) -> ConfigKind
    ensures { result ≡ kind_of lines.now }
{
    if gives(lines) {
        ConfigKind::Partially
    } else {
        ConfigKind::Unconfigured
    }
}

fn given_each(alloc: Global, lines: &[Line]) -> Result<Givens, NoMemory>
    ensures { IfOk result (λ givens. givens ≡ map given_of lines.now) }
{
    let mut givens = Many::new(alloc);
    for line in lines {
        givens.push(given(alloc, line.as_slice())?)?;
    }
    Ok(givens)
}

fn givens(alloc: Global, lines: &[Line]) -> Result<Givens, NoMemory>
    ensures { IfOk result (λ givens. givens ≡ givens_of lines.now) }
{
    if gives(lines) {
        given_each(alloc, lines_from(lines, 6))
    } else {
        Ok(Many::new(alloc))
    }
}

fn config(alloc: Global, lines: &[Line]) -> Result<ConfigEntry, NoMemory>
    ensures { IfOk result (λ entry. entry ≡ config_of lines.now) }
{
    Ok(ConfigEntry {
        name: name_field(alloc, lines, 2, 6)?,
        description: text_field(alloc, lines, 4, 13)?,
        kind: kind(lines),
        params: givens(alloc, lines)?,
        mandatory: Many::new(alloc),
        prohibited: Many::new(alloc),
        additional: true,
        implemented: Many::new(alloc),
    })
}

fn rest_of_bundle(
    alloc: Global,
    params: ParamEntries,
    lines: &[Line],
) -> Result<Option<FirstBundle>, NoMemory>
    ensures { IfOk result (λ bundle. bundle ≡ bundle_after params lines.now) }
{
    match body(alloc, params.as_slice(), lines_from(lines, 9))? {
        None => Ok(None),
        Some((statements, rest)) => {
            let instruction = instruction(alloc, lines, statements)?;
            let config = config(alloc, rest)?;
            Ok(Some(FirstBundle {
                params,
                instruction,
                config,
            }))
        }
    }
}

/// The bundle that lines may be, read by the places of its lines.
pub fn entries(alloc: Global, lines: &[Line]) -> Result<Option<FirstBundle>, NoMemory>
    ensures { IfOk result (λ bundle. bundle ≡ bundle_of lines.now) }
{
    let (params, rest) = params(alloc, lines)?;
    rest_of_bundle(alloc, params, rest)
}
