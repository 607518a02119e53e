//! The manual of a bundle of the first path.

ghost use Rattle.std.specs.Prelude.{◌≡◌, ◌++◌, ◌∷◌, [], IfOk, OnOk, map, codes};
ghost use Rattle.first_spec.specs.Bundle.{IsFirst, digits_among};
ghost use Rattle.udb_top.specs.Making.{one_line_each, value_rows, encoding_rows, shown_instruction, param_part, instruction_part, manual_with, IsManual};

use entry_tree::{Encoding, InstructionEntry, ParamEntry};
use first_bundle::{FirstBundle, match_digits};
use first_prune::{complete_bundle, prune_bundle};
use idl_tree::{Body, Stmts};
use manual_spec::{Manual, Part, PartText, Parts, Shown};
use std::alloc::Global;
use udb_base::{Chars, Copied, Domain, Full, Lines, Many, NoMemory};

fn one_line(alloc: Global, text: &str) -> Result<Lines, NoMemory>
    ensures { IfOk result (λ lines. lines ≡ text.now ∷ []) }
{
    let mut lines = Many::new(alloc);
    lines.push(Chars::of(alloc, text)?)?;
    Ok(lines)
}

fn texts(alloc: Global, long_name: &Chars, description: &Chars) -> Result<PartText, NoMemory>
    ensures { IfOk result (λ text. text ≡ one_line_each long_name.now description.now) }
{
    Ok(PartText {
        long_name: one_line(alloc, long_name.as_str())?,
        description: one_line(alloc, description.as_str())?,
        assembly: Many::new(alloc),
    })
}

fn flag_rows(alloc: Global) -> Result<Lines, NoMemory>
    ensures { IfOk result (λ lines. lines ≡ codes "false" ∷ codes "true" ∷ []) }
{
    let mut lines = Many::new(alloc);
    lines.push(Chars::of(alloc, "false")?)?;
    lines.push(Chars::of(alloc, "true")?)?;
    Ok(lines)
}

fn rows(alloc: Global, domain: &Domain) -> Result<Lines, NoMemory>
    ensures { IfOk result (λ lines. lines ≡ value_rows domain.now) }
{
    match domain {
        Domain::Flags => flag_rows(alloc),
        Domain::Numbers(_numbers) => one_line(alloc, "32"),
        Domain::Range {
            low: _low,
            high: _high,
        } => one_line(alloc, "32"),
        Domain::Words(_words) => one_line(alloc, "32"),
    }
}

fn part_of_param(alloc: Global, full: &Full, param: &ParamEntry) -> Result<Part, NoMemory>
    ensures { IfOk result (λ part. part ≡ param_part full.now param.now) }
{
    Ok(Part {
        name: param.name.copy(alloc)?,
        completion: full.copy(alloc)?,
        text: texts(alloc, &param.long_name, &param.description)?,
        shown: Shown::Parameter {
            values: rows(alloc, &param.domain)?,
        },
    })
}

fn encoding_rows(alloc: Global, encodings: &[Encoding]) -> Result<Lines, NoMemory>
    ensures { IfOk result (λ lines. lines ≡ encoding_rows encodings.now) }
{
    let mut row = Chars::of(alloc, "all | ")?;
    row.push_str(match_digits(encodings))?;
    let mut lines = Many::new(alloc);
    lines.push(row)?;
    Ok(lines)
}

fn shown_instruction(
    alloc: Global,
    instruction: &InstructionEntry,
    statements: Stmts,
) -> Result<Shown, NoMemory>
    ensures { IfOk result (λ shown. shown ≡ shown_instruction instruction.now statements) }
{
    let matches = encoding_rows(alloc, instruction.encodings.as_slice())?;
    Ok(Shown::Instruction {
        matches,
        variables: Many::new(alloc),
        body: Body {
            variables: Many::new(alloc),
            statements,
        },
    })
}

fn part_of_instruction(
    alloc: Global,
    full: &Full,
    instruction: &InstructionEntry,
    statements: Stmts,
) -> Result<Part, NoMemory>
    ensures { IfOk result (λ part. part ≡ instruction_part full.now instruction.now statements) }
{
    let shown = shown_instruction(alloc, instruction, statements)?;
    Ok(Part {
        name: instruction.name.copy(alloc)?,
        completion: full.copy(alloc)?,
        text: texts(alloc, &instruction.long_name, &instruction.description)?,
        shown,
    })
}

fn parts_of_params(alloc: Global, full: &Full, params: &[ParamEntry]) -> Result<Parts, NoMemory>
    ensures { IfOk result (λ parts. parts ≡ map (param_part full.now) params.now) }
{
    let mut parts = Many::new(alloc);
    for param in params {
        parts.push(part_of_param(alloc, full, param)?)?;
    }
    Ok(parts)
}

fn all_parts(
    alloc: Global,
    full: &Full,
    bundle: &FirstBundle,
    statements: Stmts,
) -> Result<Parts, NoMemory>
    ensures { IfOk result (λ parts. parts ≡ (manual_with bundle.now full.now statements).parts) }
{
    let instruction = part_of_instruction(alloc, full, &bundle.instruction, statements)?;
    let mut parts = parts_of_params(alloc, full, bundle.params.as_slice())?;
    parts.push(instruction)?;
    Ok(parts)
}

fn manual_with(
    alloc: Global,
    bundle: &FirstBundle,
    full: Full,
    statements: Stmts,
) -> Result<Manual, NoMemory>
    ensures { IfOk result (λ manual. manual ≡ manual_with bundle.now full statements) }
{
    let parts = all_parts(alloc, &full, bundle, statements)?;
    Ok(Manual {
        config: bundle.config.name.copy(alloc)?,
        completion: full,
        parts,
    })
}

/// The manual of the bundle's configuration. The one refusal is want of memory.
pub fn make_manual(alloc: Global, bundle: &FirstBundle) -> Result<Manual, NoMemory>
    ensures { IfOk result (λ manual. IsFirst bundle.now → IsManual bundle.now manual) }
{
    let full = complete_bundle(alloc, bundle)?;
    let statements = prune_bundle(alloc, bundle)?;
    manual_with(alloc, bundle, full, statements)
}
