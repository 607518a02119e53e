//! Whether entries that were read are those of a bundle.

ghost use Rattle.std.specs.Prelude.{◌≡◌, ◌∷◌, [], map, IfOk};
ghost use Rattle.std.specs.List.{list_all, list_any};
ghost use Rattle.std.specs.Cmp.Lexicographic.{slice_cmp};
ghost use Rattle.std.specs.Ordering.{nat_cmp, is_lt};
ghost use Rattle.udb_spec.specs.Conditions.{same_bytes};
ghost use Rattle.first_spec.specs.Bundle.{is_switch_name};
ghost use Rattle.first_bundle.specs.Checks.{fits, is_mxlen, is_switch, plain_param_passes, param_passes, rises_from, plain_instruction_passes, instruction_passes, plain_config_passes, gives_pass, config_passes, names_pass, bundle_passes};

use crate::alphabets::{
    is, is_config_name, is_instruction_name, is_match, is_parameter_name, is_text,
};
use crate::blocks::is_switch_name;
use crate::printing::{lines_of_config, lines_of_instruction, lines_of_param, match_digits};
use entry_tree::{ConfigEntry, ConfigKind, Given, InstructionEntry, ParamEntry};
use first_spec::FirstBundle;
use std::alloc::Global;
use udb_base::{Chars, Domain, NoMemory};

// Whether lines, with their line feeds, are at most 65,536 bytes.
#[tactic(auto, using(crate::proofs::Sizes::text_long))]
fn fits(lines: &[Chars]) -> bool
    ensures { result ≡ fits lines.now }
{
    let mut left: usize = 65_536;
    for line in lines {
        if line.len() >= left {
            return false;
        }
        left -= line.len() + 1;
    }
    true
}

fn is_mxlen(name: &[u8]) -> bool
    ensures { result ≡ is_mxlen name.now }
{
    is(name, b"MXLEN")
}

fn is_one_width(numbers: &[u64]) -> bool
    ensures { result ≡ same_bytes numbers.now (32 ∷ []) }
{
    numbers == [32].as_slice()
}

fn is_switch(name: &[u8], domain: &Domain) -> bool
    ensures { result ≡ is_switch name.now domain.now }
{
    match domain {
        Domain::Flags => !is_mxlen(name),
        Domain::Numbers(numbers) => is_mxlen(name) && is_one_width(numbers.as_slice()),
        _ => false,
    }
}

fn plain_param_passes(param: &ParamEntry) -> bool
    ensures { result ≡ plain_param_passes param.now }
{
    is_parameter_name(param.name.as_str().as_bytes())
        && is_text(param.long_name.as_bytes())
        && is_text(param.description.as_bytes())
        && is_switch(param.name.as_str().as_bytes(), &param.domain)
}

fn param_passes(alloc: Global, param: &ParamEntry) -> Result<bool, NoMemory>
    ensures { IfOk result (λ passes. passes ≡ param_passes param.now) }
{
    if !plain_param_passes(param) {
        return Ok(false);
    }
    let lines = lines_of_param(alloc, param)?;
    Ok(fits(lines.as_slice()))
}

fn params_pass(alloc: Global, params: &[ParamEntry]) -> Result<bool, NoMemory>
    ensures { IfOk result (λ pass. pass ≡ list_all param_passes params.now) }
{
    for param in params {
        if !param_passes(alloc, param)? {
            return Ok(false);
        }
    }
    Ok(true)
}

fn is_below(name: &[u8], other: &[u8]) -> bool
    ensures { result ≡ is_lt (slice_cmp nat_cmp name.now other.now) }
{
    name.cmp(other).is_lt()
}

fn rises(params: &[ParamEntry]) -> bool
    ensures { result ≡ rises_from [] (map (λ p. p.name) params.now) }
{
    let mut before: &[u8] = &[];
    for param in params {
        let name = param.name.as_str().as_bytes();
        if !is_below(before, name) {
            return false;
        }
        before = name;
    }
    true
}

fn any_mxlen(params: &[ParamEntry]) -> bool
    ensures { result ≡ list_any (λ p. is_mxlen p.name) params.now }
{
    for param in params {
        if is_mxlen(param.name.as_str().as_bytes()) {
            return true;
        }
    }
    false
}

fn names_pass(params: &[ParamEntry]) -> bool
    ensures { result ≡ names_pass params.now }
{
    rises(params) && any_mxlen(params)
}

fn plain_instruction_passes(entry: &InstructionEntry) -> bool
    ensures { result ≡ plain_instruction_passes entry.now }
{
    is_instruction_name(entry.name.as_str().as_bytes())
        && is_text(entry.long_name.as_bytes())
        && is_text(entry.description.as_bytes())
        && is_match(match_digits(entry.encodings.as_slice()).as_bytes())
        && entry.operation.statements.as_slice().len() >= 1
}

fn instruction_passes(alloc: Global, entry: &InstructionEntry) -> Result<bool, NoMemory>
    ensures { IfOk result (λ passes. passes ≡ instruction_passes entry.now) }
{
    if !plain_instruction_passes(entry) {
        return Ok(false);
    }
    let lines = lines_of_instruction(alloc, entry)?;
    Ok(fits(lines.as_slice()))
}

fn plain_config_passes(entry: &ConfigEntry) -> bool
    ensures { result ≡ plain_config_passes entry.now }
{
    is_config_name(entry.name.as_str().as_bytes()) && is_text(entry.description.as_bytes())
}

fn all_switches(params: &[ParamEntry], givens: &[Given]) -> bool
    ensures { result ≡ list_all (λ g. is_switch_name params.now g.name) givens.now }
{
    for given in givens {
        if !is_switch_name(params, given.name.as_str().as_bytes()) {
            return false;
        }
    }
    true
}

fn givens_rise(givens: &[Given]) -> bool
    ensures { result ≡ rises_from [] (map (λ g. g.name) givens.now) }
{
    let mut before: &[u8] = &[];
    for given in givens {
        let name = given.name.as_str().as_bytes();
        if !is_below(before, name) {
            return false;
        }
        before = name;
    }
    true
}

fn gives_pass(params: &[ParamEntry], kind: &ConfigKind, givens: &[Given]) -> bool
    ensures { result ≡ gives_pass params.now kind.now givens.now }
{
    match kind {
        ConfigKind::Partially => {
            givens.len() >= 1 && all_switches(params, givens) && givens_rise(givens)
        }
        _ => true,
    }
}

fn config_passes(
    alloc: Global,
    params: &[ParamEntry],
    entry: &ConfigEntry,
) -> Result<bool, NoMemory>
    ensures { IfOk result (λ passes. passes ≡ config_passes params.now entry.now) }
{
    if !plain_config_passes(entry) || !gives_pass(params, &entry.kind, entry.params.as_slice()) {
        return Ok(false);
    }
    let lines = lines_of_config(alloc, entry)?;
    Ok(fits(lines.as_slice()))
}

/// Whether entries that were read are those of a bundle: names, texts, digits and sizes.
pub fn bundle_passes(alloc: Global, bundle: &FirstBundle) -> Result<bool, NoMemory>
    ensures { IfOk result (λ passes. passes ≡ bundle_passes bundle.now) }
{
    if !names_pass(bundle.params.as_slice()) {
        return Ok(false);
    }
    if !params_pass(alloc, bundle.params.as_slice())? {
        return Ok(false);
    }
    if !instruction_passes(alloc, &bundle.instruction)? {
        return Ok(false);
    }
    config_passes(alloc, bundle.params.as_slice(), &bundle.config)
}
