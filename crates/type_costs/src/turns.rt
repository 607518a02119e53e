//! The greatest number of turns of a loop, over all listed values of the parameters that its bounds
//! name.

ghost use Rattle.std.specs.Prelude.{◌≡◌, ◌++◌, ◌∷◌, [], None, map, fold, IfOk, OnOk};
ghost use Rattle.udb_base.specs.declared.conditions.Value.TheVariants as given;
ghost use Rattle.idl_spec.specs.Costs.{listed_values, unlisted, greatest_turns};
ghost use Rattle.idl_spec.specs.Fields.{bits_scope};
ghost use Rattle.type_costs.specs.Turns.{turns_in, values_for, greatest_from, greatest_over, with_value};

use crate::names::bounds_name;
use idl_tree::{Program, Variable, Width};
use idl_width::{BitsScope, width_value};
use std::alloc::Global;
use udb_base::{
    Choices, Copied, Domain, ExtSpace, Full, Many, NoMemory, ParamSpace, Space, Value, Values,
};

/// The bounds of a loop, and what their numbers depend on.
#[derive(Clone, Copy)]
pub(crate) struct Bounds<'a> {
    pub(crate) space: &'a Space,
    pub(crate) program: &'a Program,
    pub(crate) variables: &'a [Variable],
    pub(crate) scope: &'a BitsScope,
    pub(crate) from: &'a Width,
    pub(crate) to: &'a Width,
}

// The number of turns in a full configuration.
fn turns_in(bounds: &Bounds, full: &Full) -> u64
    ensures { result ≡ turns_in bounds.now full.now }
{
    let from = width_value(bounds.from, bounds.space, full, bounds.scope);
    let to = width_value(bounds.to, bounds.space, full, bounds.scope);
    if to < from {
        return 0;
    }
    (to - from) as u64
}

// The values of a parameter that a bound names: the listed numbers, or 0.
fn listed_values(alloc: Global, domain: &Domain) -> Result<Values, NoMemory>
    ensures { IfOk result (λ xs. xs ≡ listed_values domain.now) }
{
    match domain {
        Domain::Numbers(numbers) => all_numbers(alloc, numbers.as_slice()),
        Domain::Flags => one_value(alloc, Value::Number(0)),
        Domain::Range { low: _, high: _ } => one_value(alloc, Value::Number(0)),
        Domain::Words(_) => one_value(alloc, Value::Number(0)),
    }
}

fn all_numbers(alloc: Global, numbers: &[u64]) -> Result<Values, NoMemory>
    ensures { IfOk result (λ xs. xs ≡ map given.Number numbers.now) }
{
    let mut values = Many::new(alloc);
    for number in numbers {
        values.push(Value::Number(*number))?;
    }
    Ok(values)
}

fn one_value(alloc: Global, value: Value) -> Result<Values, NoMemory>
    ensures { IfOk result (λ xs. xs ≡ value ∷ []) }
{
    let mut values = Many::new(alloc);
    values.push(value)?;
    Ok(values)
}

// The value of a parameter that no bound names: the first of its domain, or 0.
fn unlisted(alloc: Global, domain: &Domain) -> Result<Values, NoMemory>
    ensures { IfOk result (λ xs. xs ≡ unlisted domain.now) }
{
    match domain {
        Domain::Flags => one_value(alloc, Value::Flag(false)),
        Domain::Numbers(numbers) => match numbers.as_slice().first() {
            Some(number) => one_value(alloc, Value::Number(*number)),
            None => one_value(alloc, Value::Number(0)),
        },
        Domain::Range { low, high: _ } => one_value(alloc, Value::Number(*low)),
        Domain::Words(words) => match words.as_slice().first() {
            Some(word) => one_value(alloc, Value::Word(word.copy(alloc)?)),
            None => one_value(alloc, Value::Number(0)),
        },
    }
}

// The values that a parameter takes.
fn values_for(alloc: Global, bounds: &Bounds, param: &ParamSpace) -> Result<Values, NoMemory>
    ensures { IfOk result (λ xs. xs ≡ values_for bounds.now param.now) }
{
    let named = bounds_name(
        bounds.program,
        bounds.variables,
        bounds.from,
        bounds.to,
        &param.name,
    );
    if named {
        listed_values(alloc, &param.domain)
    } else {
        unlisted(alloc, &param.domain)
    }
}

// The greatest number of turns over all values of the parameters that are left, or one before where
// that is greater.
#[cycle(listings)]
#[tactic(auto, using(crate::proofs::Listings::listing_laws))]
fn greatest_from(
    alloc: Global,
    bounds: &Bounds,
    params: &[ParamSpace],
    full: &mut Full,
    before: u64,
) -> Result<u64, NoMemory>
    ensures value { IfOk result (λ n. n
        ≡ greatest_from bounds.now params.now full.old before) }
    ensures full { OnOk result (full.new ≡ full.old) }
{
    match params.split_first() {
        None => Ok(before.max(turns_in(bounds, full))),
        Some((param, more)) => {
            let values = values_for(alloc, bounds, param)?;
            greatest_over(alloc, bounds, values.as_slice(), more, full, before)
        }
    }
}

// The same where the next parameter has each of some values in turn.
#[cycle(listings)]
fn greatest_over(
    alloc: Global,
    bounds: &Bounds,
    values: &[Value],
    more: &[ParamSpace],
    full: &mut Full,
    before: u64,
) -> Result<u64, NoMemory>
    ensures value { IfOk result (λ n. n
        ≡ greatest_over bounds.now more.now full.old values.now before) }
    ensures full { OnOk result (full.new ≡ full.old) }
{
    let mut greatest = before;
    for value in values {
        greatest = greatest_with(alloc, bounds, value, more, full, greatest)?;
    }
    Ok(greatest)
}

// The same where the next parameter has one value.
#[cycle(listings)]
fn greatest_with(
    alloc: Global,
    bounds: &Bounds,
    value: &Value,
    more: &[ParamSpace],
    full: &mut Full,
    before: u64,
) -> Result<u64, NoMemory>
    ensures value { IfOk result (λ n. n
        ≡ greatest_from bounds.now more.now (with_value full.old value.now) before) }
    ensures full { OnOk result (full.new ≡ full.old) }
{
    full.params.push(value.copy(alloc)?)?;
    let greatest = greatest_from(alloc, bounds, more, full, before)?;
    full.params.pop();
    Ok(greatest)
}

// No choice for each extension.
fn no_choices(alloc: Global, extensions: &[ExtSpace]) -> Result<Choices, NoMemory>
    ensures { IfOk result (λ cs. cs ≡ map (λ x. None) extensions.now) }
{
    let mut choices = Many::new(alloc);
    for _extension in extensions {
        choices.push(None)?;
    }
    Ok(choices)
}

/// The greatest number of turns of a loop, counted as at most 1,024: its bounds' difference over
/// all listed values of the parameters that they name. The one refusal is want of memory.
pub(crate) fn greatest_turns(alloc: Global, bounds: &Bounds) -> Result<u64, NoMemory>
    requires scope { bounds.now.scope.now
        ≡ bits_scope bounds.now.program.now bounds.now.variables.now }
    ensures { IfOk result (λ n. n ≡ greatest_turns bounds.now.space.now bounds.now.program.now
        bounds.now.variables.now bounds.now.from.now bounds.now.to.now) }
{
    let params = bounds.space.params.as_slice();
    let mut full = Full {
        extensions: no_choices(alloc, bounds.space.extensions.as_slice())?,
        params: Many::new(alloc),
    };
    let greatest = greatest_from(alloc, bounds, params, &mut full, 0)?;
    Ok(greatest.min(1024))
}
