//! The completion that a manual shows.

ghost use Rattle.std.specs.Prelude.{◌≡◌, IfOk};
ghost use Rattle.first_spec.specs.Bundle.{IsFirst};
ghost use Rattle.first_prune.specs.Bundles.{completion_of, CompletesFirst};
ghost use Rattle.first_prune.specs.Known.{known_of, flag_of, value_with, completion_with};

use crate::facts::look_given;
use entry_tree::{Given, ParamEntry};
use first_spec::FirstBundle;
use std::alloc::Global;
use udb_base::{Domain, Full, Many, NoMemory, Value};

fn flag_of(truth: Option<bool>) -> bool
    ensures { result ≡ flag_of truth }
{
    match truth {
        None => false,
        Some(truth) => truth,
    }
}

fn value_with(givens: &[Given], param: &ParamEntry) -> Value
    ensures { result ≡ value_with (known_of givens.now) param.now.name param.now.domain }
{
    match &param.domain {
        Domain::Flags => Value::Flag(flag_of(look_given(givens, &param.name))),
        Domain::Numbers(_numbers) => Value::Number(32),
        Domain::Range {
            low: _low,
            high: _high,
        } => Value::Number(32),
        Domain::Words(_words) => Value::Number(32),
    }
}

/// The full configuration in which each Boolean parameter has its given value, or else is false,
/// and each other parameter is 32. The one refusal is want of memory.
pub fn completion(alloc: Global, params: &[ParamEntry], givens: &[Given]) -> Result<Full, NoMemory>
    ensures { IfOk result (λ full. full ≡ completion_with (known_of givens.now) params.now) }
{
    let mut values = Many::new(alloc);
    for param in params {
        values.push(value_with(givens, param))?;
    }
    Ok(Full {
        extensions: Many::new(alloc),
        params: values,
    })
}

/// The completion that the manual of a bundle's configuration shows. The one refusal is want of
/// memory.
#[tactic(auto, using(crate::proofs::Shown::completes))]
pub fn complete_bundle(alloc: Global, bundle: &FirstBundle) -> Result<Full, NoMemory>
    ensures made { IfOk result (λ full. full ≡ completion_of bundle.now) }

    // It completes the configuration of any bundle of the first path.
    ensures completes { IfOk result (λ full. IsFirst bundle.now → CompletesFirst bundle.now full) }
{
    let params = bundle.params.as_slice();
    let givens = bundle.config.params.as_slice();
    completion(alloc, params, givens)
}
