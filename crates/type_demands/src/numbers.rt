//! Numbers that are tried for parameters.

ghost use Rattle.std.specs.Prelude.{◌≡◌, ◌++◌, ◌+◌, ◌^◌, ◌<◌, IfOk, OnOk, map};
ghost use Rattle.std.specs.List.{range_with_len};
ghost use Rattle.udb_base.specs.declared.conditions.Value.TheVariants as given;
ghost use Rattle.type_demands.specs.Reads.{full_with};
ghost use Rattle.type_demands.specs.Cases.{numbers_of, listed_numbers, has_more, has_numbers};

use std::alloc::Global;
use udb_base::{Domain, Full, Many, NoMemory, Numbers, Value, Values};

/// The numbers that the last parameters of a space have, in the order of the space.
#[derive(Clone, Copy)]
pub enum Tried<'a> {
    Nothing,
    First { number: u64, rest: &'a Tried<'a> },
}

fn push_values(values: &mut Values, tried: &Tried) -> Result<(), NoMemory>
    ensures { OnOk result (values.new
        ≡ values.old ++ map given.Number (numbers_of tried.now)) }
{
    match tried {
        Tried::Nothing => Ok(()),
        Tried::First { number, rest } => {
            values.push(Value::Number(*number))?;
            push_values(values, rest)
        }
    }
}

/// The full configuration in which the parameters have these numbers, for what asks only for them.
pub fn full_with(alloc: Global, tried: &Tried) -> Result<Full, NoMemory>
    ensures { IfOk result (λ full. full ≡ full_with (numbers_of tried.now)) }
{
    let mut params = Many::new(alloc);
    push_values(&mut params, tried)?;
    Ok(Full {
        extensions: Many::new(alloc),
        params,
    })
}

// As many numbers, from a low one on.
#[tactic(auto, using(crate::proofs::CaseLaws::number_steps))]
fn numbers_from(alloc: Global, low: u64, count: u64) -> Result<Numbers, NoMemory>
    requires { low + count < 2 ^ 64 }
    ensures { IfOk result (λ numbers. numbers ≡ range_with_len low count) }
{
    let mut numbers = Many::new(alloc);
    for step in 0..count {
        numbers.push(low + step)?;
    }
    Ok(numbers)
}

/// Whether the values of a domain are numbers.
pub fn has_numbers(domain: &Domain) -> bool
    ensures { result ≡ has_numbers domain.now }
{
    match domain {
        Domain::Numbers(_) => true,
        Domain::Range { low: _, high: _ } => true,
        Domain::Flags | Domain::Words(_) => false,
    }
}

/// The numbers of a domain that are tried one by one: all that it lists, and those of a range below
/// 1,000,000, from which on widths count all alike.
pub fn listed_numbers(alloc: Global, domain: &Domain) -> Result<Numbers, NoMemory>
    ensures { IfOk result (λ numbers. numbers ≡ listed_numbers domain.now) }
{
    match domain {
        Domain::Numbers(numbers) => Many::from_slice(alloc, numbers.as_slice()),
        Domain::Range { low, high } => {
            let end = (*high).min(999_999) + 1;
            numbers_from(alloc, *low, end.saturating_sub(*low))
        }
        Domain::Flags | Domain::Words(_) => Ok(Many::new(alloc)),
    }
}

/// Whether a domain has numbers beyond those that are tried one by one.
pub fn has_more(domain: &Domain) -> bool
    ensures { result ≡ has_more domain.now }
{
    match domain {
        Domain::Range { low: _, high } => *high >= 1_000_000,
        Domain::Numbers(_) | Domain::Flags | Domain::Words(_) => false,
    }
}
