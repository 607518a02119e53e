//! What an atom says of all the numbers of a range.

ghost use Rattle.std.specs.Prelude.{◌≡◌, ◌≤◌};
ghost use Rattle.udb_base.specs.declared.conditions.Value.TheVariants.{Number};
ghost use Rattle.udb_base.specs.declared.conditions.Test.TheVariants as t;
ghost use Rattle.udb_spec.specs.Known.{not_known};
ghost use Rattle.udb_cond.specs.Open.{test_over_range};
ghost use Rattle.udb_cond.specs.Tests.{equality_over_range};

use crate::atoms::equality;
use udb_base::{Known, Test, Value};

/// What is known of a condition's contrary.
pub fn not_known(known: Known) -> Known
    ensures { result ≡ not_known known }
{
    match known {
        Known::Yes => Known::No,
        Known::No => Known::Yes,
        Known::Unknown => Known::Unknown,
    }
}

fn equal_known(low: u64, high: u64, given: u64) -> Known
    requires { low ≤ high }
    ensures { result ≡ test_over_range low high t.Equal (Number given) }
{
    if given < low {
        Known::No
    } else if high < given {
        Known::No
    } else if low == high {
        Known::Yes
    } else {
        Known::Unknown
    }
}

fn below_known(low: u64, high: u64, given: u64) -> Known
    requires { low ≤ high }
    ensures { result ≡ test_over_range low high t.Below (Number given) }
{
    if high < given {
        Known::Yes
    } else if given <= low {
        Known::No
    } else {
        Known::Unknown
    }
}

fn at_most_known(low: u64, high: u64, given: u64) -> Known
    requires { low ≤ high }
    ensures { result ≡ test_over_range low high t.AtMost (Number given) }
{
    if high <= given {
        Known::Yes
    } else if given < low {
        Known::No
    } else {
        Known::Unknown
    }
}

fn not_equal_known(low: u64, high: u64, given: u64) -> Known
    requires { low ≤ high }
    ensures { result ≡ test_over_range low high t.NotEqual (Number given) }
{
    not_known(equal_known(low, high, given))
}

fn at_least_known(low: u64, high: u64, given: u64) -> Known
    requires { low ≤ high }
    ensures { result ≡ test_over_range low high t.AtLeast (Number given) }
{
    not_known(below_known(low, high, given))
}

fn above_known(low: u64, high: u64, given: u64) -> Known
    requires { low ≤ high }
    ensures { result ≡ test_over_range low high t.Above (Number given) }
{
    not_known(at_most_known(low, high, given))
}

fn number_known(low: u64, high: u64, test: Test, given: u64) -> Known
    requires { low ≤ high }
    ensures { result ≡ test_over_range low high test (Number given) }
{
    match test {
        Test::Equal => equal_known(low, high, given),
        Test::NotEqual => not_equal_known(low, high, given),
        Test::Below => below_known(low, high, given),
        Test::AtLeast => at_least_known(low, high, given),
        Test::AtMost => at_most_known(low, high, given),
        Test::Above => above_known(low, high, given),
    }
}

fn other_known(low: u64, high: u64, test: Test) -> Known
    requires { low ≤ high }
    ensures { result ≡ equality_over_range low high test }
{
    if equality(test, false) {
        Known::Yes
    } else {
        Known::No
    }
}

/// What is known of an atom where its parameter has any number from `low` to `high`.
pub(crate) fn range_known(low: u64, high: u64, test: Test, given: &Value) -> Known
    requires { low ≤ high }
    ensures { result ≡ test_over_range low high test given.now }
{
    match given {
        Value::Flag(_) => other_known(low, high, test),
        Value::Number(given) => number_known(low, high, test, *given),
        Value::Word(_) => other_known(low, high, test),
    }
}
