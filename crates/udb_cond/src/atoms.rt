//! What one extension's choice, or one parameter's value, says of an atom.

ghost use Rattle.std.specs.Prelude.{◌≡◌};
ghost use Rattle.std.specs.List.{list_all};
ghost use Rattle.udb_base.specs.declared.conditions.Value.TheVariants.{Flag, Number, Word};
ghost use Rattle.udb_spec.specs.Versions.{meets};
ghost use Rattle.udb_spec.specs.Conditions.{choice_meets, passes};
ghost use Rattle.udb_cond.specs.Tests.{equality};

use crate::versions::meets;
use udb_base::{Chars, Listed, Requirement, Test, Value, Version};

fn meets_all(list: &[Listed], needs: &[Requirement], version: &Version) -> bool
    ensures { result ≡ list_all (λ need. meets list.now need version.now) needs.now }
{
    needs.iter().all(|need| meets(list, need, version))
}

/// Whether an extension's choice meets each requirement.
pub(crate) fn choice_meets(list: &[Listed], needs: &[Requirement], choice: &Option<Version>) -> bool
    ensures { result ≡ choice_meets list.now needs.now choice.now }
{
    match choice {
        None => false,
        Some(version) => meets_all(list, needs, version),
    }
}

// What a test says of values that are the same, or aren't, and have no order.
pub(crate) fn equality(test: Test, same: bool) -> bool
    ensures { result ≡ equality test same }
{
    match test {
        Test::Equal => same,
        Test::NotEqual => !same,
        Test::Above | Test::AtLeast | Test::Below | Test::AtMost => false,
    }
}

/// Whether a flag passes a test against a given value.
pub(crate) fn flag_passes(test: Test, flag: bool, given: &Value) -> bool
    ensures { result ≡ passes test (Flag flag) given.now }
{
    match given {
        Value::Flag(other) => equality(test, flag == *other),
        Value::Number(_) => equality(test, false),
        Value::Word(_) => equality(test, false),
    }
}

fn numbers_pass(test: Test, number: u64, given: u64) -> bool
    ensures { result ≡ passes test (Number number) (Number given) }
{
    match test {
        Test::Equal => number == given,
        Test::NotEqual => number != given,
        Test::Above => given < number,
        Test::AtLeast => given <= number,
        Test::Below => number < given,
        Test::AtMost => number <= given,
    }
}

/// Whether a number passes a test against a given value.
pub(crate) fn number_passes(test: Test, number: u64, given: &Value) -> bool
    ensures { result ≡ passes test (Number number) given.now }
{
    match given {
        Value::Flag(_) => equality(test, false),
        Value::Number(other) => numbers_pass(test, number, *other),
        Value::Word(_) => equality(test, false),
    }
}

/// Whether a text passes a test against a given value.
pub(crate) fn word_passes(test: Test, word: &Chars, given: &Value) -> bool
    ensures { result ≡ passes test (Word word.now) given.now }
{
    match given {
        Value::Flag(_) => equality(test, false),
        Value::Number(_) => equality(test, false),
        Value::Word(other) => equality(test, word == other),
    }
}

/// Whether a value passes a test against a given value.
pub(crate) fn value_passes(test: Test, value: &Value, given: &Value) -> bool
    ensures { result ≡ passes test value.now given.now }
{
    match value {
        Value::Flag(flag) => flag_passes(test, *flag, given),
        Value::Number(number) => number_passes(test, *number, given),
        Value::Word(word) => word_passes(test, word, given),
    }
}
