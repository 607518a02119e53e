//! Domains of parameters, and the values and tests that fit them.

ghost use Rattle.std.specs.Prelude.{◌≡◌, ◌↔◌, [], IsTrue};
ghost use Rattle.std.specs.List.{list_all};
ghost use Rattle.udb_spec.specs.Lawful.{is_of_kind, is_equality, test_fits, IsLawfulDomain, ListsWidths};
ghost use Rattle.udb_lawful.specs.Tests.{is_width};

use udb_base::{Domain, Test, Value, are_distinct};

fn is_number(value: &Value) -> bool
    ensures { result ≡ is_of_kind (Domain.Numbers []) value.now }
{
    match value {
        Value::Flag(_) => false,
        Value::Number(_) => true,
        Value::Word(_) => false,
    }
}

/// Whether a value is of a domain's kind; it need not be one of the domain.
pub fn fits_domain(domain: &Domain, value: &Value) -> bool
    ensures { result ≡ is_of_kind domain.now value.now }
{
    match domain {
        Domain::Flags => match value {
            Value::Flag(_) => true,
            Value::Number(_) => false,
            Value::Word(_) => false,
        },
        Domain::Numbers(_) => is_number(value),
        Domain::Range { low: _, high: _ } => is_number(value),
        Domain::Words(_) => match value {
            Value::Flag(_) => false,
            Value::Number(_) => false,
            Value::Word(_) => true,
        },
    }
}

fn is_equality(test: Test) -> bool
    ensures { result ≡ is_equality test }
{
    match test {
        Test::Equal => true,
        Test::NotEqual => true,
        Test::Above | Test::AtLeast | Test::Below | Test::AtMost => false,
    }
}

/// Whether a test may be asked of a domain: the order is for numbers alone.
pub(crate) fn test_fits(domain: &Domain, test: Test) -> bool
    ensures { result ≡ test_fits domain.now test }
{
    match domain {
        Domain::Flags => is_equality(test),
        Domain::Numbers(_) => true,
        Domain::Range { low: _, high: _ } => true,
        Domain::Words(_) => is_equality(test),
    }
}

/// Whether a domain lists a value and none twice, or is a range that isn't empty.
pub fn is_lawful_domain(domain: &Domain) -> bool
    ensures { IsTrue result ↔ IsLawfulDomain domain.now }
{
    match domain {
        Domain::Flags => true,
        Domain::Numbers(numbers) => { !numbers.is_empty() && are_distinct(numbers.as_slice()) }
        Domain::Range { low, high } => low <= high,
        Domain::Words(words) => !words.is_empty() && are_distinct(words.as_slice()),
    }
}

fn is_width(number: u64) -> bool
    ensures { result ≡ is_width number }
{
    number == 32 || number == 64
}

fn are_widths(numbers: &[u64]) -> bool
    ensures { result ≡ list_all is_width numbers.now }
{
    for number in numbers {
        if !is_width(*number) {
            return false;
        }
    }
    true
}

/// Whether a domain lists no number but 32 and 64.
pub fn lists_widths(domain: &Domain) -> bool
    ensures { IsTrue result ↔ ListsWidths domain.now }
{
    match domain {
        Domain::Flags => false,
        Domain::Numbers(numbers) => are_widths(numbers.as_slice()),
        Domain::Range { low: _, high: _ } => false,
        Domain::Words(_) => false,
    }
}
