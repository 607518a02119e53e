//! Whether the variables of an encoding are lawful.

ghost use Rattle.std.specs.Prelude.{◌≡◌, ◌↔◌, min, sum_by, IsTrue};
ghost use Rattle.std.specs.List.{list_all};
ghost use Rattle.udb_base.specs.Lists.{is_among, are_distinct};
ghost use Rattle.idl_spec.specs.Fields.{part_width};
ghost use Rattle.idl_forms.specs.Ready.{AreLawfulVariables};
ghost use Rattle.idl_lawful.specs.Tests.{is_part_of_word, is_lawful_variable, meet, is_same_variable, pass};

use idl_tree::{Base, BitPart, Variable};

fn are_parts_of_word(parts: &[BitPart]) -> bool
    ensures { result ≡ list_all is_part_of_word parts.now }
{
    for part in parts {
        if part.high < part.low || 32 <= part.high {
            return false;
        }
    }
    true
}

// How many bits parts have together, where they have at most 1,000.
fn bits_of_parts(parts: &[BitPart]) -> u32
    ensures { result ≡ min (sum_by part_width parts.now) 1000 }
{
    let mut sum: u32 = 0;
    for part in parts {
        let width = u32::from(part.high.saturating_sub(part.low)) + 1;
        sum = (sum + width).min(1000);
    }
    sum
}

fn is_lawful_variable(variable: &Variable) -> bool
    ensures { result ≡ is_lawful_variable variable.now }
{
    let parts = variable.location.as_slice();
    let bits = bits_of_parts(parts);
    are_parts_of_word(parts) && 1 <= bits && bits <= 32 && variable.shift <= 31
}

fn meet(a: Base, b: Base) -> bool
    ensures { result ≡ meet a b }
{
    match a {
        Base::All => true,
        Base::Rv32 => b != Base::Rv64,
        Base::Rv64 => b != Base::Rv32,
    }
}

fn is_variable_among(variable: &Variable, others: &[Variable]) -> bool
    ensures { result ≡ is_among is_same_variable variable.now others.now }
{
    for other in others {
        if meet(variable.base, other.base) && variable.name == other.name {
            return true;
        }
    }
    false
}

fn are_distinct_variables(variables: &[Variable]) -> bool
    ensures { result ≡ are_distinct is_same_variable variables.now }
{
    for (place, variable) in variables.iter().enumerate() {
        if is_variable_among(variable, &variables[place + 1..]) {
            return false;
        }
    }
    true
}

fn is_each_lawful(variables: &[Variable]) -> bool
    ensures { result ≡ list_all is_lawful_variable variables.now }
{
    for variable in variables {
        if !is_lawful_variable(variable) {
            return false;
        }
    }
    true
}

fn pass(variables: &[Variable]) -> bool
    ensures { result ≡ pass variables.now }
{
    is_each_lawful(variables) && are_distinct_variables(variables)
}

/// Whether each variable has 1 to 32 bits of a word and a shift of at most 31, and no two of one
/// name stand for the same width of the registers. It takes no memory.
pub fn are_lawful_variables(variables: &[Variable]) -> bool
    ensures { IsTrue result ↔ AreLawfulVariables variables.now }
{
    pass(variables)
}
