//! What expressions say as conditions over parameters and extensions.

ghost use Rattle.std.specs.Prelude.{◌≡◌, ◌%◌, ◌^◌, ◌∷◌, ◌++◌, [], IfOk, Some};
ghost use Rattle.std.specs.List.{list_any};
ghost use Rattle.udb_base.specs.declared.conditions.Cond.TheVariants as conds;
ghost use Rattle.udb_spec.specs.Conditions.{same_bytes};
ghost use Rattle.udb_cond.specs.Requirements.{requirement_of};
ghost use Rattle.idl_spec.specs.Shapes as shapes;
ghost use Rattle.idl_spec.specs.Formulas as meant;
ghost use Rattle.idl_spec.specs.Formulas.{side, parameter_side, test_of, mirrored, compares, number_test, equality, same_truth, comparison, word_formula, lists_extension, version_formula, compared, claims, truth_cond};
ghost use Rattle.idl_spec.specs.TestPlaces as places;
ghost use Rattle.type_kinds.specs.Formulas.{side_of, literal_side, flag_cond, word_cond, negated_formula, both_some, all_of, any_of, extension_formula};

use crate::views::parameter_named;
use idl_tree::{Binary, Expr, Unary, Width};
use std::alloc::Global;
use udb_base::{
    Boxed, Chars, Cond, Conds, Copied, Domain, ExtSpace, Many, Name, NoMemory, Requirement, Space,
    Test, Value, both, copy_all, copy_two,
};
use udb_cond::parse_requirement;

/// A side of a comparison, as far as formulas know it.
#[derive(Clone, Copy)]
pub(crate) enum Operand<'a> {
    Literal(u128),
    Number(&'a Name),
    Truth(bool),
    Flag(&'a Name),
    Text(&'a Chars),
    Word(&'a Name),
    Other,
}

// A parameter, by its domain.
fn parameter_side<'a>(space: &Space, name: &'a Name) -> Operand<'a>
    ensures { side_of result
        ≡ parameter_side name.now (shapes.parameter_named space.now.params name.now) }
{
    match parameter_named(space.params.as_slice(), name.as_str()) {
        Some(param) => match &param.domain {
            Domain::Flags => Operand::Flag(name),
            Domain::Numbers(_) => Operand::Number(name),
            Domain::Range { low: _, high: _ } => Operand::Number(name),
            Domain::Words(_) => Operand::Word(name),
        },
        None => Operand::Other,
    }
}

// A number modulo two to the power of a width.
#[tactic(auto, using(crate::proofs::FormulaForms::wide_laws))]
fn truncated(width: u32, number: u128) -> u128
    ensures { result ≡ number % 2 ^ width }
{
    if width >= 128 {
        return number;
    }
    number % (1 << width)
}

// A literal with a width, where the width is a number and there is no sign.
fn literal_side<'a>(width: &Width, signed: bool, number: u128) -> Operand<'a>
    ensures { side_of result ≡ literal_side width.now signed number }
{
    if signed {
        return Operand::Other;
    }
    match width {
        Width::Number(width) => Operand::Literal(truncated(*width, number)),
        _ => Operand::Other,
    }
}

// A side of a comparison.
fn side<'a>(space: &Space, e: &'a Expr) -> Operand<'a>
    ensures { side_of result ≡ side space.now e.now }
{
    match e {
        Expr::Number(number) => Operand::Literal(*number),
        Expr::Sized {
            width,
            signed,
            value,
        } => literal_side(width, *signed, *value),
        Expr::Flag(flag) => Operand::Truth(*flag),
        Expr::Text(text) => Operand::Text(text),
        Expr::Word(name) => parameter_side(space, name),
        _ => Operand::Other,
    }
}

fn test_of(sign: Binary) -> Option<Test>
    ensures { result ≡ test_of sign }
{
    match sign {
        Binary::Equal => Some(Test::Equal),
        Binary::NotEqual => Some(Test::NotEqual),
        Binary::Below => Some(Test::Below),
        Binary::AtMost => Some(Test::AtMost),
        Binary::Above => Some(Test::Above),
        Binary::AtLeast => Some(Test::AtLeast),
        _ => None,
    }
}

// The test of the sides exchanged.
fn mirrored(test: Test) -> Test
    ensures { result ≡ mirrored test }
{
    match test {
        Test::Above => Test::Below,
        Test::AtLeast => Test::AtMost,
        Test::Below => Test::Above,
        Test::AtMost => Test::AtLeast,
        Test::Equal => Test::Equal,
        Test::NotEqual => Test::NotEqual,
    }
}

fn compares(test: Test, x: u128, y: u128) -> bool
    ensures { result ≡ compares test x y }
{
    match test {
        Test::Equal => x == y,
        Test::NotEqual => x != y,
        Test::Above => y < x,
        Test::AtLeast => y <= x,
        Test::Below => x < y,
        Test::AtMost => x <= y,
    }
}

fn truth_cond(truth: bool) -> Cond
    ensures { result ≡ truth_cond truth }
{
    if truth { Cond::Always } else { Cond::Never }
}

// A parameter's numbers lie below two to the power of 64.
fn number_test(alloc: Global, test: Test, name: &Name, number: u128) -> Result<Cond, NoMemory>
    ensures { IfOk result (λ c. c ≡ number_test test name.now number) }
{
    if number >= 1 << 64 {
        return Ok(truth_cond(compares(test, 0, number)));
    }
    let name = name.copy(alloc)?;
    let value = Value::Number(number as u64);
    Ok(Cond::Param { name, test, value })
}

// A Boolean parameter beside a truth value.
fn flag_cond(alloc: Global, test: Test, name: &Name, flag: bool) -> Result<Cond, NoMemory>
    ensures { IfOk result (λ c. c ≡ flag_cond test name.now flag) }
{
    let name = name.copy(alloc)?;
    let value = Value::Flag(flag);
    Ok(Cond::Param { name, test, value })
}

// A parameter of texts beside a text.
fn word_cond(alloc: Global, test: Test, name: &Name, text: &Chars) -> Result<Cond, NoMemory>
    ensures { IfOk result (λ c. c ≡ word_cond test name.now text.now) }
{
    let (name, text) = copy_two(alloc, name, text)?;
    let value = Value::Word(text);
    Ok(Cond::Param { name, test, value })
}

// A condition of `==` or `!=`.
fn equality(test: Test, cond: Cond) -> Option<Cond>
    ensures { result ≡ equality test cond }
{
    match test {
        Test::Equal | Test::NotEqual => Some(cond),
        Test::Above | Test::AtLeast | Test::Below | Test::AtMost => None,
    }
}

// What a test says of two sides, of which at most one is a parameter.
fn comparison(alloc: Global, test: Test, x: Operand, y: Operand) -> Result<Option<Cond>, NoMemory>
    ensures { IfOk result (λ o. o ≡ comparison test (side_of x.entry) (side_of y.entry)) }
{
    match x {
        Operand::Literal(m) => match y {
            Operand::Literal(n) => Ok(Some(truth_cond(compares(test, m, n)))),
            Operand::Number(name) => Ok(Some(number_test(alloc, mirrored(test), name, m)?)),
            _ => Ok(None),
        },
        Operand::Number(name) => match y {
            Operand::Literal(n) => Ok(Some(number_test(alloc, test, name, n)?)),
            _ => Ok(None),
        },
        Operand::Truth(flag) => match y {
            Operand::Truth(other) => Ok(equality(test, truth_cond(same_truth(test, flag, other)))),
            Operand::Flag(name) => Ok(equality(test, flag_cond(alloc, test, name, flag)?)),
            _ => Ok(None),
        },
        Operand::Flag(name) => match y {
            Operand::Truth(flag) => Ok(equality(test, flag_cond(alloc, test, name, flag)?)),
            _ => Ok(None),
        },
        Operand::Text(text) => match y {
            Operand::Word(name) => Ok(equality(test, word_cond(alloc, test, name, text)?)),
            _ => Ok(None),
        },
        Operand::Word(name) => match y {
            Operand::Text(text) => Ok(equality(test, word_cond(alloc, test, name, text)?)),
            _ => Ok(None),
        },
        Operand::Other => Ok(None),
    }
}

fn same_truth(test: Test, x: bool, y: bool) -> bool
    ensures { result ≡ same_truth test x y }
{
    compares(test, u128::from(x), u128::from(y))
}

// What a sign says of two operands that are no tests.
fn compared(
    alloc: Global,
    space: &Space,
    sign: Binary,
    left: &Expr,
    right: &Expr,
) -> Result<Option<Cond>, NoMemory>
    ensures { IfOk result (λ o. o ≡ compared space.now (test_of sign) left.now right.now) }
{
    match test_of(sign) {
        Some(test) => comparison(alloc, test, side(space, left), side(space, right)),
        None => Ok(None),
    }
}

// A Boolean parameter says that it is true.
fn word_formula(alloc: Global, space: &Space, name: &Name) -> Result<Option<Cond>, NoMemory>
    ensures { IfOk result (λ o. o ≡ word_formula
        (parameter_side name.now (shapes.parameter_named space.now.params name.now))) }
{
    match parameter_side(space, name) {
        Operand::Flag(name) => Ok(Some(flag_cond(alloc, Test::Equal, name, true)?)),
        _ => Ok(None),
    }
}

fn is_extension(extension: &ExtSpace, name: &Name) -> bool
    ensures { result ≡ same_bytes extension.now.name name.now }
{
    extension.name == *name
}

/// Whether a space has an extension of a name.
pub fn lists_extension(space: &Space, name: &Name) -> bool
    ensures { result ≡ lists_extension space.now name.now }
{
    let extensions = space.extensions.as_slice();
    extensions
        .iter()
        .any(|extension| is_extension(extension, name))
}

// An extension in a version that meets the requirements.
fn extension_cond(alloc: Global, name: &Name, needs: &[Requirement]) -> Result<Cond, NoMemory>
    ensures { IfOk result (λ c. c ≡ conds.Ext name.now needs.now) }
{
    let (name, needs) = both(name.copy(alloc), Many::from_slice(alloc, needs))?;
    Ok(Cond::Ext { name, needs })
}

fn extension_formula(alloc: Global, space: &Space, name: &Name) -> Result<Option<Cond>, NoMemory>
    ensures { IfOk result (λ o. o ≡ extension_formula space.now name.now) }
{
    if lists_extension(space, name) {
        return Ok(Some(extension_cond(alloc, name, &[])?));
    }
    Ok(None)
}

/// The requirement that a text spells.
pub fn requirement(text: &Chars) -> Option<Requirement>
    ensures { result ≡ requirement_of text.now }
{
    match parse_requirement(text.as_str()) {
        Ok(need) => Some(need),
        Err(_) => None,
    }
}

fn version_formula(
    alloc: Global,
    space: &Space,
    name: &Name,
    text: &Chars,
) -> Result<Option<Cond>, NoMemory>
    ensures { IfOk result (λ o. o ≡ version_formula space.now name.now text.now) }
{
    if !lists_extension(space, name) {
        return Ok(None);
    }
    match requirement(text) {
        Some(need) => Ok(Some(extension_cond(alloc, name, &[need])?)),
        None => Ok(None),
    }
}

fn not_cond(alloc: Global, part: Cond) -> Result<Cond, NoMemory>
    ensures { IfOk result (λ c. c ≡ conds.Not part) }
{
    Ok(Cond::Not(Boxed::new(alloc, part)?))
}

fn negated(alloc: Global, part: Option<Cond>) -> Result<Option<Cond>, NoMemory>
    ensures { IfOk result (λ o. o ≡ negated_formula part) }
{
    match part {
        Some(part) => Ok(Some(not_cond(alloc, part)?)),
        None => Ok(None),
    }
}

// Both, where there are both.
fn both_some<T: Drop>(a: Option<T>, b: Option<T>) -> Option<(T, T)>
    ensures { result ≡ both_some a b }
{
    match a {
        Some(a) => match b {
            Some(b) => Some((a, b)),
            None => None,
        },
        None => None,
    }
}

// A list of two.
fn pair<T: Drop>(alloc: Global, a: T, b: T) -> Result<Many<T>, NoMemory>
    ensures { IfOk result (λ ts. ts ≡ a ∷ b ∷ []) }
{
    let mut parts = Many::new(alloc);
    parts.push(a)?;
    parts.push(b)?;
    Ok(parts)
}

// Both conditions, where both operands are formulas.
fn all_of(alloc: Global, x: Option<Cond>, y: Option<Cond>) -> Result<Option<Cond>, NoMemory>
    ensures { IfOk result (λ o. o ≡ all_of x y) }
{
    match both_some(x, y) {
        Some((x, y)) => Ok(Some(Cond::All(pair(alloc, x, y)?))),
        None => Ok(None),
    }
}

// One of two conditions, where both operands are formulas.
fn any_of(alloc: Global, x: Option<Cond>, y: Option<Cond>) -> Result<Option<Cond>, NoMemory>
    ensures { IfOk result (λ o. o ≡ any_of x y) }
{
    match both_some(x, y) {
        Some((x, y)) => Ok(Some(Cond::Any(pair(alloc, x, y)?))),
        None => Ok(None),
    }
}

/// The condition that an expression is: the truth of a Boolean parameter, a comparison with at most
/// one parameter, a test for an extension, and `!`, `&&` and `||` of these. None where it is no such
/// formula. The one refusal is want of memory.
#[tactic(auto, using(crate::proofs::FormulaForms::formula_laws))]
pub fn as_formula(alloc: Global, space: &Space, e: &Expr) -> Result<Option<Cond>, NoMemory>
    ensures { IfOk result (λ o. o ≡ (claims space.now e.now).formula) }
{
    match e {
        Expr::Flag(flag) => Ok(Some(truth_cond(*flag))),
        Expr::Word(name) => word_formula(alloc, space, name),
        Expr::Unary { sign, of } => match sign {
            Unary::Not => negated(alloc, as_formula(alloc, space, of.get())?),
            Unary::Invert | Unary::Minus => Ok(None),
        },
        Expr::Binary { sign, left, right } => match sign {
            Binary::And => {
                let x = as_formula(alloc, space, left.get());
                let (x, y) = both(x, as_formula(alloc, space, right.get()))?;
                all_of(alloc, x, y)
            }
            Binary::Or => {
                let x = as_formula(alloc, space, left.get());
                let (x, y) = both(x, as_formula(alloc, space, right.get()))?;
                any_of(alloc, x, y)
            }
            _ => compared(alloc, space, *sign, left.get(), right.get()),
        },
        Expr::Implemented(name) => extension_formula(alloc, space, name),
        Expr::ImplementedVersion { extension, text } => {
            version_formula(alloc, space, extension, text)
        }
        _ => Ok(None),
    }
}

// What is known where a test is true.
#[cycle(known)]
#[tactic(auto, using(crate::proofs::FormulaForms::known_laws))]
fn when_true(alloc: Global, space: &Space, test: &Expr) -> Result<Cond, NoMemory>
    ensures { IfOk result (λ c. c ≡ (claims space.now test.now).when_true) }
{
    match as_formula(alloc, space, test)? {
        Some(formula) => Ok(formula),
        None => match test {
            Expr::Unary { sign, of } => match sign {
                Unary::Not => when_false(alloc, space, of.get()),
                Unary::Invert | Unary::Minus => Ok(Cond::Always),
            },
            Expr::Binary { sign, left, right } => match sign {
                Binary::And => {
                    let x = when_true(alloc, space, left.get());
                    let (x, y) = both(x, when_true(alloc, space, right.get()))?;
                    Ok(Cond::All(pair(alloc, x, y)?))
                }
                _ => Ok(Cond::Always),
            },
            _ => Ok(Cond::Always),
        },
    }
}

// What is known where a test is false.
#[cycle(known)]
#[tactic(auto, using(crate::proofs::FormulaForms::known_laws))]
fn when_false(alloc: Global, space: &Space, test: &Expr) -> Result<Cond, NoMemory>
    ensures { IfOk result (λ c. c ≡ (claims space.now test.now).when_false) }
{
    match as_formula(alloc, space, test)? {
        Some(formula) => not_cond(alloc, formula),
        None => match test {
            Expr::Unary { sign, of } => match sign {
                Unary::Not => when_true(alloc, space, of.get()),
                Unary::Invert | Unary::Minus => Ok(Cond::Always),
            },
            Expr::Binary { sign, left, right } => match sign {
                Binary::Or => {
                    let x = when_false(alloc, space, left.get());
                    let (x, y) = both(x, when_false(alloc, space, right.get()))?;
                    Ok(Cond::All(pair(alloc, x, y)?))
                }
                _ => Ok(Cond::Always),
            },
            _ => Ok(Cond::Always),
        },
    }
}

// A context with one more condition.
fn with_more(alloc: Global, context: &[Cond], more: Cond) -> Result<Conds, NoMemory>
    ensures { IfOk result (λ cs. cs ≡ context.now ++ more ∷ []) }
{
    let (mut all, more) = both(copy_all(alloc, context), Ok(more))?;
    all.push(more)?;
    Ok(all)
}

/// The context where a test is true. The one refusal is want of memory.
pub fn where_true(
    alloc: Global,
    space: &Space,
    test: &Expr,
    context: &[Cond],
) -> Result<Conds, NoMemory>
    ensures { IfOk result (λ cs. cs ≡ places.where_true space.now test.now context.now) }
{
    with_more(alloc, context, when_true(alloc, space, test)?)
}

/// The context where a test is false. The one refusal is want of memory.
pub fn where_false(
    alloc: Global,
    space: &Space,
    test: &Expr,
    context: &[Cond],
) -> Result<Conds, NoMemory>
    ensures { IfOk result (λ cs. cs ≡ places.where_false space.now test.now context.now) }
{
    with_more(alloc, context, when_false(alloc, space, test)?)
}
