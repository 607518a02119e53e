//! The issues of widths and shapes.

ghost use Rattle.std.specs.Prelude.{◌≡◌, ◌++◌, ◌∷◌, [], OnOk, nat_le};
ghost use Rattle.std.specs.List.{list_any, list_all};
ghost use Rattle.udb_spec.specs.Conditions.{same_bytes};
ghost use Rattle.idl_spec.specs.Demands.{demand, in_range, in_slice, is_width_domain, width_word_issues, bits_issues, width_issues, kind_issues, shape_issues, slice_issues};
ghost use Rattle.type_kinds.specs.Kinds.{kind_if_any};
ghost use Rattle.type_kinds.specs.Views.{view_of};
ghost use Rattle.type_issues.specs.Issues.{issues_of, lowest, highest};

use crate::issues::{Demand, Issues, Limits, push_demand, push_mismatch, push_unknown};
use crate::names::field_issues;
use idl_tree::{Shape, Variable, Width};
use std::alloc::Global;
use type_kinds::{Kind, View, boxed_copy, parameter_named};
use udb_base::{Domain, Name, NoMemory, both};

fn are_small(numbers: &[u64]) -> bool
    ensures { result ≡ list_all (λ n. nat_le n 65535) numbers.now }
{
    for number in numbers {
        if *number > 65_535 {
            return false;
        }
    }
    true
}

fn is_width_domain(domain: &Domain) -> bool
    ensures { result ≡ is_width_domain domain.now }
{
    match domain {
        Domain::Numbers(numbers) => are_small(numbers.as_slice()),
        Domain::Flags | Domain::Range { low: _, high: _ } | Domain::Words(_) => false,
    }
}

// A word of a width: a parameter that lists its values, none above 65,535.
fn width_word_issues(
    alloc: Global,
    view: &View,
    name: &Name,
    issues: &mut Issues,
) -> Result<(), NoMemory>
    ensures { OnOk result (issues_of issues.new
        ≡ issues_of issues.old ++ width_word_issues (view_of view.now) name.now) }
{
    match parameter_named(view.space.params.as_slice(), name.as_str()) {
        Some(param) => push_mismatch(issues, is_width_domain(&param.domain)),
        None => push_unknown(alloc, issues, false, name),
    }
}

fn has_variable(variables: &[Variable], name: &Name) -> bool
    ensures { result ≡ list_any (λ v. same_bytes v.name name.now) variables.now }
{
    for variable in variables {
        if variable.name == *name {
            return true;
        }
    }
    false
}

fn bits_issues(
    alloc: Global,
    view: &View,
    csr: &Option<Name>,
    name: &Name,
    issues: &mut Issues,
) -> Result<(), NoMemory>
    ensures { OnOk result (issues_of issues.new
        ≡ issues_of issues.old ++ bits_issues (view_of view.now) csr.now name.now) }
{
    match csr {
        Some(csr) => field_issues(alloc, view, csr, name, issues),
        None => push_unknown(alloc, issues, has_variable(view.variables, name), name),
    }
}

/// Raises the issues of the names in a width. The one refusal is want of memory.
#[tactic(auto, using(crate::proofs::IssueLaws::width_laws))]
pub fn width_issues(
    alloc: Global,
    view: &View,
    width: &Width,
    issues: &mut Issues,
) -> Result<(), NoMemory>
    ensures { OnOk result (issues_of issues.new
        ≡ issues_of issues.old ++ width_issues (view_of view.now) width.now) }
{
    match width {
        Width::Number(_) => Ok(()),
        Width::Word(name) => width_word_issues(alloc, view, name, issues),
        Width::Plus(a, b) => {
            width_issues(alloc, view, a.get(), issues)?;
            width_issues(alloc, view, b.get(), issues)
        }
        Width::Minus(a, b) => {
            width_issues(alloc, view, a.get(), issues)?;
            width_issues(alloc, view, b.get(), issues)
        }
        Width::Times(a, b) => {
            width_issues(alloc, view, a.get(), issues)?;
            width_issues(alloc, view, b.get(), issues)
        }
        Width::Max(a, b) => {
            width_issues(alloc, view, a.get(), issues)?;
            width_issues(alloc, view, b.get(), issues)
        }
        Width::Bits { csr, name } => bits_issues(alloc, view, csr, name, issues),
    }
}

/// Demands that a width lies within limits. The one refusal is want of memory.
pub fn ranged(
    alloc: Global,
    issues: &mut Issues,
    limits: Limits,
    width: &Width,
) -> Result<(), NoMemory>
    ensures { OnOk result (issues_of issues.new ≡ issues_of issues.old
        ++ demand (in_range (lowest limits) (highest limits) width.now) ∷ []) }
{
    let width = boxed_copy(alloc, width)?;
    push_demand(issues, Demand::InRange { limits, width })
}

/// Demands that bits have a width of 1 to 128. The one refusal is want of memory.
pub fn kind_issues(issues: &mut Issues, kind: Option<Kind>) -> Result<(), NoMemory>
    ensures { OnOk result (issues_of issues.new
        ≡ issues_of issues.old ++ kind_issues (kind_if_any kind)) }
{
    let Some(kind) = kind else {
        return Ok(());
    };
    match kind {
        Kind::Bits { width, signed: _ } => {
            let limits = Limits::Width;
            push_demand(issues, Demand::InRange { limits, width })
        }
        Kind::Flag => Ok(()),
        Kind::Member(_) => Ok(()),
        Kind::GivenText => Ok(()),
        Kind::WrittenText => Ok(()),
    }
}

/// Raises the issues of a declared shape. The one refusal is want of memory.
#[tactic(auto, using(crate::proofs::IssueLaws::appends))]
pub fn shape_issues(
    alloc: Global,
    view: &View,
    shape: &Shape,
    issues: &mut Issues,
) -> Result<(), NoMemory>
    ensures { OnOk result (issues_of issues.new
        ≡ issues_of issues.old ++ shape_issues (view_of view.now) shape.now) }
{
    match shape {
        Shape::Bits { signed: _, width } => {
            width_issues(alloc, view, width, issues)?;
            ranged(alloc, issues, Limits::Width, width)
        }
        Shape::Boolean => Ok(()),
        Shape::Enum(_) => Ok(()),
    }
}

/// Demands that two places cut a slice out of bits. The one refusal is want of memory.
pub fn slice_issues(
    alloc: Global,
    view: &View,
    kind: &Option<Kind>,
    high: &Width,
    low: &Width,
    issues: &mut Issues,
) -> Result<(), NoMemory>
    ensures { OnOk result (issues_of issues.new ≡ issues_of issues.old
        ++ slice_issues (view_of view.now) (kind_if_any kind.now) high.now low.now) }
{
    let Some(kind) = kind else {
        return Ok(());
    };
    match kind {
        Kind::Bits { width, signed: _ } => slice_of(alloc, issues, high, low, width.get()),
        Kind::Flag => Ok(()),
        Kind::Member(_) => Ok(()),
        Kind::GivenText => Ok(()),
        Kind::WrittenText => Ok(()),
    }
}

fn slice_of(
    alloc: Global,
    issues: &mut Issues,
    high: &Width,
    low: &Width,
    of: &Width,
) -> Result<(), NoMemory>
    ensures { OnOk result (issues_of issues.new
        ≡ issues_of issues.old ++ demand (in_slice high.now low.now of.now) ∷ []) }
{
    let ends = both(boxed_copy(alloc, high), boxed_copy(alloc, low));
    let ((high, low), of) = both(ends, boxed_copy(alloc, of))?;
    push_demand(issues, Demand::InSlice { high, low, of })
}
