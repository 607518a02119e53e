//! The checks of targets.

ghost use Rattle.std.specs.Prelude.{◌≡◌, ◌++◌, option_map, IfOk, OnOk};
ghost use Rattle.idl_spec.specs.Demands.{visible_named};
ghost use Rattle.idl_spec.specs.Checks.{local_kind, assigned_issues, target_issues, target_checks, target_kind};
ghost use Rattle.idl_tree.specs.declared.statements.Target.TheVariants as t;
ghost use Rattle.type_kinds.specs.Kinds.{kind_if_any};
ghost use Rattle.type_kinds.specs.Views.{view_of};
ghost use Rattle.type_issues.specs.Issues.{issues_of, checks_of};

use crate::expressions::{push_check, push_checks};
use crate::own::{outside_fields, want_bits};
use idl_tree::{Expr, Target, Width};
use std::alloc::Global;
use type_issues::{
    Checks, Issue, Issues, present_issues, push_issue, push_mismatch, push_unknown, slice_issues,
    width_issues,
};
use type_kinds::{Kind, View, numbered_kind, parameter_named, shape, visible_named};
use udb_base::{Cond, Copied, Many, Name, NoMemory};

// Whether a visible name may be assigned, where it is one.
fn assignable(view: &View, name: &Name) -> Option<bool>
    ensures { result
        ≡ option_map (λ v. v.is_assignable) (visible_named (view_of view.now) name.now) }
{
    match visible_named(view, name) {
        Some(one) => Some(one.is_assignable),
        None => None,
    }
}

// The kind of a visible name.
#[tactic(auto, using(crate::proofs::TargetForms::local_laws))]
fn local_kind(alloc: Global, view: &View, name: &Name) -> Result<Option<Kind>, NoMemory>
    ensures { IfOk result (λ k. kind_if_any k
        ≡ local_kind (visible_named (view_of view.now) name.now)) }
{
    match visible_named(view, name) {
        Some(one) => Ok(Some(one.kind.copy(alloc)?)),
        None => Ok(None),
    }
}

// Raises a name that can't be assigned.
#[tactic(auto, using(crate::proofs::TargetForms::assigned_laws))]
fn assigned_issues(
    alloc: Global,
    view: &View,
    name: &Name,
    issues: &mut Issues,
) -> Result<(), NoMemory>
    ensures { OnOk result (issues_of issues.new ≡ issues_of issues.old
        ++ assigned_issues (view_of view.now) name.now
        (visible_named (view_of view.now) name.now)) }
{
    if let Some(may) = assignable(view, name) {
        return push_mismatch(issues, may);
    }
    match parameter_named(view.space.params.as_slice(), name.as_str()) {
        Some(_) => push_issue(issues, Issue::Mismatch),
        None => push_unknown(alloc, issues, false, name),
    }
}

#[tactic(auto, using(type_issues::proofs::IssueLaws::appends))]
fn bit_issues(
    alloc: Global,
    view: &View,
    name: &Name,
    at: &Expr,
    issues: &mut Issues,
) -> Result<(), NoMemory>
    ensures { OnOk result (issues_of issues.new ≡ issues_of issues.old
        ++ target_issues (view_of view.now) (t.Bit name.now at.now)) }
{
    assigned_issues(alloc, view, name, issues)?;
    want_bits(issues, local_kind(alloc, view, name)?)?;
    want_bits(issues, shape(alloc, view, at)?)
}

#[tactic(auto, using(type_issues::proofs::IssueLaws::appends))]
fn slice_target_issues(
    alloc: Global,
    view: &View,
    name: &Name,
    high: &Width,
    low: &Width,
    issues: &mut Issues,
) -> Result<(), NoMemory>
    ensures { OnOk result (issues_of issues.new ≡ issues_of issues.old
        ++ target_issues (view_of view.now) (t.Slice name.now high.now low.now)) }
{
    assigned_issues(alloc, view, name, issues)?;
    width_issues(alloc, view, high, issues)?;
    width_issues(alloc, view, low, issues)?;
    let kind = local_kind(alloc, view, name)?;
    slice_issues(alloc, view, &kind, high, low, issues)?;
    want_bits(issues, kind)
}

// Raises what a target asks itself.
#[tactic(auto, using(type_issues::proofs::IssueLaws::appends))]
fn target_issues(
    alloc: Global,
    view: &View,
    target: &Target,
    issues: &mut Issues,
) -> Result<(), NoMemory>
    ensures { OnOk result (issues_of issues.new
        ≡ issues_of issues.old ++ target_issues (view_of view.now) target.now) }
{
    match target {
        Target::Word(name) => assigned_issues(alloc, view, name, issues),
        Target::Bit { name, at } => bit_issues(alloc, view, name, at, issues),
        Target::Slice { name, high, low } => {
            slice_target_issues(alloc, view, name, high, low, issues)
        }
        Target::Register(at) => {
            outside_fields(view, issues)?;
            want_bits(issues, shape(alloc, view, at)?)
        }
        Target::Field { csr, field } => {
            outside_fields(view, issues)?;
            present_issues(alloc, view, csr, field, issues)
        }
    }
}

/// The kind that a value has to have for a target.
pub(crate) fn target_kind(
    alloc: Global,
    view: &View,
    target: &Target,
) -> Result<Option<Kind>, NoMemory>
    ensures { IfOk result (λ k. kind_if_any k ≡ target_kind (view_of view.now) target.now) }
{
    match target {
        Target::Word(name) => local_kind(alloc, view, name),
        Target::Bit { name: _, at: _ } => Ok(Some(numbered_kind(alloc, 1)?)),
        Target::Slice {
            name: _,
            high: _,
            low: _,
        } => Ok(Some(numbered_kind(alloc, 1)?)),
        Target::Register(_) => Ok(Some(numbered_kind(alloc, 1)?)),
        Target::Field { csr: _, field: _ } => Ok(Some(numbered_kind(alloc, 1)?)),
    }
}

/// Appends the checks of a target. The one refusal is want of memory.
#[tactic(auto, using(crate::proofs::WalkForms::list_laws))]
pub(crate) fn push_target(
    alloc: Global,
    view: &View,
    target: &Target,
    context: &[Cond],
    checks: &mut Checks,
) -> Result<(), NoMemory>
    ensures { OnOk result (checks_of checks.new
        ≡ checks_of checks.old ++ target_checks (view_of view.now) target.now context.now) }
{
    let mut issues = Many::new(alloc);
    target_issues(alloc, view, target, &mut issues)?;
    push_check(alloc, context, issues, checks)?;
    match target {
        Target::Word(_) => Ok(()),
        Target::Bit { name: _, at } => push_checks(alloc, view, at, context, checks),
        Target::Slice {
            name: _,
            high: _,
            low: _,
        } => Ok(()),
        Target::Register(at) => push_checks(alloc, view, at, context, checks),
        Target::Field { csr: _, field: _ } => Ok(()),
    }
}
