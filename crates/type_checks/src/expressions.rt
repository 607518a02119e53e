//! The checks of expressions.

ghost use Rattle.std.specs.Prelude.{◌≡◌, ◌++◌, ◌∷◌, [], flat_map, OnOk};
ghost use Rattle.idl_spec.specs.Checks.{check, expr_checks};
ghost use Rattle.idl_spec.specs.Demands.{csr_word_issues};
ghost use Rattle.type_kinds.specs.Views.{view_of};
ghost use Rattle.type_issues.specs.Issues.{issues_of, checks_of};
ghost use Rattle.type_checks.specs.Nodes.{node_check};

use crate::own::own_issues;
use idl_tree::{Binary, Expr};
use std::alloc::Global;
use type_issues::{Check, Checks, Issues, csr_word, csr_word_issues, kind_issues};
use type_kinds::{View, shape, where_false, where_true};
use udb_base::{Cond, Many, Name, NoMemory, both, copy_all};

/// Appends a check. The one refusal is want of memory.
pub(crate) fn push_check(
    alloc: Global,
    context: &[Cond],
    issues: Issues,
    checks: &mut Checks,
) -> Result<(), NoMemory>
    ensures { OnOk result (checks_of checks.new
        ≡ checks_of checks.old ++ check context.now (issues_of issues) ∷ []) }
{
    let (context, issues) = both(copy_all(alloc, context), Ok(issues))?;
    checks.push(Check { context, issues })?;
    Ok(())
}

// Appends the check of an expression itself.
#[tactic(auto, unfolding(crate::specs::Nodes::node_check))]
fn push_node(
    alloc: Global,
    view: &View,
    e: &Expr,
    context: &[Cond],
    checks: &mut Checks,
) -> Result<(), NoMemory>
    ensures { OnOk result (checks_of checks.new
        ≡ checks_of checks.old ++ node_check (view_of view.now) e.now context.now ∷ []) }
{
    let mut issues = Many::new(alloc);
    own_issues(alloc, view, e, &mut issues)?;
    let kind = shape(alloc, view, e)?;
    kind_issues(&mut issues, kind)?;
    push_check(alloc, context, issues, checks)
}

/// Appends the check of the word of a CSR. The one refusal is want of memory.
pub(crate) fn push_csr_word(
    alloc: Global,
    view: &View,
    name: &Name,
    context: &[Cond],
    checks: &mut Checks,
) -> Result<(), NoMemory>
    ensures { OnOk result (checks_of checks.new ≡ checks_of checks.old
        ++ check context.now (csr_word_issues (view_of view.now) name.now) ∷ []) }
{
    let mut issues = Many::new(alloc);
    csr_word_issues(alloc, view, name, &mut issues)?;
    push_check(alloc, context, issues, checks)
}

/// Appends the checks of an expression and of the nodes below it, in a context. The one refusal is
/// want of memory.
#[cycle(expression_checks)]
#[tactic(auto, using(crate::proofs::WalkForms::walk_laws))]
pub fn push_checks(
    alloc: Global,
    view: &View,
    e: &Expr,
    context: &[Cond],
    checks: &mut Checks,
) -> Result<(), NoMemory>
    ensures { OnOk result (checks_of checks.new
        ≡ checks_of checks.old ++ expr_checks (view_of view.now) e.now context.now) }
{
    push_node(alloc, view, e, context, checks)?;
    match e {
        Expr::Number(_) => Ok(()),
        Expr::Sized {
            width: _,
            signed: _,
            value: _,
        } => Ok(()),
        Expr::Text(_) => Ok(()),
        Expr::Flag(_) => Ok(()),
        Expr::Word(_) => Ok(()),
        Expr::Member { kind: _, name: _ } => Ok(()),
        Expr::Unary { sign: _, of } => push_checks(alloc, view, of.get(), context, checks),
        Expr::Binary { sign, left, right } => {
            push_checks(alloc, view, left.get(), context, checks)?;
            match sign {
                Binary::And => {
                    let inner = where_true(alloc, view.space, left.get(), context)?;
                    push_checks(alloc, view, right.get(), inner.as_slice(), checks)
                }
                Binary::Or => {
                    let inner = where_false(alloc, view.space, left.get(), context)?;
                    push_checks(alloc, view, right.get(), inner.as_slice(), checks)
                }
                _ => push_checks(alloc, view, right.get(), context, checks),
            }
        }
        Expr::WideLeft { left, by: _ } => push_checks(alloc, view, left.get(), context, checks),
        Expr::Choice { test, yes, no } => {
            push_checks(alloc, view, test.get(), context, checks)?;
            let inner = where_true(alloc, view.space, test.get(), context)?;
            push_checks(alloc, view, yes.get(), inner.as_slice(), checks)?;
            let inner = where_false(alloc, view.space, test.get(), context)?;
            push_checks(alloc, view, no.get(), inner.as_slice(), checks)
        }
        Expr::Join(parts) => push_all(alloc, view, parts.as_slice(), context, checks),
        Expr::Repeat { times: _, of } => push_checks(alloc, view, of.get(), context, checks),
        Expr::Index { of, at } => {
            push_checks(alloc, view, of.get(), context, checks)?;
            push_checks(alloc, view, at.get(), context, checks)
        }
        Expr::Slice {
            of,
            high: _,
            low: _,
        } => push_checks(alloc, view, of.get(), context, checks),
        Expr::Call { name: _, args } => push_all(alloc, view, args.as_slice(), context, checks),
        Expr::Signed(of) => push_checks(alloc, view, of.get(), context, checks),
        Expr::Resize { width: _, of } => push_checks(alloc, view, of.get(), context, checks),
        Expr::Pc => Ok(()),
        Expr::Encoding => Ok(()),
        Expr::Register(at) => push_checks(alloc, view, at.get(), context, checks),
        Expr::Field { csr: _, field: _ } => Ok(()),
        Expr::SoftRead(at) => match csr_word(view, at.get()) {
            Some(name) => push_csr_word(alloc, view, name, context, checks),
            None => push_checks(alloc, view, at.get(), context, checks),
        },
        Expr::ReadMemory { bits: _, at } => push_checks(alloc, view, at.get(), context, checks),
        Expr::NewField(_) => Ok(()),
        Expr::Mode => Ok(()),
        Expr::Implemented(_) => Ok(()),
        Expr::ImplementedVersion {
            extension: _,
            text: _,
        } => Ok(()),
    }
}

/// Appends the checks of expressions, in their order. The one refusal is want of memory.
#[cycle(expression_checks)]
#[tactic(auto, using(crate::proofs::WalkForms::list_laws))]
pub(crate) fn push_all(
    alloc: Global,
    view: &View,
    all: &[Expr],
    context: &[Cond],
    checks: &mut Checks,
) -> Result<(), NoMemory>
    ensures { OnOk result (checks_of checks.new ≡ checks_of checks.old
        ++ flat_map (λ x. expr_checks (view_of view.now) x context.now) all.now) }
{
    for one in all {
        push_checks(alloc, view, one, context, checks)?;
    }
    Ok(())
}
