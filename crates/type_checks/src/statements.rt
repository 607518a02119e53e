//! The checks of statements.

ghost use Rattle.std.specs.Prelude.{◌≡◌, ◌++◌, ◌∷◌, [], map, not, is_some, ◌||◌, IfOk, OnOk};
ghost use Rattle.idl_tree.specs.declared.statements.Stmt.TheOpen.{Stmt-F};
ghost use Rattle.idl_spec.specs.Demands.{visible_named};
ghost use Rattle.idl_spec.specs.Shapes.{parameter_named};
ghost use Rattle.idl_spec.specs.Checks.{is_fresh, counter, declares, loop_issues, return_issues, step_checks, address_checks, expr_checks};
ghost use Rattle.type_kinds.specs.Views.{view_of, visible_of};
ghost use Rattle.type_issues.specs.Issues.{issues_of, checks_of};
ghost use Rattle.type_checks.specs.Nodes.{block_at, statement_at, write_issues, turn_issues, loop_check, test_checks};

use crate::expressions::{push_all, push_check, push_checks, push_csr_word};
use crate::own::{access_issues, address_issues, call_issues, outside_fields, want_bits};
use crate::targets::{push_target, target_kind};
use idl_tree::{EnumKind, Expr, Shape, Stmt, Target, Width};
use std::alloc::Global;
use type_issues::{
    Checks, Demand, Issues, Limits, csr_word, has_visible, push_demand, push_mismatch, ranged,
    shape_issues, suits, suits_bits, suits_flag, suits_member, suits_shape, width_issues,
};
use type_kinds::{
    Returns, View, Visible, boxed_copy, declared_kind, numbered_kind, parameter_named, seeing,
    shape, where_false, where_true,
};
use udb_base::{Boxed, Cond, Copied, Many, Name, NoMemory, both, copy_all};

/// Visible names, the innermost last.
pub(crate) type Names = Many<Visible>;

// Whether neither a visible name nor a parameter has a name.
fn is_fresh(view: &View, name: &Name) -> bool
    ensures { result ≡ is_fresh (view_of view.now) name.now }
{
    !(has_visible(view, name) || has_parameter(view, name))
}

/// Whether a parameter has a name.
pub(crate) fn has_parameter(view: &View, name: &Name) -> bool
    ensures { result ≡ is_some (parameter_named view.now.space.now.params name.now) }
{
    match parameter_named(view.space.params.as_slice(), name.as_str()) {
        Some(_) => true,
        None => false,
    }
}

// Appends the check of an expression's statement, and then the expression's.
#[tactic(auto, using(crate::proofs::WalkForms::list_laws))]
fn push_declare(
    alloc: Global,
    view: &View,
    declared: &Shape,
    name: &Name,
    value: &Expr,
    context: &[Cond],
    checks: &mut Checks,
) -> Result<(), NoMemory>
    ensures { OnOk result (checks_of checks.new ≡ checks_of checks.old
        ++ step_checks (view_of view.now) (Stmt-F.Declare declared.now name.now value.now)
        context.now) }
{
    let mut issues = Many::new(alloc);
    shape_issues(alloc, view, declared, &mut issues)?;
    let fits = suits_shape(declared, &shape(alloc, view, value)?);
    push_mismatch(&mut issues, is_fresh(view, name) && fits)?;
    push_check(alloc, context, issues, checks)?;
    push_checks(alloc, view, value, context, checks)
}

#[tactic(auto, using(crate::proofs::WalkForms::list_laws))]
fn push_assign(
    alloc: Global,
    view: &View,
    target: &Target,
    value: &Expr,
    context: &[Cond],
    checks: &mut Checks,
) -> Result<(), NoMemory>
    ensures { OnOk result (checks_of checks.new ≡ checks_of checks.old
        ++ step_checks (view_of view.now) (Stmt-F.Assign target.now value.now) context.now) }
{
    let mut issues = Many::new(alloc);
    let (wanted, kind) = both(target_kind(alloc, view, target), shape(alloc, view, value))?;
    push_mismatch(&mut issues, suits(&wanted, &kind))?;
    push_check(alloc, context, issues, checks)?;
    push_target(alloc, view, target, context, checks)?;
    push_checks(alloc, view, value, context, checks)
}

fn return_issues(
    alloc: Global,
    view: &View,
    value: &Expr,
    issues: &mut Issues,
) -> Result<(), NoMemory>
    ensures { OnOk result (issues_of issues.new
        ≡ issues_of issues.old ++ return_issues (view_of view.now) value.now) }
{
    let kind = shape(alloc, view, value)?;
    match view.returns {
        Returns::Nothing => push_mismatch(issues, false),
        Returns::Shape(shape) => push_mismatch(issues, suits_shape(shape, &kind)),
        Returns::FieldType => push_mismatch(issues, suits_member(EnumKind::CsrFieldType, &kind)),
        Returns::Bits => push_mismatch(issues, suits_bits(&kind)),
    }
}

#[tactic(auto, using(crate::proofs::WalkForms::list_laws))]
fn push_return(
    alloc: Global,
    view: &View,
    value: &Expr,
    context: &[Cond],
    checks: &mut Checks,
) -> Result<(), NoMemory>
    ensures { OnOk result (checks_of checks.new ≡ checks_of checks.old
        ++ step_checks (view_of view.now) (Stmt-F.Return value.now) context.now) }
{
    let mut issues = Many::new(alloc);
    return_issues(alloc, view, value, &mut issues)?;
    push_check(alloc, context, issues, checks)?;
    push_checks(alloc, view, value, context, checks)
}

#[tactic(auto, using(crate::proofs::WalkForms::list_laws))]
fn push_jump(
    alloc: Global,
    view: &View,
    to: &Expr,
    context: &[Cond],
    checks: &mut Checks,
) -> Result<(), NoMemory>
    ensures { OnOk result (checks_of checks.new ≡ checks_of checks.old
        ++ step_checks (view_of view.now) (Stmt-F.Jump to.now) context.now) }
{
    let mut issues = Many::new(alloc);
    outside_fields(view, &mut issues)?;
    want_bits(&mut issues, shape(alloc, view, to)?)?;
    push_check(alloc, context, issues, checks)?;
    push_checks(alloc, view, to, context, checks)
}

#[tactic(auto, using(crate::proofs::WalkForms::list_laws))]
fn push_raise(
    alloc: Global,
    view: &View,
    code: &Expr,
    tval: &Expr,
    context: &[Cond],
    checks: &mut Checks,
) -> Result<(), NoMemory>
    ensures { OnOk result (checks_of checks.new ≡ checks_of checks.old
        ++ step_checks (view_of view.now) (Stmt-F.Raise code.now tval.now) context.now) }
{
    let mut issues = Many::new(alloc);
    outside_fields(view, &mut issues)?;
    let fits = suits_member(EnumKind::ExceptionCode, &shape(alloc, view, code)?);
    push_mismatch(&mut issues, fits)?;
    want_bits(&mut issues, shape(alloc, view, tval)?)?;
    push_check(alloc, context, issues, checks)?;
    push_checks(alloc, view, code, context, checks)?;
    push_checks(alloc, view, tval, context, checks)
}

// Raises what a write to memory asks itself.
#[tactic(auto, using(crate::proofs::WalkForms::list_laws))]
fn write_issues(
    alloc: Global,
    view: &View,
    bits: u8,
    at: &Expr,
    value: &Expr,
    issues: &mut Issues,
) -> Result<(), NoMemory>
    ensures { OnOk result (issues_of issues.new ≡ issues_of issues.old
        ++ write_issues (view_of view.now) bits at.now value.now) }
{
    outside_fields(view, issues)?;
    access_issues(bits, issues)?;
    let (x, y) = both(shape(alloc, view, at), shape(alloc, view, value))?;
    push_mismatch(issues, suits_bits(&x) && suits_bits(&y))
}

#[tactic(auto, using(crate::proofs::WalkForms::list_laws))]
fn push_write(
    alloc: Global,
    view: &View,
    bits: u8,
    at: &Expr,
    value: &Expr,
    context: &[Cond],
    checks: &mut Checks,
) -> Result<(), NoMemory>
    ensures { OnOk result (checks_of checks.new ≡ checks_of checks.old
        ++ step_checks (view_of view.now) (Stmt-F.WriteMemory bits at.now value.now)
        context.now) }
{
    let mut issues = Many::new(alloc);
    write_issues(alloc, view, bits, at, value, &mut issues)?;
    push_check(alloc, context, issues, checks)?;
    push_checks(alloc, view, at, context, checks)?;
    push_checks(alloc, view, value, context, checks)
}

// Appends the checks of the address of a CSR.
#[tactic(auto, using(crate::proofs::StepForms::address_laws))]
fn push_address(
    alloc: Global,
    view: &View,
    address: &Expr,
    context: &[Cond],
    checks: &mut Checks,
) -> Result<(), NoMemory>
    ensures { OnOk result (checks_of checks.new ≡ checks_of checks.old
        ++ address_checks (view_of view.now) (
          address.now,
          expr_checks (view_of view.now)
              address.now,
        ) context.now) }
{
    match csr_word(view, address) {
        Some(name) => push_csr_word(alloc, view, name, context, checks),
        None => push_checks(alloc, view, address, context, checks),
    }
}

#[tactic(auto, using(crate::proofs::WalkForms::list_laws))]
fn push_soft_write(
    alloc: Global,
    view: &View,
    address: &Expr,
    value: &Expr,
    context: &[Cond],
    checks: &mut Checks,
) -> Result<(), NoMemory>
    ensures { OnOk result (checks_of checks.new ≡ checks_of checks.old
        ++ step_checks (view_of view.now) (Stmt-F.SoftWrite address.now value.now)
        context.now) }
{
    let mut issues = Many::new(alloc);
    outside_fields(view, &mut issues)?;
    address_issues(alloc, view, address, &mut issues)?;
    want_bits(&mut issues, shape(alloc, view, value)?)?;
    push_check(alloc, context, issues, checks)?;
    push_address(alloc, view, address, context, checks)?;
    push_checks(alloc, view, value, context, checks)
}

#[tactic(auto, using(crate::proofs::WalkForms::list_laws))]
fn push_call(
    alloc: Global,
    view: &View,
    name: &Name,
    args: &[Expr],
    context: &[Cond],
    checks: &mut Checks,
) -> Result<(), NoMemory>
    ensures { OnOk result (checks_of checks.new ≡ checks_of checks.old
        ++ step_checks (view_of view.now) (Stmt-F.Call name.now args.now) context.now) }
{
    let mut issues = Many::new(alloc);
    call_issues(alloc, view, name, args, &mut issues)?;
    push_check(alloc, context, issues, checks)?;
    push_all(alloc, view, args, context, checks)
}

// Demands that a loop has at most 1,024 turns.
fn turn_issues(alloc: Global, from: &Width, to: &Width, issues: &mut Issues) -> Result<(), NoMemory>
    ensures { OnOk result (issues_of issues.new
        ≡ issues_of issues.old ++ turn_issues from.now to.now) }
{
    let (to, from) = both(boxed_copy(alloc, to), boxed_copy(alloc, from))?;
    let width = Boxed::new(alloc, Width::Minus(to, from))?;
    let limits = Limits::Turns;
    push_demand(issues, Demand::InRange { limits, width })
}

#[tactic(auto, using(crate::proofs::WalkForms::list_laws))]
fn loop_issues(
    alloc: Global,
    view: &View,
    from: &Width,
    to: &Width,
    issues: &mut Issues,
) -> Result<(), NoMemory>
    ensures { OnOk result (issues_of issues.new
        ≡ issues_of issues.old ++ loop_issues (view_of view.now) from.now to.now) }
{
    width_issues(alloc, view, from, issues)?;
    width_issues(alloc, view, to, issues)?;
    ranged(alloc, issues, Limits::Bound, from)?;
    ranged(alloc, issues, Limits::Bound, to)?;
    turn_issues(alloc, from, to, issues)
}

// Appends the check of a loop itself.
#[tactic(auto, using(crate::proofs::WalkForms::list_laws))]
fn push_loop(
    alloc: Global,
    view: &View,
    name: &Name,
    from: &Width,
    to: &Width,
    context: &[Cond],
    checks: &mut Checks,
) -> Result<(), NoMemory>
    ensures { OnOk result (checks_of checks.new ≡ checks_of checks.old
        ++ loop_check (view_of view.now) name.now from.now to.now context.now ∷ []) }
{
    let mut issues = Many::new(alloc);
    loop_issues(alloc, view, from, to, &mut issues)?;
    push_mismatch(&mut issues, is_fresh(view, name))?;
    push_check(alloc, context, issues, checks)
}

// Appends the check of a test's statement, and the test's.
#[tactic(auto, using(crate::proofs::WalkForms::list_laws))]
fn push_test(
    alloc: Global,
    view: &View,
    test: &Expr,
    context: &[Cond],
    checks: &mut Checks,
) -> Result<(), NoMemory>
    ensures { OnOk result (checks_of checks.new ≡ checks_of checks.old
        ++ test_checks (view_of view.now) test.now context.now) }
{
    let mut issues = Many::new(alloc);
    push_mismatch(&mut issues, suits_flag(&shape(alloc, view, test)?))?;
    push_check(alloc, context, issues, checks)?;
    push_checks(alloc, view, test, context, checks)
}

/// Appends a visible name. The one refusal is want of memory.
pub(crate) fn push_visible(names: &mut Names, one: Visible) -> Result<(), NoMemory>
    ensures { OnOk result (map visible_of names.new
        ≡ map visible_of names.old ++ visible_of one ∷ []) }
{
    names.push(one)?;
    Ok(())
}

// The visible names and the counter of a loop.
fn with_counter(alloc: Global, view: &View, name: &Name) -> Result<Names, NoMemory>
    ensures { IfOk result (λ ns. map visible_of ns
        ≡ (view_of view.now).visible ++ counter name.now ∷ []) }
{
    let (name, kind) = both(name.copy(alloc), numbered_kind(alloc, 32))?;
    let mut names = copy_all(alloc, view.visible)?;
    push_visible(
        &mut names,
        Visible {
            name,
            kind,
            is_assignable: false,
        },
    )?;
    Ok(names)
}

// Adds the name that a statement makes visible behind it.
fn declare(alloc: Global, names: &mut Names, s: &Stmt) -> Result<(), NoMemory>
    ensures { OnOk result (map visible_of names.new
        ≡ map visible_of names.old ++ declares s.now) }
{
    match s {
        Stmt::Declare {
            shape,
            name,
            value: _,
        } => {
            let (name, kind) = both(name.copy(alloc), declared_kind(alloc, shape))?;
            push_visible(
                names,
                Visible {
                    name,
                    kind,
                    is_assignable: true,
                },
            )
        }
        _ => Ok(()),
    }
}

/// Appends the checks of a statement and of the nodes below it, in a context. The one refusal is
/// want of memory.
#[cycle(statement_checks)]
#[tactic(auto, using(crate::proofs::StepForms::step_laws))]
pub(crate) fn push_statement(
    alloc: Global,
    view: &View,
    s: &Stmt,
    context: &[Cond],
    checks: &mut Checks,
) -> Result<(), NoMemory>
    ensures { OnOk result (checks_of checks.new ≡ checks_of checks.old
        ++ statement_at (view_of view.now) s.now context.now) }
{
    match s {
        Stmt::Declare { shape, name, value } => {
            push_declare(alloc, view, shape, name, value, context, checks)
        }
        Stmt::Assign { target, value } => push_assign(alloc, view, target, value, context, checks),
        Stmt::Block(block) => {
            push_check(alloc, context, Many::new(alloc), checks)?;
            let names = copy_all(alloc, view.visible)?;
            push_block(alloc, view, names, block.as_slice(), context, checks)
        }
        Stmt::Return(value) => push_return(alloc, view, value, context, checks),
        Stmt::If { test, yes, no } => {
            push_test(alloc, view, test, context, checks)?;
            let inner = where_true(alloc, view.space, test, context)?;
            let names = copy_all(alloc, view.visible)?;
            push_block(alloc, view, names, yes.as_slice(), inner.as_slice(), checks)?;
            match no {
                Some(no) => {
                    let inner = where_false(alloc, view.space, test, context)?;
                    let names = copy_all(alloc, view.visible)?;
                    push_block(alloc, view, names, no.as_slice(), inner.as_slice(), checks)
                }
                None => Ok(()),
            }
        }
        Stmt::For {
            name,
            from,
            to,
            block,
        } => {
            push_loop(alloc, view, name, from, to, context, checks)?;
            let names = with_counter(alloc, view, name)?;
            push_block(alloc, view, names, block.as_slice(), context, checks)
        }
        Stmt::Jump(to) => push_jump(alloc, view, to, context, checks),
        Stmt::Raise { code, tval } => push_raise(alloc, view, code, tval, context, checks),
        Stmt::WriteMemory { bits, at, value } => {
            push_write(alloc, view, *bits, at, value, context, checks)
        }
        Stmt::SoftWrite { address, value } => {
            push_soft_write(alloc, view, address, value, context, checks)
        }
        Stmt::Call { name, args } => {
            push_call(alloc, view, name, args.as_slice(), context, checks)
        }
    }
}

/// Appends the checks of a block, before which the names are visible. The one refusal is want of
/// memory.
#[cycle(statement_checks)]
pub(crate) fn push_block(
    alloc: Global,
    view: &View,
    names: Names,
    block: &[Stmt],
    context: &[Cond],
    checks: &mut Checks,
) -> Result<(), NoMemory>
    ensures { OnOk result (checks_of checks.new ≡ checks_of checks.old
        ++ block_at (view_of view.now) block.now (map visible_of names) context.now) }
{
    let mut names = names;
    for s in block {
        let here = seeing(view, names.as_slice());
        push_statement(alloc, &here, s, context, checks)?;
        declare(alloc, &mut names, s)?;
    }
    Ok(())
}
