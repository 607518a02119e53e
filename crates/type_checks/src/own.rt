//! What an expression asks itself.

ghost use Rattle.std.specs.Prelude.{◌≡◌, ◌++◌, map, length, nat_lt, IfOk, OnOk};
ghost use Rattle.idl_tree.specs.declared.expressions.Expr.TheOpen.{Expr-F};
ghost use Rattle.idl_spec.specs.Demands.{own_issues, unary_issues, binary_issues, kind_at, outside_fields, access_issues, address_issues, call_issues, arguments_suit, result_issues, bits_kind, want, wants_all, mismatch_unless};
ghost use Rattle.idl_spec.specs.Forms.{is_access};
ghost use Rattle.type_kinds.specs.Kinds.{kind_if_any};
ghost use Rattle.type_kinds.specs.Views.{view_of};
ghost use Rattle.type_issues.specs.Issues.{issues_of};
ghost use Rattle.type_checks.specs.Nodes.{own_at, stays, order_issues};

use idl_reach::call_stays_in_fields;
use idl_tree::{Argument, Binary, Expr, Unary, Width};
use std::alloc::Global;
use type_issues::{
    Issue, Issues, Limits, comparable, csr_word, extension_issues, is_choice, member_issues,
    new_field_issues, present_issues, push_issue, push_mismatch, push_unknown, ranged,
    slice_issues, suits_all, suits_bits, suits_flag, suits_shape, width_issues, word_issues,
};
use type_kinds::{Kind, View, function_named, requirement, shape, shapes_of};
use udb_base::{Chars, Copied, Name, NoMemory, both};

/// Raises a mismatch unless a kind is bits. The one refusal is want of memory.
pub(crate) fn want_bits(issues: &mut Issues, kind: Option<Kind>) -> Result<(), NoMemory>
    ensures { OnOk result (issues_of issues.new
        ≡ issues_of issues.old ++ want bits_kind (kind_if_any kind)) }
{
    push_mismatch(issues, suits_bits(&kind))
}

/// Raises a mismatch where a body of a field may not do so. The one refusal is want of memory.
pub(crate) fn outside_fields(view: &View, issues: &mut Issues) -> Result<(), NoMemory>
    ensures { OnOk result (issues_of issues.new
        ≡ issues_of issues.old ++ outside_fields (view_of view.now)) }
{
    push_mismatch(issues, !view.in_field)
}

fn unary_issues(sign: Unary, kind: Option<Kind>, issues: &mut Issues) -> Result<(), NoMemory>
    ensures { OnOk result (issues_of issues.new
        ≡ issues_of issues.old ++ unary_issues sign (kind_if_any kind)) }
{
    match sign {
        Unary::Not => push_mismatch(issues, suits_flag(&kind)),
        Unary::Invert | Unary::Minus => push_mismatch(issues, suits_bits(&kind)),
    }
}

fn binary_issues(
    sign: Binary,
    x: Option<Kind>,
    y: Option<Kind>,
    issues: &mut Issues,
) -> Result<(), NoMemory>
    ensures { OnOk result (issues_of issues.new
        ≡ issues_of issues.old ++ binary_issues sign (kind_if_any x) (kind_if_any y)) }
{
    match sign {
        Binary::Or | Binary::And => push_mismatch(issues, suits_flag(&x) && suits_flag(&y)),
        Binary::Equal | Binary::NotEqual => push_mismatch(issues, comparable(&x, &y)),
        _ => push_mismatch(issues, suits_bits(&x) && suits_bits(&y)),
    }
}

#[tactic(auto, using(type_issues::proofs::IssueLaws::appends))]
fn wide_left_issues(
    alloc: Global,
    view: &View,
    left: &Expr,
    by: &Width,
    issues: &mut Issues,
) -> Result<(), NoMemory>
    ensures { OnOk result (issues_of issues.new ≡ issues_of issues.old
        ++ own_issues (view_of view.now)
        (Expr-F.WideLeft (left.now, kind_at (view_of view.now) left.now) by.now)) }
{
    width_issues(alloc, view, by, issues)?;
    ranged(alloc, issues, Limits::Shift, by)?;
    want_bits(issues, shape(alloc, view, left)?)
}

#[tactic(auto, using(type_issues::proofs::IssueLaws::appends))]
fn choice_issues(
    alloc: Global,
    view: &View,
    test: &Expr,
    yes: &Expr,
    no: &Expr,
    issues: &mut Issues,
) -> Result<(), NoMemory>
    ensures { OnOk result (issues_of issues.new ≡ issues_of issues.old
        ++ own_issues (view_of view.now)
        (Expr-F.Choice (test.now, kind_at (view_of view.now) test.now)
        (yes.now, kind_at (view_of view.now) yes.now)
        (no.now, kind_at (view_of view.now) no.now))) }
{
    push_mismatch(issues, suits_flag(&shape(alloc, view, test)?))?;
    let (x, y) = both(shape(alloc, view, yes), shape(alloc, view, no))?;
    push_mismatch(issues, is_choice(&x, &y))
}

#[tactic(auto, using(type_issues::proofs::IssueLaws::appends))]
fn join_issues(
    alloc: Global,
    view: &View,
    parts: &[Expr],
    issues: &mut Issues,
) -> Result<(), NoMemory>
    ensures { OnOk result (issues_of issues.new ≡ issues_of issues.old
        ++ (mismatch_unless (nat_lt 0 (length parts.now))
        ++ wants_all bits_kind (map (kind_at (view_of view.now)) parts.now))) }
{
    push_mismatch(issues, !parts.is_empty())?;
    let kinds = shapes_of(alloc, view, parts)?;
    push_mismatch(issues, suits_all(kinds.as_slice()))
}

#[tactic(auto, using(type_issues::proofs::IssueLaws::appends))]
fn repeat_issues(
    alloc: Global,
    view: &View,
    times: &Width,
    of: &Expr,
    issues: &mut Issues,
) -> Result<(), NoMemory>
    ensures { OnOk result (issues_of issues.new ≡ issues_of issues.old
        ++ own_issues (view_of view.now)
        (Expr-F.Repeat times.now (of.now, kind_at (view_of view.now) of.now))) }
{
    width_issues(alloc, view, times, issues)?;
    ranged(alloc, issues, Limits::Width, times)?;
    want_bits(issues, shape(alloc, view, of)?)
}

// Raises a mismatch unless both expressions are bits.
fn want_two(
    alloc: Global,
    view: &View,
    a: &Expr,
    c: &Expr,
    issues: &mut Issues,
) -> Result<(), NoMemory>
    ensures { OnOk result (issues_of issues.new ≡ issues_of issues.old
        ++ own_issues (view_of view.now)
        (Expr-F.Index (a.now, kind_at (view_of view.now) a.now)
        (c.now, kind_at (view_of view.now) c.now))) }
{
    let (x, y) = both(shape(alloc, view, a), shape(alloc, view, c))?;
    push_mismatch(issues, suits_bits(&x) && suits_bits(&y))
}

#[tactic(auto, using(type_issues::proofs::IssueLaws::appends))]
fn slice_of_issues(
    alloc: Global,
    view: &View,
    of: &Expr,
    high: &Width,
    low: &Width,
    issues: &mut Issues,
) -> Result<(), NoMemory>
    ensures { OnOk result (issues_of issues.new ≡ issues_of issues.old
        ++ own_issues (view_of view.now)
        (Expr-F.Slice (of.now, kind_at (view_of view.now) of.now) high.now low.now)) }
{
    width_issues(alloc, view, high, issues)?;
    width_issues(alloc, view, low, issues)?;
    let kind = shape(alloc, view, of)?;
    slice_issues(alloc, view, &kind, high, low, issues)?;
    want_bits(issues, kind)
}

#[tactic(auto, using(type_issues::proofs::IssueLaws::appends))]
fn resize_issues(
    alloc: Global,
    view: &View,
    width: &Width,
    of: &Expr,
    issues: &mut Issues,
) -> Result<(), NoMemory>
    ensures { OnOk result (issues_of issues.new ≡ issues_of issues.old
        ++ own_issues (view_of view.now)
        (Expr-F.Resize width.now (of.now, kind_at (view_of view.now) of.now))) }
{
    width_issues(alloc, view, width, issues)?;
    want_bits(issues, shape(alloc, view, of)?)
}

#[tactic(auto, using(type_issues::proofs::IssueLaws::appends))]
fn register_issues(
    alloc: Global,
    view: &View,
    at: &Expr,
    issues: &mut Issues,
) -> Result<(), NoMemory>
    ensures { OnOk result (issues_of issues.new ≡ issues_of issues.old
        ++ own_issues (view_of view.now)
        (Expr-F.Register (at.now, kind_at (view_of view.now) at.now))) }
{
    outside_fields(view, issues)?;
    want_bits(issues, shape(alloc, view, at)?)
}

/// Raises a mismatch where the address of a CSR is no bits. The one refusal is want of memory.
pub(crate) fn address_issues(
    alloc: Global,
    view: &View,
    address: &Expr,
    issues: &mut Issues,
) -> Result<(), NoMemory>
    ensures { OnOk result (issues_of issues.new
        ≡ issues_of issues.old ++ address_issues (view_of view.now) address.now) }
{
    match csr_word(view, address) {
        Some(_) => Ok(()),
        None => want_bits(issues, shape(alloc, view, address)?),
    }
}

#[tactic(auto, using(type_issues::proofs::IssueLaws::appends))]
fn soft_read_issues(
    alloc: Global,
    view: &View,
    address: &Expr,
    issues: &mut Issues,
) -> Result<(), NoMemory>
    ensures { OnOk result (issues_of issues.new ≡ issues_of issues.old
        ++ own_issues (view_of view.now)
        (Expr-F.SoftRead (address.now, kind_at (view_of view.now) address.now))) }
{
    outside_fields(view, issues)?;
    address_issues(alloc, view, address, issues)
}

/// Raises a mismatch where an access to memory hasn't one of four counts of bits.
pub(crate) fn access_issues(bits: u8, issues: &mut Issues) -> Result<(), NoMemory>
    ensures { OnOk result (issues_of issues.new ≡ issues_of issues.old ++ access_issues bits) }
{
    push_mismatch(issues, is_access(bits))
}

fn is_access(bits: u8) -> bool
    ensures { result ≡ is_access bits }
{
    bits == 8 || (bits == 16 || (bits == 32 || bits == 64))
}

#[tactic(auto, using(type_issues::proofs::IssueLaws::appends))]
fn read_issues(
    alloc: Global,
    view: &View,
    bits: u8,
    at: &Expr,
    issues: &mut Issues,
) -> Result<(), NoMemory>
    ensures { OnOk result (issues_of issues.new ≡ issues_of issues.old
        ++ own_issues (view_of view.now)
        (Expr-F.ReadMemory bits (at.now, kind_at (view_of view.now) at.now))) }
{
    outside_fields(view, issues)?;
    access_issues(bits, issues)?;
    want_bits(issues, shape(alloc, view, at)?)
}

#[tactic(auto, using(type_issues::proofs::IssueLaws::appends))]
fn field_access_issues(
    alloc: Global,
    view: &View,
    csr: &Name,
    field: &Name,
    issues: &mut Issues,
) -> Result<(), NoMemory>
    ensures { OnOk result (issues_of issues.new ≡ issues_of issues.old
        ++ own_issues (view_of view.now) (Expr-F.Field csr.now field.now)) }
{
    push_mismatch(issues, view.reads_fields)?;
    present_issues(alloc, view, csr, field, issues)
}

#[tactic(auto, using(type_issues::proofs::IssueLaws::appends))]
fn version_issues(
    alloc: Global,
    view: &View,
    extension: &Name,
    text: &Chars,
    issues: &mut Issues,
) -> Result<(), NoMemory>
    ensures { OnOk result (issues_of issues.new ≡ issues_of issues.old
        ++ own_issues (view_of view.now) (Expr-F.ImplementedVersion extension.now text.now)) }
{
    extension_issues(alloc, view, extension, issues)?;
    push_mismatch(issues, requirement(text).is_some())
}

// Whether arguments are as many as declared, and fit.
#[tactic(auto, using(crate::proofs::ArgumentLists::suit_laws))]
fn arguments_suit(arguments: &[Argument], kinds: &[Option<Kind>]) -> bool
    ensures { result ≡ arguments_suit arguments.now (map kind_if_any kinds.now) }
{
    if arguments.len() != kinds.len() {
        return false;
    }
    for (place, argument) in arguments.iter().enumerate() {
        if !suits_shape(&argument.shape, &kinds[place]) {
            return false;
        }
    }
    true
}

// Whether a call may stand in a body of a field, where this is one.
fn call_stays(alloc: Global, view: &View, name: &Name) -> Result<bool, NoMemory>
    ensures { IfOk result (λ b. b ≡ stays (view_of view.now) name.now) }
{
    if !view.in_field {
        return Ok(true);
    }
    call_stays_in_fields(
        alloc,
        view.program.functions.as_slice(),
        view.reads_fields,
        name,
    )
}

// Raises a function that is declared later.
fn order_issues(
    alloc: Global,
    view: &View,
    name: &Name,
    issues: &mut Issues,
) -> Result<(), NoMemory>
    ensures { OnOk result (issues_of issues.new
        ≡ issues_of issues.old ++ order_issues (view_of view.now) name.now) }
{
    match function_named(view.before, name) {
        Some(_) => Ok(()),
        None => push_issue(issues, Issue::LaterFunction(name.copy(alloc)?)),
    }
}

/// Raises a called word that is no function, a function that is declared later, and arguments that
/// don't fit. The one refusal is want of memory.
#[tactic(auto, using(type_issues::proofs::IssueLaws::appends))]
pub(crate) fn call_issues(
    alloc: Global,
    view: &View,
    name: &Name,
    args: &[Expr],
    issues: &mut Issues,
) -> Result<(), NoMemory>
    ensures { OnOk result (issues_of issues.new ≡ issues_of issues.old
        ++ call_issues (view_of view.now) name.now (map (kind_at (view_of view.now)) args.now)) }
{
    let functions = view.program.functions.as_slice();
    match function_named(functions, name) {
        Some(function) => {
            order_issues(alloc, view, name, issues)?;
            let (kinds, stays) = both(shapes_of(alloc, view, args), call_stays(alloc, view, name))?;
            let suit = arguments_suit(function.arguments.as_slice(), kinds.as_slice());
            push_mismatch(issues, suit && stays)
        }
        None => push_unknown(alloc, issues, false, name),
    }
}

// Raises a mismatch where a call that has to give a value gives none.
fn result_issues(view: &View, name: &Name, issues: &mut Issues) -> Result<(), NoMemory>
    ensures { OnOk result (issues_of issues.new
        ≡ issues_of issues.old ++ result_issues (view_of view.now) name.now) }
{
    match function_named(view.program.functions.as_slice(), name) {
        Some(function) => push_mismatch(issues, function.result.is_some()),
        None => Ok(()),
    }
}

#[tactic(auto, using(type_issues::proofs::IssueLaws::appends))]
fn value_call_issues(
    alloc: Global,
    view: &View,
    name: &Name,
    args: &[Expr],
    issues: &mut Issues,
) -> Result<(), NoMemory>
    ensures { OnOk result (issues_of issues.new ≡ issues_of issues.old
        ++ (call_issues (view_of view.now) name.now (map (kind_at (view_of view.now)) args.now)
        ++ result_issues (view_of view.now) name.now)) }
{
    call_issues(alloc, view, name, args, issues)?;
    result_issues(view, name, issues)
}

/// Raises what an expression asks itself, its width apart. The one refusal is want of memory.
#[tactic(auto, using(crate::proofs::OwnForms::own_laws))]
pub(crate) fn own_issues(
    alloc: Global,
    view: &View,
    e: &Expr,
    issues: &mut Issues,
) -> Result<(), NoMemory>
    ensures { OnOk result (issues_of issues.new
        ≡ issues_of issues.old ++ own_at (view_of view.now) e.now) }
{
    match e {
        Expr::Number(_) => Ok(()),
        Expr::Sized {
            width,
            signed: _,
            value: _,
        } => width_issues(alloc, view, width, issues),
        Expr::Text(_) => Ok(()),
        Expr::Flag(_) => Ok(()),
        Expr::Word(name) => word_issues(alloc, view, name, issues),
        Expr::Member { kind, name } => member_issues(alloc, *kind, name, issues),
        Expr::Unary { sign, of } => unary_issues(*sign, shape(alloc, view, of.get())?, issues),
        Expr::Binary { sign, left, right } => {
            let x = shape(alloc, view, left.get());
            let (x, y) = both(x, shape(alloc, view, right.get()))?;
            binary_issues(*sign, x, y, issues)
        }
        Expr::WideLeft { left, by } => wide_left_issues(alloc, view, left.get(), by, issues),
        Expr::Choice { test, yes, no } => {
            choice_issues(alloc, view, test.get(), yes.get(), no.get(), issues)
        }
        Expr::Join(parts) => join_issues(alloc, view, parts.as_slice(), issues),
        Expr::Repeat { times, of } => repeat_issues(alloc, view, times, of.get(), issues),
        Expr::Index { of, at } => want_two(alloc, view, of.get(), at.get(), issues),
        Expr::Slice { of, high, low } => {
            slice_of_issues(alloc, view, of.get(), high, low, issues)
        }
        Expr::Call { name, args } => value_call_issues(alloc, view, name, args.as_slice(), issues),
        Expr::Signed(of) => want_bits(issues, shape(alloc, view, of.get())?),
        Expr::Resize { width, of } => resize_issues(alloc, view, width, of.get(), issues),
        Expr::Pc => outside_fields(view, issues),
        Expr::Encoding => outside_fields(view, issues),
        Expr::Register(at) => register_issues(alloc, view, at.get(), issues),
        Expr::Field { csr, field } => field_access_issues(alloc, view, csr, field, issues),
        Expr::SoftRead(at) => soft_read_issues(alloc, view, at.get(), issues),
        Expr::ReadMemory { bits, at } => read_issues(alloc, view, *bits, at.get(), issues),
        Expr::NewField(field) => new_field_issues(alloc, view, field, issues),
        Expr::Mode => Ok(()),
        Expr::Implemented(name) => extension_issues(alloc, view, name, issues),
        Expr::ImplementedVersion { extension, text } => {
            version_issues(alloc, view, extension, text, issues)
        }
    }
}
