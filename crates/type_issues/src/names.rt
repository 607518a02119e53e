//! The issues of names.

ghost use Rattle.std.specs.Prelude.{◌≡◌, ◌++◌, ◌∷◌, [], is_some, option_map, IfSome, Some, OnOk};
ghost use Rattle.idl_spec.specs.Values.{member_number};
ghost use Rattle.idl_spec.specs.Formulas as formulas;
ghost use Rattle.idl_spec.specs.Demands.{demand, defined, unknown_unless, visible_named, field_issues, present_issues, word_issues, csr_word, csr_word_issues, new_field_issues};
ghost use Rattle.type_kinds.specs.Views.{view_of};
ghost use Rattle.type_issues.specs.Issues.{issues_of};
ghost use Rattle.type_issues.specs.Names.{missing};

use crate::issues::{Demand, Issue, Issues, push_demand, push_issue, push_unknown};
use crate::members::is_member;
use idl_tree::{EnumKind, Expr};
use std::alloc::Global;
use type_kinds::{View, csr_named, field_named, lists_extension, parameter_named, visible_named};
use udb_base::{Boxed, Cond, Copied, Name, NoMemory, copy_two};

// The CSR or the field of two names that the program lacks.
fn missing<'a>(view: &View, csr: &'a Name, field: &'a Name) -> Option<&'a Name>
    ensures { option_map (λ n. n.now) result
        ≡ missing (view_of view.now) csr.now field.now }
{
    let Some(body) = csr_named(view.program.csrs.as_slice(), csr) else {
        return Some(csr);
    };
    match field_named(body.fields.as_slice(), field) {
        Some(_) => None,
        None => Some(field),
    }
}

/// Raises the CSR or the field that the program lacks. The one refusal is want of memory.
#[tactic(auto, using(crate::proofs::IssueLaws::field_laws))]
pub fn field_issues(
    alloc: Global,
    view: &View,
    csr: &Name,
    field: &Name,
    issues: &mut Issues,
) -> Result<(), NoMemory>
    ensures { OnOk result (issues_of issues.new
        ≡ issues_of issues.old ++ field_issues (view_of view.now) csr.now field.now) }
{
    match missing(view, csr, field) {
        Some(name) => push_unknown(alloc, issues, false, name),
        None => Ok(()),
    }
}

/// Raises the CSR or the field that the program lacks, or demands that the field is present. The
/// one refusal is want of memory.
#[tactic(auto, using(crate::proofs::IssueLaws::field_laws))]
pub fn present_issues(
    alloc: Global,
    view: &View,
    csr: &Name,
    field: &Name,
    issues: &mut Issues,
) -> Result<(), NoMemory>
    ensures { OnOk result (issues_of issues.new
        ≡ issues_of issues.old ++ present_issues (view_of view.now) csr.now field.now) }
{
    match missing(view, csr, field) {
        Some(name) => push_unknown(alloc, issues, false, name),
        None => {
            let (csr, field) = copy_two(alloc, csr, field)?;
            push_demand(issues, Demand::Present { csr, field })
        }
    }
}

// Demands a condition.
fn push_defined(alloc: Global, issues: &mut Issues, cond: &Cond) -> Result<(), NoMemory>
    ensures { OnOk result (issues_of issues.new
        ≡ issues_of issues.old ++ demand (defined cond.now) ∷ []) }
{
    let cond = Boxed::new(alloc, cond.copy(alloc)?)?;
    push_demand(issues, Demand::Defined(cond))
}

/// Whether a name is visible.
pub fn has_visible(view: &View, name: &Name) -> bool
    ensures { result ≡ is_some (visible_named (view_of view.now) name.now) }
{
    match visible_named(view, name) {
        Some(_) => true,
        None => false,
    }
}

/// Raises a word that nothing has, or demands that the parameter which it names is defined. The one
/// refusal is want of memory.
pub fn word_issues(
    alloc: Global,
    view: &View,
    name: &Name,
    issues: &mut Issues,
) -> Result<(), NoMemory>
    ensures { OnOk result (issues_of issues.new
        ≡ issues_of issues.old ++ word_issues (view_of view.now) name.now) }
{
    if has_visible(view, name) {
        return Ok(());
    }
    match parameter_named(view.space.params.as_slice(), name.as_str()) {
        Some(param) => push_defined(alloc, issues, &param.defined),
        None => push_unknown(alloc, issues, false, name),
    }
}

/// The word of a CSR before `.sw_read` and `.sw_write`, where no visible name has it.
pub fn csr_word<'a>(view: &View, address: &'a Expr) -> Option<&'a Name>
    ensures value { option_map (λ n. n.now) result ≡ csr_word (view_of view.now) address.now }
    ensures found { IfSome result (λ n. csr_word (view_of view.now) address.now ≡ Some n.now) }
{
    match address {
        Expr::Word(name) => {
            if has_visible(view, name) {
                return None;
            }
            Some(name)
        }
        _ => None,
    }
}

/// Raises a CSR that the program lacks, or demands that it is present. The one refusal is want of
/// memory.
pub fn csr_word_issues(
    alloc: Global,
    view: &View,
    name: &Name,
    issues: &mut Issues,
) -> Result<(), NoMemory>
    ensures { OnOk result (issues_of issues.new
        ≡ issues_of issues.old ++ csr_word_issues (view_of view.now) name.now) }
{
    match csr_named(view.program.csrs.as_slice(), name) {
        Some(csr) => push_defined(alloc, issues, &csr.present),
        None => push_unknown(alloc, issues, false, name),
    }
}

/// Raises a field of the new number of a CSR, where there is no such number or no such field. The
/// one refusal is want of memory.
pub fn new_field_issues(
    alloc: Global,
    view: &View,
    field: &Name,
    issues: &mut Issues,
) -> Result<(), NoMemory>
    ensures { OnOk result (issues_of issues.new ≡ issues_of issues.old
        ++ new_field_issues (view_of view.now) (view_of view.now).written field.now) }
{
    match view.written {
        Some(csr) => present_issues(alloc, view, csr, field, issues),
        None => push_issue(issues, Issue::Mismatch),
    }
}

/// Raises a member that its enumeration lacks. The one refusal is want of memory.
pub fn member_issues(
    alloc: Global,
    kind: EnumKind,
    name: &Name,
    issues: &mut Issues,
) -> Result<(), NoMemory>
    ensures { OnOk result (issues_of issues.new ≡ issues_of issues.old
        ++ unknown_unless (is_some (member_number kind name.now)) name.now) }
{
    push_unknown(alloc, issues, is_member(kind, name), name)
}

/// Raises an extension that the space lacks. The one refusal is want of memory.
pub fn extension_issues(
    alloc: Global,
    view: &View,
    name: &Name,
    issues: &mut Issues,
) -> Result<(), NoMemory>
    ensures { OnOk result (issues_of issues.new ≡ issues_of issues.old
        ++ unknown_unless (formulas.lists_extension view.now.space.now name.now) name.now) }
{
    push_unknown(alloc, issues, lists_extension(view.space, name), name)
}
