//! Names that are unknown or late, and kinds that don't fit: the first node that has one.

ghost use Rattle.std.specs.Prelude.{◌≡◌, option_map, IfOk, IfErr};
ghost use Rattle.std.specs.List.{list_any};
ghost use Rattle.idl_spec.specs.Faults.{first_unknown, first_later};
ghost use Rattle.type_issues.specs.Issues.{issues_of, checks_of};
ghost use Rattle.idl_types.specs.Refusals.{IsTold};
ghost use Rattle.idl_types.specs.Passes.{is_mismatch, IsUnknown, IsMismatch, IsLate, NoneOf, IsFirstOf};

use crate::faults::{TypeFault, mismatch, order, unknown};
use std::alloc::Global;
use type_issues::{Check, Issue};
use udb_base::Name;

fn first_unknown(issues: &[Issue]) -> Option<&Name>
    ensures { option_map (λ n. n.now) result ≡ first_unknown (issues_of issues.now) }
{
    for issue in issues {
        if let Issue::UnknownName(name) = issue {
            return Some(name);
        }
    }
    None
}

fn first_later(issues: &[Issue]) -> Option<&Name>
    ensures { option_map (λ n. n.now) result ≡ first_later (issues_of issues.now) }
{
    for issue in issues {
        if let Issue::LaterFunction(name) = issue {
            return Some(name);
        }
    }
    None
}

fn has_mismatch(issues: &[Issue]) -> bool
    ensures { result ≡ list_any is_mismatch (issues_of issues.now) }
{
    for issue in issues {
        if let Issue::Mismatch = issue {
            return true;
        }
    }
    false
}

/// Refuses the first node with an unknown name, and tells its first one.
pub(crate) fn check_names(alloc: Global, checks: &[Check]) -> Result<(), TypeFault>
    ensures none { IfOk result (λ _. NoneOf IsUnknown (checks_of checks.now)) }
    ensures first { IfErr result (IsTold (IsFirstOf IsUnknown (checks_of checks.now))) }
{
    for (node, check) in checks.iter().enumerate() {
        if let Some(name) = first_unknown(check.issues.as_slice()) {
            return Err(unknown(alloc, node, name));
        }
    }
    Ok(())
}

/// Refuses the first node with kinds that don't fit.
pub(crate) fn check_kinds(checks: &[Check]) -> Result<(), TypeFault>
    ensures none { IfOk result (λ _. NoneOf IsMismatch (checks_of checks.now)) }
    ensures first { IfErr result (IsTold (IsFirstOf IsMismatch (checks_of checks.now))) }
{
    for (node, check) in checks.iter().enumerate() {
        if has_mismatch(check.issues.as_slice()) {
            return Err(mismatch(node));
        }
    }
    Ok(())
}

/// Refuses the first node with a function that is declared later, and tells its first one.
pub(crate) fn check_order(alloc: Global, checks: &[Check]) -> Result<(), TypeFault>
    ensures none { IfOk result (λ _. NoneOf IsLate (checks_of checks.now)) }
    ensures first { IfErr result (IsTold (IsFirstOf IsLate (checks_of checks.now))) }
{
    for (node, check) in checks.iter().enumerate() {
        if let Some(name) = first_later(check.issues.as_slice()) {
            return Err(order(alloc, node, name));
        }
    }
    Ok(())
}
