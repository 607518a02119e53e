//! Demands that are costly, and bodies that cost too much.

ghost use Rattle.std.specs.Prelude.{◌≡◌, true, false, IfOk, IfErr};
ghost use Rattle.std.specs.List.{list_any};
ghost use Rattle.idl_spec.specs.Faults.{costs};
ghost use Rattle.idl_forms.specs.Ready.{IsLawfulProgram, AreLawfulVariables};
ghost use Rattle.type_issues.specs.Issues.{issue_of, check_of, checks_of};
ghost use Rattle.idl_types.specs.Refusals.{IsTold};
ghost use Rattle.idl_types.specs.Passes.{is_issue_costly, is_check_costly, is_body_costly};

use crate::faults::TypeFault;
use idl_spec::BodyScope;
use idl_tree::{Body, Program, Variable};
use std::alloc::Global;
use type_costs::is_past_cost;
use type_demands::is_costly;
use type_issues::{Check, Issue};
use udb_base::{NoMemory, Space};

fn is_issue_costly(
    alloc: Global,
    program: &Program,
    variables: &[Variable],
    issue: &Issue,
) -> Result<bool, NoMemory>
    ensures { IfOk result
        (λ b. b ≡ is_issue_costly program.now variables.now (issue_of issue.now)) }
{
    match issue {
        Issue::Demand(demand) => is_costly(alloc, program, variables, demand),
        Issue::UnknownName(_) | Issue::LaterFunction(_) | Issue::Mismatch => Ok(false),
    }
}

fn is_check_costly(
    alloc: Global,
    program: &Program,
    variables: &[Variable],
    check: &Check,
) -> Result<bool, NoMemory>
    ensures { IfOk result
        (λ b. b ≡ is_check_costly program.now variables.now (check_of check.now)) }
{
    for issue in check.issues.as_slice() {
        if is_issue_costly(alloc, program, variables, issue)? {
            return Ok(true);
        }
    }
    Ok(false)
}

fn has_costly_check(
    alloc: Global,
    program: &Program,
    variables: &[Variable],
    checks: &[Check],
) -> Result<bool, NoMemory>
    ensures { IfOk result (λ b. b
        ≡ list_any (is_check_costly program.now variables.now) (checks_of checks.now)) }
{
    for check in checks {
        if is_check_costly(alloc, program, variables, check)? {
            return Ok(true);
        }
    }
    Ok(false)
}

fn is_body_costly(
    alloc: Global,
    space: &Space,
    program: &Program,
    scope: BodyScope,
    body: &Body,
    checks: &[Check],
) -> Result<bool, NoMemory>
    requires program { IsLawfulProgram program.now }
    requires variables { AreLawfulVariables body.now.variables }
    ensures { IfOk result (λ b. b
        ≡ is_body_costly space.now program.now scope body.now (checks_of checks.now)) }
{
    if has_costly_check(alloc, program, body.variables.as_slice(), checks)? {
        return Ok(true);
    }
    is_past_cost(alloc, space, program, scope, body)
}

/// Refuses a body with a costly demand or a cost past the limit.
pub(crate) fn check_cost(
    alloc: Global,
    space: &Space,
    program: &Program,
    scope: BodyScope,
    body: &Body,
    checks: &[Check],
) -> Result<(), TypeFault>
    requires program { IsLawfulProgram program.now }
    requires variables { AreLawfulVariables body.now.variables }
    ensures none { IfOk result (λ _. is_body_costly space.now program.now scope body.now
        (checks_of checks.now) ≡ false) }
    ensures first { IfErr result (IsTold (λ f. (f ≡ costs) × (is_body_costly space.now program.now
        scope body.now (checks_of checks.now) ≡ true))) }
{
    match is_body_costly(alloc, space, program, scope, body, checks) {
        Ok(true) => Err(TypeFault::Cost),
        Ok(false) => Ok(()),
        Err(_) => Err(TypeFault::Memory),
    }
}
