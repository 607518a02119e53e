//! Demands that a full configuration breaks: the first node that has one.

ghost use Rattle.std.specs.Prelude.{◌≡◌, ◌<◌, ◌+◌, ◌-◌, ◌^◌, IfOk, IfErr};
ghost use Rattle.udb_spec.specs.Lawful.{Lawful};
ghost use Rattle.udb_spec.specs.ProofText.{HasShortPlaces};
ghost use Rattle.udb_refute.specs.Search.{HasShortLists, space_count};
ghost use Rattle.idl_forms.specs.Ready.{IsLawfulProgram, AreLawfulVariables};
ghost use Rattle.type_issues.specs.Issues.{demand_of, issue_of, check_of, checks_of};
ghost use Rattle.idl_types.specs.Refusals.{IsTold};
ghost use Rattle.idl_types.specs.Passes.{IsShown, asks, shown_at, BreaksDemand, BreaksIssue, BreaksCheck, IsBroken, NoneOf, IsFirstOf};

use crate::faults::{TypeFault, number_of};
use idl_tree::{Program, Variable};
use std::alloc::Global;
use type_demands::{breaker, is_costly};
use type_issues::{Check, Demand, Issue};
use udb_base::{Cond, Full, NoMemory, Space};

/// Which fault a broken demand is.
#[derive(Clone, Copy)]
pub enum Sort {
    Width,
    Slice,
    Absence,
}

fn asks(sort: Sort, demand: &Demand) -> bool
    ensures { result ≡ asks sort (demand_of demand.now) }
{
    match demand {
        Demand::InRange {
            limits: _,
            width: _,
        } => match sort {
            Sort::Width => true,
            Sort::Slice | Sort::Absence => false,
        },
        Demand::InSlice {
            high: _,
            low: _,
            of: _,
        } => match sort {
            Sort::Slice => true,
            Sort::Width | Sort::Absence => false,
        },
        Demand::Defined(_) | Demand::Present { csr: _, field: _ } => match sort {
            Sort::Absence => true,
            Sort::Width | Sort::Slice => false,
        },
    }
}

// The fault of a broken demand at a node, or want of memory.
fn shown(sort: Sort, node: usize, shows: Full) -> TypeFault
    ensures { IsTold (λ f. f ≡ shown_at sort node shows) result }
{
    let Some(node) = number_of(node) else {
        return TypeFault::Memory;
    };
    match sort {
        Sort::Width => TypeFault::Width { node, shows },
        Sort::Slice => TypeFault::Slice { node, shows },
        Sort::Absence => TypeFault::Absent { node, shows },
    }
}

// A full configuration that breaks a demand, if that has the sort and isn't costly.
fn demand_breaker(
    alloc: Global,
    space: &Space,
    program: &Program,
    variables: &[Variable],
    sort: Sort,
    context: &[Cond],
    demand: &Demand,
) -> Result<Option<Full>, NoMemory>
    requires lawful { Lawful space.now }
    requires lists { HasShortLists space.now }
    requires places { HasShortPlaces space.now }
    requires few { space_count space.now + 1 < 2 ^ 32 - 1 }
    requires program { IsLawfulProgram program.now }
    requires variables { AreLawfulVariables variables.now }
    ensures { IfOk result (IsShown (BreaksDemand space.now program.now variables.now sort
        context.now (demand_of demand.now))) }
{
    if !asks(sort, demand) || is_costly(alloc, program, variables, demand)? {
        return Ok(None);
    }
    breaker(alloc, space, program, variables, context, demand)
}

// A full configuration that breaks an issue, if that is such a demand.
fn issue_breaker(
    alloc: Global,
    space: &Space,
    program: &Program,
    variables: &[Variable],
    sort: Sort,
    context: &[Cond],
    issue: &Issue,
) -> Result<Option<Full>, NoMemory>
    requires lawful { Lawful space.now }
    requires lists { HasShortLists space.now }
    requires places { HasShortPlaces space.now }
    requires few { space_count space.now + 1 < 2 ^ 32 - 1 }
    requires program { IsLawfulProgram program.now }
    requires variables { AreLawfulVariables variables.now }
    ensures { IfOk result (IsShown (BreaksIssue space.now program.now variables.now sort
        context.now (issue_of issue.now))) }
{
    match issue {
        Issue::Demand(demand) => {
            demand_breaker(alloc, space, program, variables, sort, context, demand)
        }
        Issue::UnknownName(_) | Issue::LaterFunction(_) | Issue::Mismatch => Ok(None),
    }
}

// A full configuration that breaks such a demand of a node.
fn node_breaker(
    alloc: Global,
    space: &Space,
    program: &Program,
    variables: &[Variable],
    sort: Sort,
    check: &Check,
) -> Result<Option<Full>, NoMemory>
    requires lawful { Lawful space.now }
    requires lists { HasShortLists space.now }
    requires places { HasShortPlaces space.now }
    requires few { space_count space.now + 1 < 2 ^ 32 - 1 }
    requires program { IsLawfulProgram program.now }
    requires variables { AreLawfulVariables variables.now }
    ensures { IfOk result (IsShown (BreaksCheck space.now program.now variables.now sort
        (check_of check.now))) }
{
    let context = check.context.as_slice();
    for issue in check.issues.as_slice() {
        let full = issue_breaker(alloc, space, program, variables, sort, context, issue)?;
        if let Some(full) = full {
            return Ok(Some(full));
        }
    }
    Ok(None)
}

/// Refuses the first node with a broken demand of a sort, and tells a full configuration that
/// breaks it. Costly demands are left out.
pub(crate) fn check_demands(
    alloc: Global,
    space: &Space,
    program: &Program,
    variables: &[Variable],
    sort: Sort,
    checks: &[Check],
) -> Result<(), TypeFault>
    requires lawful { Lawful space.now }
    requires lists { HasShortLists space.now }
    requires places { HasShortPlaces space.now }
    requires few { space_count space.now + 1 < 2 ^ 32 - 1 }
    requires program { IsLawfulProgram program.now }
    requires variables { AreLawfulVariables variables.now }
    ensures none { IfOk result (λ _. NoneOf (IsBroken space.now program.now variables.now sort)
        (checks_of checks.now)) }
    ensures first { IfErr result (IsTold (IsFirstOf (IsBroken space.now program.now variables.now
        sort) (checks_of checks.now))) }
{
    for (node, check) in checks.iter().enumerate() {
        match node_breaker(alloc, space, program, variables, sort, check) {
            Ok(Some(shows)) => return Err(shown(sort, node, shows)),
            Ok(None) => {}
            Err(_) => return Err(TypeFault::Memory),
        }
    }
    Ok(())
}
