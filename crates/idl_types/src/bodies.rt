//! Bodies that are typed.

ghost use Rattle.std.specs.Prelude.{◌≡◌, ◌<◌, ◌+◌, ◌-◌, ◌^◌, true, IfOk, IfErr};
ghost use Rattle.udb_base.specs.declared.spaces.Full.{Full};
ghost use Rattle.udb_spec.specs.Lawful.{Lawful};
ghost use Rattle.udb_spec.specs.Spaces.{Valid};
ghost use Rattle.udb_spec.specs.ProofText.{HasShortPlaces};
ghost use Rattle.udb_refute.specs.Search.{HasShortLists, space_count};
ghost use Rattle.idl_spec.specs.Checks.{fits};
ghost use Rattle.idl_spec.specs.Faults.{HasNoFault};
ghost use Rattle.idl_forms.specs.Ready.{IsLawfulProgram, AreLawfulVariables};
ghost use Rattle.type_issues.specs.Issues.{checks_of};
ghost use Rattle.idl_types.specs.Refusals.{IsTold, IsRefusal};
ghost use Rattle.idl_types.specs.Passes.{WhereChecked};

use crate::costs::check_cost;
use crate::demands::{Sort, check_demands};
use crate::faults::TypeFault;
use crate::names::{check_kinds, check_names, check_order};
use idl_copy::CopiedPart;
use idl_spec::BodyScope;
use idl_tree::{Body, Program};
use std::alloc::Global;
use std::marker::Model;
use type_checks::body_checks;
use type_issues::Check;
use udb_base::{Cond, Many, Space};

/// A body that is typed. It is seen as the body.
#[derive(Drop)]
pub struct Typed {
    body: Body,
}

impl Model for Typed {
    ghost use Rattle.idl_tree.specs.contracts.programs.Body as whole;
    ghost use Rattle.idl_tree.specs.declared.programs.Body.{Body};

    ghost Value = { Body };

    ghost coded = { whole.the_row.coded };

    ghost view = { λ t. t.body };
}

impl Typed {
    /// The body.
    pub fn body(&self) -> &Body
        ensures { result.now ≡ self.now }
    {
        &self.body
    }
}

/// Bodies that are typed.
pub type TypedBodies = Many<Typed>;

// One pass for each sort of fault, in their order.
fn check_passes(
    alloc: Global,
    space: &Space,
    program: &Program,
    scope: BodyScope,
    body: &Body,
    checks: &[Check],
) -> Result<(), TypeFault>
    requires lawful { Lawful space.now }
    requires lists { HasShortLists space.now }
    requires places { HasShortPlaces space.now }
    requires few { space_count space.now + 1 < 2 ^ 32 - 1 }
    requires program { IsLawfulProgram program.now }
    requires variables { AreLawfulVariables body.now.variables }
    ensures none { IfOk result (λ _. WhereChecked space.now program.now scope body.now
        (checks_of checks.now)
        (λ presence. HasNoFault space.now program.now presence scope body.now)) }
    ensures first { IfErr result (λ f. WhereChecked space.now program.now scope body.now
        (checks_of checks.now)
        (λ presence. IsRefusal space.now program.now presence scope body.now f)) }
{
    let variables = body.variables.as_slice();
    check_names(alloc, checks)?;
    check_kinds(checks)?;
    check_demands(alloc, space, program, variables, Sort::Width, checks)?;
    check_demands(alloc, space, program, variables, Sort::Slice, checks)?;
    check_demands(alloc, space, program, variables, Sort::Absence, checks)?;
    check_cost(alloc, space, program, scope, body, checks)?;
    check_order(alloc, checks)
}

// Refuses a body with a fault.
fn check_faults(
    alloc: Global,
    space: &Space,
    program: &Program,
    presence: &Cond,
    scope: BodyScope,
    body: &Body,
) -> Result<(), TypeFault>
    requires lawful { Lawful space.now }
    requires lists { HasShortLists space.now }
    requires places { HasShortPlaces space.now }
    requires few { space_count space.now + 1 < 2 ^ 32 - 1 }
    requires program { IsLawfulProgram program.now }
    requires variables { AreLawfulVariables body.now.variables }
    ensures accepted { IfOk result
        (λ _. HasNoFault space.now program.now presence.now scope body.now) }
    ensures refused { IfErr result
        (IsRefusal space.now program.now presence.now scope body.now) }
{
    match body_checks(alloc, space, program, presence, scope, body) {
        Ok(checks) => check_passes(alloc, space, program, scope, body, checks.as_slice()),
        Err(_) => Err(TypeFault::Memory),
    }
}

// A copy of a body that was checked.
fn keep_body(alloc: Global, body: &Body) -> Result<Typed, TypeFault>
    ensures body { IfOk result (λ t. t ≡ body.now) }
    ensures refused { IfErr result (λ f. IsTold (λ g. ⊥) f) }
{
    match body.copy_part(alloc) {
        Ok(body) => Ok(Typed { body }),
        Err(_) => Err(TypeFault::Memory),
    }
}

/// Types a body of a program: a copy of it where it has no fault, or its first fault. `presence`
/// says in which full configurations the body stands, and `scope` which of the program's bodies it
/// is, or that it is an operation.
pub fn check_body(
    alloc: Global,
    space: &Space,
    program: &Program,
    presence: &Cond,
    scope: BodyScope,
    body: &Body,
) -> Result<Typed, TypeFault>
    requires lawful { Lawful space.now }
    requires lists { HasShortLists space.now }
    requires places { HasShortPlaces space.now }
    requires few { space_count space.now + 1 < 2 ^ 32 - 1 }
    requires program { IsLawfulProgram program.now }
    requires variables { AreLawfulVariables body.now.variables }
    ensures body { IfOk result (λ t. t ≡ body.now) }
    ensures accepted { IfOk result
        (λ t. HasNoFault space.now program.now presence.now scope body.now) }
    ensures fits { IfOk result (λ t. (full : Full) → Valid space.now full
        → fits space.now full program.now presence.now scope body.now ≡ true) }
    ensures refused { IfErr result
        (IsRefusal space.now program.now presence.now scope body.now) }
{
    check_faults(alloc, space, program, presence, scope, body)?;
    keep_body(alloc, body)
}
