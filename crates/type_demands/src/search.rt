//! The full configurations in which a demand is broken.

ghost use Rattle.std.specs.Prelude.{◌≡◌, ◌<◌, ◌+◌, ◌-◌, ◌^◌, ◌++◌, ◌∷◌, [], IfOk};
ghost use Rattle.udb_base.specs.declared.conditions.Cond.TheVariants as c;
ghost use Rattle.udb_spec.specs.Lawful.{Lawful};
ghost use Rattle.udb_spec.specs.ProofText.{HasShortPlaces};
ghost use Rattle.udb_refute.specs.Search.{HasShortLists, space_count};
ghost use Rattle.idl_forms.specs.Ready.{IsLawfulProgram, AreLawfulVariables};
ghost use Rattle.type_issues.specs.Issues.{demand_of};
ghost use Rattle.type_demands.specs.Breaks.{IsBreaker, IsExample};

use crate::breaches::breach;
use crate::cases::is_never;
use idl_tree::{Program, Variable};
use std::alloc::Global;
use type_issues::Demand;
use udb_base::{Cond, Full, Many, NoMemory, Partial, Space, copy_all};
use udb_refute::{Found, find};

// All conditions of the context hold, and another.
fn under_context(alloc: Global, context: &[Cond], cond: Cond) -> Result<Cond, NoMemory>
    ensures { IfOk result (λ all. all ≡ c.All (context.now ++ cond ∷ [])) }
{
    let mut parts = copy_all(alloc, context)?;
    parts.push(cond)?;
    Ok(Cond::All(parts))
}

// A valid full configuration that meets a condition.
fn example(alloc: Global, space: &Space, cond: &Cond) -> Result<Option<Full>, NoMemory>
    requires lawful { Lawful space.now }
    requires lists { HasShortLists space.now }
    requires places { HasShortPlaces space.now }
    requires few { space_count space.now + 1 < 2 ^ 32 - 1 }
    ensures { IfOk result (IsExample space.now cond.now) }
{
    let part = Partial {
        constraints: Many::new(alloc),
    };
    match find(alloc, space, &part, cond)? {
        Found::Completion(full) => Ok(Some(full)),
        Found::Refuted(_proof) => Ok(None),
    }
}

// A valid full configuration in which the context holds and a condition.
fn example_under(
    alloc: Global,
    space: &Space,
    context: &[Cond],
    cond: Cond,
) -> Result<Option<Full>, NoMemory>
    requires lawful { Lawful space.now }
    requires lists { HasShortLists space.now }
    requires places { HasShortPlaces space.now }
    requires few { space_count space.now + 1 < 2 ^ 32 - 1 }
    ensures { IfOk result (IsExample space.now (c.All (context.now ++ cond ∷ []))) }
{
    let all = under_context(alloc, context, cond)?;
    example(alloc, space, &all)
}

/// A valid full configuration in which the context holds and a demand isn't met: none exactly where
/// there is none. The one refusal is want of memory.
pub fn breaker(
    alloc: Global,
    space: &Space,
    program: &Program,
    variables: &[Variable],
    context: &[Cond],
    demand: &Demand,
) -> Result<Option<Full>, NoMemory>
    requires lawful { Lawful space.now }
    requires lists { HasShortLists space.now }
    requires places { HasShortPlaces space.now }
    requires few { space_count space.now + 1 < 2 ^ 32 - 1 }
    requires program { IsLawfulProgram program.now }
    requires variables { AreLawfulVariables variables.now }
    ensures { IfOk result (IsBreaker space.now program.now variables.now context.now
        (demand_of demand.now)) }
{
    let breach = breach(alloc, space, program, variables, demand)?;
    if is_never(&breach) {
        return Ok(None);
    }
    example_under(alloc, space, context, breach)
}
