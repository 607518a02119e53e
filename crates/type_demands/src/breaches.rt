//! Where a demand is broken, as a condition.

ghost use Rattle.std.specs.Prelude.{◌≡◌, IfOk};
ghost use Rattle.udb_spec.specs.Lawful.{Lawful};
ghost use Rattle.idl_forms.specs.Ready.{IsLawfulProgram, AreLawfulVariables};
ghost use Rattle.type_issues.specs.Issues.{demand_of};
ghost use Rattle.udb_base.specs.declared.conditions.Cond.TheVariants as c;
ghost use Rattle.idl_spec.specs.Fields.{bits_scope};
ghost use Rattle.type_demands.specs.Cases.{HoldsWhereBroken};
ghost use Rattle.type_demands.specs.Presence.{presence};
ghost use Rattle.type_demands.specs.Breaks.{HoldsWhereUnmet};

use crate::cases::width_breach;
use crate::presence::{negation, presence};
use idl_forms::bits::bits_scope;
use idl_tree::{Program, Variable};
use std::alloc::Global;
use type_issues::Demand;
use udb_base::{Cond, Copied, Name, NoMemory, Space};

fn absence(alloc: Global, program: &Program, csr: &Name, field: &Name) -> Result<Cond, NoMemory>
    ensures { IfOk result (λ cond. cond ≡ c.Not (presence program.now csr.now field.now)) }
{
    negation(alloc, presence(alloc, program, csr, field)?)
}

fn failure(alloc: Global, cond: &Cond) -> Result<Cond, NoMemory>
    ensures { IfOk result (λ not. not ≡ c.Not cond.now) }
{
    negation(alloc, cond.copy(alloc)?)
}

// Where a demand on widths is broken.
fn scoped_breach(
    alloc: Global,
    space: &Space,
    program: &Program,
    variables: &[Variable],
    demand: &Demand,
) -> Result<Cond, NoMemory>
    requires lawful { Lawful space.now }
    requires program { IsLawfulProgram program.now }
    requires variables { AreLawfulVariables variables.now }
    ensures { IfOk result (HoldsWhereBroken space.now (bits_scope program.now variables.now)
        (demand_of demand.now)) }
{
    let scope = bits_scope(alloc, program, variables)?;
    width_breach(alloc, space, &scope, demand)
}

/// Where a demand isn't met, among the valid full configurations. The one refusal is want of memory.
#[tactic(auto, using(crate::proofs::BreachLaws::breach_laws))]
pub fn breach(
    alloc: Global,
    space: &Space,
    program: &Program,
    variables: &[Variable],
    demand: &Demand,
) -> Result<Cond, NoMemory>
    requires lawful { Lawful space.now }
    requires program { IsLawfulProgram program.now }
    requires variables { AreLawfulVariables variables.now }
    ensures { IfOk result (HoldsWhereUnmet space.now program.now variables.now
        (demand_of demand.now)) }
{
    match demand {
        Demand::InRange {
            limits: _,
            width: _,
        } => scoped_breach(alloc, space, program, variables, demand),
        Demand::InSlice {
            high: _,
            low: _,
            of: _,
        } => scoped_breach(alloc, space, program, variables, demand),
        Demand::Defined(cond) => failure(alloc, cond.get()),
        Demand::Present { csr, field } => absence(alloc, program, csr, field),
    }
}
