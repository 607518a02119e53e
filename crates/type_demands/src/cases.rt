//! Where a demand on widths is broken, as a condition: a case for each number of the parameters that
//! the widths depend on.

ghost use Rattle.std.specs.Prelude.{◌≡◌, ◌≤◌, ◌+◌, true, IfOk, OnOk, length};
ghost use Rattle.udb_base.specs.declared.conditions.Cond.TheVariants as c;
ghost use Rattle.type_issues.specs.Issues.{demand_of};
ghost use Rattle.udb_spec.specs.Lawful.{Lawful};
ghost use Rattle.type_demands.specs.Cases.{numbers_of, has_numbers, verdict, IsParamAt, IsBreach, HoldsEither, HoldsAny, HoldsAsAny, HoldsWhereBroken, case_cond};

use crate::numbers::{Tried, full_with, has_more, has_numbers, listed_numbers};
use crate::widths::{demand_reads, widths_meet};
use idl_width::BitsScope;
use std::alloc::Global;
use type_issues::Demand;
use udb_base::{Cond, Conds, Copied, Many, Name, NoMemory, ParamSpace, Space, Test, Value};

/// A demand on widths, with what its widths are read by.
#[derive(Clone, Copy)]
pub struct Asked<'a> {
    pub space: &'a Space,
    pub scope: &'a BitsScope,
    pub demand: &'a Demand,
}

// Always where the demand is broken, else never, once all parameters have numbers.
fn verdict(alloc: Global, asked: &Asked, tried: &Tried) -> Result<Cond, NoMemory>
    ensures { IfOk result (λ cond. cond ≡ verdict asked.now.space.now asked.now.scope.now
        (demand_of asked.now.demand.now) (numbers_of tried.now)) }
{
    let full = full_with(alloc, tried)?;
    if widths_meet(asked.space, asked.scope, asked.demand, &full) {
        return Ok(Cond::Never);
    }
    Ok(Cond::Always)
}

/// Whether a condition is the one that never holds.
pub(crate) fn is_never(cond: &Cond) -> bool
    ensures { result ≡ true → cond.now ≡ c.Never }
{
    match cond {
        Cond::Never => true,
        Cond::Always | Cond::Ext { name: _, needs: _ } => false,
        Cond::Param {
            name: _,
            test: _,
            value: _,
        } => false,
        Cond::All(_) | Cond::Any(_) | Cond::One(_) | Cond::Not(_) => false,
    }
}

fn case_cond(
    alloc: Global,
    name: &Name,
    test: Test,
    number: u64,
    rest: Cond,
) -> Result<Cond, NoMemory>
    ensures { IfOk result (λ cond. cond ≡ case_cond name.now test number rest) }
{
    let mut parts = Many::new(alloc);
    parts.push(rest)?;
    parts.push(Cond::Param {
        name: name.copy(alloc)?,
        test,
        value: Value::Number(number),
    })?;
    Ok(Cond::All(parts))
}

// Appends a case; one that never holds is left out.
#[tactic(auto, using(crate::proofs::CaseLaws::case_laws))]
fn push_case(
    alloc: Global,
    parts: &mut Conds,
    name: &Name,
    test: Test,
    number: u64,
    rest: Cond,
) -> Result<(), NoMemory>
    ensures { OnOk result (HoldsEither parts.old (case_cond name.now test number rest) parts.new) }
{
    if is_never(&rest) {
        return Ok(());
    }
    parts.push(case_cond(alloc, name, test, number, rest)?)?;
    Ok(())
}

// One of the parts holds; where there is none it never does.
#[tactic(auto, using(crate::proofs::CaseLaws::case_laws))]
fn any_of(parts: Conds) -> Cond
    ensures { HoldsAsAny parts result }
{
    if parts.is_empty() {
        return Cond::Never;
    }
    Cond::Any(parts)
}

// The cases in which a parameter has one of the listed numbers.
#[cycle(breaches)]
fn listed_cases(
    alloc: Global,
    asked: &Asked,
    place: usize,
    param: &ParamSpace,
    listed: &[u64],
    tried: &Tried,
) -> Result<Conds, NoMemory>
    requires lawful { Lawful asked.now.space.now }
    requires at { IsParamAt asked.now.space.now place param.now }
    ensures { IfOk result (HoldsAny asked.now.space.now asked.now.scope.now
        (demand_of asked.now.demand.now) (place + 1) (numbers_of tried.now) param.now.name
        listed.now) }
{
    let mut parts = Many::new(alloc);
    for number in listed {
        let with_number = Tried::First {
            number: *number,
            rest: &*tried,
        };
        let rest = cases(alloc, asked, place, &with_number)?;
        push_case(alloc, &mut parts, &param.name, Test::Equal, *number, rest)?;
    }
    Ok(parts)
}

// The cases of all numbers of a parameter.
#[cycle(breaches)]
fn number_cases(
    alloc: Global,
    asked: &Asked,
    place: usize,
    param: &ParamSpace,
    tried: &Tried,
) -> Result<Cond, NoMemory>
    requires lawful { Lawful asked.now.space.now }
    requires at { IsParamAt asked.now.space.now place param.now }
    requires numbers { has_numbers param.now.domain ≡ true }
    ensures { IfOk result (IsBreach asked.now.space.now asked.now.scope.now
        (demand_of asked.now.demand.now) (place + 1) (numbers_of tried.now)) }
{
    let listed = listed_numbers(alloc, &param.domain)?;
    let mut parts = listed_cases(alloc, asked, place, param, listed.as_slice(), tried)?;
    if has_more(&param.domain) {
        let with_most = Tried::First {
            number: 1_000_000,
            rest: &*tried,
        };
        let rest = cases(alloc, asked, place, &with_most)?;
        push_case(
            alloc,
            &mut parts,
            &param.name,
            Test::AtLeast,
            1_000_000,
            rest,
        )?;
    }
    Ok(any_of(parts))
}

/// Where a demand on widths is broken, with numbers for the parameters from a place on.
#[cycle(breaches)]
fn cases(alloc: Global, asked: &Asked, left: usize, tried: &Tried) -> Result<Cond, NoMemory>
    requires lawful { Lawful asked.now.space.now }
    requires within { left ≤ length asked.now.space.now.params }
    ensures { IfOk result (IsBreach asked.now.space.now asked.now.scope.now
        (demand_of asked.now.demand.now) left (numbers_of tried.now)) }
{
    if left == 0 {
        return verdict(alloc, asked, tried);
    }
    let place = left - 1;
    let param = &asked.space.params.as_slice()[place];
    if demand_reads(asked.demand, param.name.as_str()) && has_numbers(&param.domain) {
        return number_cases(alloc, asked, place, param, tried);
    }
    let without = Tried::First {
        number: 0,
        rest: &*tried,
    };
    cases(alloc, asked, place, &without)
}

/// Where a demand on widths is broken.
pub fn width_breach(
    alloc: Global,
    space: &Space,
    scope: &BitsScope,
    demand: &Demand,
) -> Result<Cond, NoMemory>
    requires lawful { Lawful space.now }
    ensures { IfOk result (HoldsWhereBroken space.now scope.now (demand_of demand.now)) }
{
    let asked = Asked {
        space,
        scope,
        demand,
    };
    cases(alloc, &asked, space.params.len(), &Tried::Nothing)
}
