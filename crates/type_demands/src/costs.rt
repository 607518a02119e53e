//! The parameters that widths name, and which demands are costly.

ghost use Rattle.std.specs.Prelude.{◌≡◌, ◌&&◌, ◌++◌, not, IfOk, filter};
ghost use Rattle.std.specs.List.{list_any};
ghost use Rattle.udb_base.specs.Lists as lists;
ghost use Rattle.udb_spec.specs.Conditions.{same_bytes};
ghost use Rattle.idl_spec.specs.Costs as meant;
ghost use Rattle.type_issues.specs.Issues.{demand_of};
ghost use Rattle.type_demands.specs.Names.{named_of, names_one};

use idl_tree::{Base, CsrBody, FieldBodies, FieldPlaces, Program, Variable, Width};
use std::alloc::Global;
use type_issues::Demand;
use udb_base::{Copied, Many, Name, NoMemory, both, copy_all, is_among};

/// The parameters that a width names, each once, and whether it multiplies two widths that both
/// name some.
#[derive(Drop)]
pub struct Named {
    pub params: Many<Name>,
    pub is_product: bool,
}

fn names_nothing(alloc: Global) -> Named
    ensures { named_of result ≡ meant.names_nothing }
{
    Named {
        params: Many::new(alloc),
        is_product: false,
    }
}

fn names_one(alloc: Global, name: &str) -> Result<Named, NoMemory>
    ensures { IfOk result (λ n. named_of n ≡ names_one name.now) }
{
    let mut params = Many::new(alloc);
    params.push(Name::of(alloc, name)?)?;
    Ok(Named {
        params,
        is_product: false,
    })
}

// The first names, and those of the second that aren't among them.
fn union_of(alloc: Global, first: &[Name], second: &[Name]) -> Result<Many<Name>, NoMemory>
    ensures { IfOk result (λ names. names ≡ first.now
        ++ filter (λ name. not (lists.is_among same_bytes name first.now)) second.now) }
{
    let mut names = copy_all(alloc, first)?;
    for name in second {
        if !is_among(name, first) {
            names.push(name.copy(alloc)?)?;
        }
    }
    Ok(names)
}

/// What two widths name together. The one refusal is want of memory.
pub fn named_by_both(alloc: Global, a: &Named, z: &Named) -> Result<Named, NoMemory>
    ensures { IfOk result (λ n. named_of n
        ≡ meant.named_by_both (named_of a.now) (named_of z.now)) }
{
    Ok(Named {
        params: union_of(alloc, a.params.as_slice(), z.params.as_slice())?,
        is_product: a.is_product || z.is_product,
    })
}

fn names_some(named: &Named) -> bool
    ensures { result ≡ meant.names_some (named_of named.now) }
{
    named.params.len() > 0
}

fn named_by_product(alloc: Global, a: &Named, z: &Named) -> Result<Named, NoMemory>
    ensures { IfOk result (λ n. named_of n
        ≡ meant.multiplied (named_of a.now) (named_of z.now)) }
{
    let is_product = a.is_product || z.is_product || (names_some(a) && names_some(z));
    Ok(Named {
        params: union_of(alloc, a.params.as_slice(), z.params.as_slice())?,
        is_product,
    })
}

// What stands by base names MXLEN.
fn by_base(alloc: Global, stands: bool) -> Result<Named, NoMemory>
    ensures { IfOk result (λ n. named_of n ≡ meant.by_base stands) }
{
    if stands {
        return names_one(alloc, "MXLEN");
    }
    Ok(names_nothing(alloc))
}

fn is_for_all(base: Base) -> bool
    ensures { result ≡ meant.is_for_all base }
{
    match base {
        Base::All => true,
        Base::Rv32 | Base::Rv64 => false,
    }
}

fn is_everywhere(places: &FieldPlaces) -> bool
    ensures { result ≡ meant.is_everywhere places.now }
{
    match places {
        FieldPlaces::All(_) => true,
        FieldPlaces::ByBase { rv32: _, rv64: _ } => false,
    }
}

fn variable_by_base(variables: &[Variable], name: &Name) -> bool
    ensures { result ≡ list_any (λ v. same_bytes v.name name.now
        && not (meant.is_for_all v.base)) variables.now }
{
    for variable in variables {
        if variable.name == *name && !is_for_all(variable.base) {
            return true;
        }
    }
    false
}

fn some_by_base(fields: &[FieldBodies], field: &Name) -> bool
    ensures { result ≡ list_any (λ f. same_bytes f.name field.now
        && not (meant.is_everywhere f.places)) fields.now }
{
    for one in fields {
        if one.name == *field && !is_everywhere(&one.places) {
            return true;
        }
    }
    false
}

fn csr_by_base(one: &CsrBody, csr: &Name, field: &Name) -> bool
    ensures { result ≡ (same_bytes one.now.name csr.now && list_any (λ f.
        same_bytes f.name field.now && not (meant.is_everywhere f.places)) one.now.fields) }
{
    one.name == *csr && some_by_base(one.fields.as_slice(), field)
}

fn field_by_base(program: &Program, csr: &Name, field: &Name) -> bool
    ensures { result ≡ meant.field_by_base program.now csr.now field.now }
{
    for one in program.csrs.as_slice() {
        if csr_by_base(one, csr, field) {
            return true;
        }
    }
    false
}

fn bits_named(
    alloc: Global,
    program: &Program,
    variables: &[Variable],
    csr: &Option<Name>,
    name: &Name,
) -> Result<Named, NoMemory>
    ensures { IfOk result (λ n. named_of n
        ≡ meant.bits_named program.now variables.now csr.now name.now) }
{
    match csr {
        Some(csr) => by_base(alloc, field_by_base(program, csr, name)),
        None => by_base(alloc, variable_by_base(variables, name)),
    }
}

/// What a width names. The one refusal is want of memory.
#[tactic(auto, using(crate::proofs::NamedLaws::named_laws))]
pub fn named_in(
    alloc: Global,
    program: &Program,
    variables: &[Variable],
    width: &Width,
) -> Result<Named, NoMemory>
    ensures { IfOk result (λ n. named_of n
        ≡ meant.named_in program.now variables.now width.now) }
{
    match width {
        Width::Number(_) => Ok(names_nothing(alloc)),
        Width::Word(name) => names_one(alloc, name.as_str()),
        Width::Plus(a, z) => {
            let (a, z) = both(
                named_in(alloc, program, variables, a.get()),
                named_in(alloc, program, variables, z.get()),
            )?;
            named_by_both(alloc, &a, &z)
        }
        Width::Minus(a, z) => {
            let (a, z) = both(
                named_in(alloc, program, variables, a.get()),
                named_in(alloc, program, variables, z.get()),
            )?;
            named_by_both(alloc, &a, &z)
        }
        Width::Times(a, z) => {
            let (a, z) = both(
                named_in(alloc, program, variables, a.get()),
                named_in(alloc, program, variables, z.get()),
            )?;
            named_by_product(alloc, &a, &z)
        }
        Width::Max(a, z) => {
            let (a, z) = both(
                named_in(alloc, program, variables, a.get()),
                named_in(alloc, program, variables, z.get()),
            )?;
            named_by_both(alloc, &a, &z)
        }
        Width::Bits { csr, name } => bits_named(alloc, program, variables, csr, name),
    }
}

// What two widths name together.
fn named_in_two(
    alloc: Global,
    program: &Program,
    variables: &[Variable],
    a: &Width,
    z: &Width,
) -> Result<Named, NoMemory>
    ensures { IfOk result (λ n. named_of n
        ≡ meant.named_by_both (meant.named_in program.now variables.now a.now)
        (meant.named_in program.now variables.now z.now)) }
{
    let (a, z) = both(
        named_in(alloc, program, variables, a),
        named_in(alloc, program, variables, z),
    )?;
    named_by_both(alloc, &a, &z)
}

// What three widths name together.
fn named_in_three(
    alloc: Global,
    program: &Program,
    variables: &[Variable],
    high: &Width,
    low: &Width,
    of: &Width,
) -> Result<Named, NoMemory>
    ensures { IfOk result (λ n. named_of n
        ≡ meant.named_by_both (meant.named_in program.now variables.now high.now)
        (meant.named_by_both (meant.named_in program.now variables.now low.now)
        (meant.named_in program.now variables.now of.now))) }
{
    let (high, others) = both(
        named_in(alloc, program, variables, high),
        named_in_two(alloc, program, variables, low, of),
    )?;
    named_by_both(alloc, &high, &others)
}

fn demand_named(
    alloc: Global,
    program: &Program,
    variables: &[Variable],
    demand: &Demand,
) -> Result<Named, NoMemory>
    ensures { IfOk result (λ n. named_of n
        ≡ meant.demand_named program.now variables.now (demand_of demand.now)) }
{
    match demand {
        Demand::InRange { limits: _, width } => named_in(alloc, program, variables, width.get()),
        Demand::InSlice { high, low, of } => {
            named_in_three(alloc, program, variables, high.get(), low.get(), of.get())
        }
        Demand::Defined(_) => Ok(names_nothing(alloc)),
        Demand::Present { csr: _, field: _ } => Ok(names_nothing(alloc)),
    }
}

/// Whether the widths of a demand name more than two parameters together, or one multiplies two
/// widths that both name some: then its full configurations are too many to try. The one refusal is
/// want of memory.
pub fn is_costly(
    alloc: Global,
    program: &Program,
    variables: &[Variable],
    demand: &Demand,
) -> Result<bool, NoMemory>
    ensures { IfOk result (λ b. b
        ≡ meant.is_costly program.now variables.now (demand_of demand.now)) }
{
    let named = demand_named(alloc, program, variables, demand)?;
    Ok(named.is_product || named.params.len() > 2)
}
