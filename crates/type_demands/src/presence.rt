//! Where a field of a CSR is present, as a condition.

ghost use Rattle.std.specs.Prelude.{◌≡◌, ◌∷◌, [], IfOk, filter, map};
ghost use Rattle.udb_base.specs.declared.conditions.Cond.TheVariants as c;
ghost use Rattle.udb_spec.specs.Conditions.{same_bytes};
ghost use Rattle.type_demands.specs.Presence.{is_64, place_cond, field_cond, csr_cond, presence};

use idl_tree::{CsrBody, FieldBodies, FieldPlaces, Program};
use std::alloc::Global;
use type_kinds::csr_named;
use udb_base::{Boxed, Cond, Conds, Copied, Many, Name, NoMemory, Test, Value, both};

// The registers have 64 bits.
fn is_64(alloc: Global) -> Result<Cond, NoMemory>
    ensures { IfOk result (λ cond. cond ≡ is_64) }
{
    Ok(Cond::Param {
        name: Name::of(alloc, "MXLEN")?,
        test: Test::Equal,
        value: Value::Number(64),
    })
}

/// The condition that another fails. The one refusal is want of memory.
pub fn negation(alloc: Global, cond: Cond) -> Result<Cond, NoMemory>
    ensures { IfOk result (λ not. not ≡ c.Not cond) }
{
    Ok(Cond::Not(Boxed::new(alloc, cond)?))
}

// A field has a place for the registers.
fn place_cond(alloc: Global, places: &FieldPlaces) -> Result<Cond, NoMemory>
    ensures { IfOk result (λ cond. cond ≡ place_cond places.now) }
{
    match places {
        FieldPlaces::All(_) => Ok(Cond::Always),
        FieldPlaces::ByBase { rv32, rv64 } => match rv32 {
            Some(_) => match rv64 {
                Some(_) => Ok(Cond::Always),
                None => negation(alloc, is_64(alloc)?),
            },
            None => match rv64 {
                Some(_) => is_64(alloc),
                None => Ok(Cond::Never),
            },
        },
    }
}

fn both_hold(alloc: Global, parts: (Cond, Cond)) -> Result<Cond, NoMemory>
    ensures { IfOk result (λ cond. cond ≡ c.All (parts.0 ∷ parts.1 ∷ [])) }
{
    let (first, second) = parts;
    let mut all = Many::new(alloc);
    all.push(first)?;
    all.push(second)?;
    Ok(Cond::All(all))
}

fn field_cond(alloc: Global, field: &FieldBodies) -> Result<Cond, NoMemory>
    ensures { IfOk result (λ cond. cond ≡ field_cond field.now) }
{
    let parts = both(field.present.copy(alloc), place_cond(alloc, &field.places))?;
    both_hold(alloc, parts)
}

// The conditions of the fields of a name.
fn named_conds(alloc: Global, fields: &[FieldBodies], name: &Name) -> Result<Conds, NoMemory>
    ensures { IfOk result (λ conds. conds
        ≡ map field_cond (filter (λ f. same_bytes f.name name.now) fields.now)) }
{
    let mut conds = Many::new(alloc);
    for field in fields {
        if field.name == *name {
            conds.push(field_cond(alloc, field)?)?;
        }
    }
    Ok(conds)
}

fn some_named(alloc: Global, fields: &[FieldBodies], name: &Name) -> Result<Cond, NoMemory>
    ensures { IfOk result (λ cond. cond
        ≡ c.Any (map field_cond (filter (λ f. same_bytes f.name name.now) fields.now))) }
{
    Ok(Cond::Any(named_conds(alloc, fields, name)?))
}

fn csr_cond(alloc: Global, csr: &CsrBody, field: &Name) -> Result<Cond, NoMemory>
    ensures { IfOk result (λ cond. cond ≡ csr_cond field.now csr.now) }
{
    let parts = both(
        csr.present.copy(alloc),
        some_named(alloc, csr.fields.as_slice(), field),
    )?;
    both_hold(alloc, parts)
}

/// Where a field of these names is present. The one refusal is want of memory.
pub fn presence(
    alloc: Global,
    program: &Program,
    csr: &Name,
    field: &Name,
) -> Result<Cond, NoMemory>
    ensures { IfOk result (λ cond. cond ≡ presence program.now csr.now field.now) }
{
    match csr_named(program.csrs.as_slice(), csr) {
        Some(csr) => csr_cond(alloc, csr, field),
        None => Ok(Cond::Never),
    }
}
