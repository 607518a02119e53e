//! The costs of bodies of fields and of bodies by their places.

ghost use Rattle.std.specs.Prelude.{◌≡◌, [], map, flat_map, nat_lt, IfOk};
ghost use Rattle.idl_forms.specs.Ready.{IsLawfulProgram, AreLawfulVariables};
ghost use Rattle.idl_spec.specs.Fields.{bits_scope};
ghost use Rattle.idl_spec.specs.Costs as meant;
ghost use Rattle.idl_spec.specs.Costs.{kind_bodies, reset_bodies, write_bodies, cost_under, cost_of_fields, cost_of};
ghost use Rattle.type_costs.specs.Capped.{capped};
ghost use Rattle.type_costs.specs.Prices.{priced, prices_of, IsScoped, capped_prices};
ghost use Rattle.type_costs.specs.Bodies.{bodies_cost, bodies_of, body_prices, before_of, soft_in};

use crate::capped::sum;
use crate::prices::{Price, Prices, function_prices, soft_of};
use crate::statements::block_cost;
use idl_forms::bits::bits_scope;
use idl_reach::reached_by_fields;
use idl_spec::BodyScope;
use idl_tree::{Body, CsrBody, FieldBodies, FieldKind, Function, Program, ResetValue};
use idl_width::BitsScope;
use sqlite_items::at;
use std::alloc::Global;
use udb_base::{Name, NoMemory, Space};

#[tactic(auto, using(crate::proofs::BodyCosts::body_laws))]
fn kind_cost(alloc: Global, prices: &Prices, kind: &FieldKind) -> Result<u64, NoMemory>
    requires scope { IsScoped prices.now }
    ensures { IfOk result (λ n. n ≡ bodies_cost (prices_of prices.now) (kind_bodies kind.now)) }
{
    match kind {
        FieldKind::Plain(_) => Ok(0),
        FieldKind::Computed(body) => block_cost(alloc, prices, body.statements.as_slice()),
    }
}

#[tactic(auto, using(crate::proofs::BodyCosts::body_laws))]
fn reset_cost(alloc: Global, prices: &Prices, reset: &ResetValue) -> Result<u64, NoMemory>
    requires scope { IsScoped prices.now }
    ensures { IfOk result (λ n. n ≡ bodies_cost (prices_of prices.now) (reset_bodies reset.now)) }
{
    match reset {
        ResetValue::Plain(_) => Ok(0),
        ResetValue::Computed(body) => block_cost(alloc, prices, body.statements.as_slice()),
    }
}

#[tactic(auto, using(crate::proofs::BodyCosts::body_laws))]
fn write_cost(alloc: Global, prices: &Prices, write: &Option<Body>) -> Result<u64, NoMemory>
    requires scope { IsScoped prices.now }
    ensures { IfOk result (λ n. n ≡ bodies_cost (prices_of prices.now) (write_bodies write.now)) }
{
    match write {
        None => Ok(0),
        Some(body) => block_cost(alloc, prices, body.statements.as_slice()),
    }
}

// What the bodies of a field cost together.
#[tactic(auto, using(crate::proofs::BodyCosts::list_laws))]
fn field_cost(alloc: Global, prices: &Prices, field: &FieldBodies) -> Result<u64, NoMemory>
    requires scope { IsScoped prices.now }
    ensures { IfOk result (λ n. n ≡ bodies_cost (prices_of prices.now) (bodies_of field.now)) }
{
    let kind = kind_cost(alloc, prices, &field.kind)?;
    let reset = reset_cost(alloc, prices, &field.reset)?;
    let write = write_cost(alloc, prices, &field.write)?;
    Ok(sum(kind, sum(reset, write)))
}

#[tactic(auto, using(crate::proofs::BodyCosts::list_laws))]
fn fields_cost(alloc: Global, prices: &Prices, fields: &[FieldBodies]) -> Result<u64, NoMemory>
    requires scope { IsScoped prices.now }
    ensures { IfOk result (λ n. n
        ≡ bodies_cost (prices_of prices.now) (flat_map bodies_of fields.now)) }
{
    let mut cost = 0;
    for field in fields {
        cost = sum(cost, field_cost(alloc, prices, field)?);
    }
    Ok(cost)
}

// What the bodies of the fields of CSRs cost together.
#[tactic(auto, using(crate::proofs::BodyCosts::list_laws))]
fn csrs_cost(alloc: Global, prices: &Prices, csrs: &[CsrBody]) -> Result<u64, NoMemory>
    requires scope { IsScoped prices.now }
    ensures { IfOk result (λ n. n ≡ bodies_cost (prices_of prices.now)
        (flat_map (λ one. flat_map bodies_of one.fields) csrs.now)) }
{
    let mut cost = 0;
    for csr in csrs {
        cost = sum(cost, fields_cost(alloc, prices, csr.fields.as_slice())?);
    }
    Ok(cost)
}

// What the bodies of all fields cost under the prices of functions in which software access adds
// nothing.
fn fields_under(
    alloc: Global,
    space: &Space,
    program: &Program,
    scope: &BitsScope,
    functions: &[Price],
) -> Result<u64, NoMemory>
    requires scope { scope.now ≡ bits_scope program.now [] }
    requires functions { capped_prices (map priced functions.now) ≡ capped_prices
        (meant.function_prices space.now program.now (λ name. 0) [] program.now.functions) }
    ensures { IfOk result (λ n. n ≡ capped (cost_of_fields space.now program.now)) }
{
    let prices = Prices {
        space,
        program,
        variables: &[],
        scope,
        functions,
        soft: 0,
    };
    csrs_cost(alloc, &prices, program.csrs.as_slice())
}

// What the bodies of all fields cost.
fn cost_of_fields(
    alloc: Global,
    space: &Space,
    program: &Program,
    scope: &BitsScope,
) -> Result<u64, NoMemory>
    requires scope { scope.now ≡ bits_scope program.now [] }
    ensures { IfOk result (λ n. n ≡ capped (cost_of_fields space.now program.now)) }
{
    let functions = program.functions.as_slice();
    let prices = function_prices(alloc, space, program, scope, functions, &[], 0)?;
    fields_under(alloc, space, program, scope, prices.as_slice())
}

// The functions that a body may call: those before it where it is a function's.
#[tactic(auto, using(crate::proofs::PlacedCosts::place_laws))]
fn before(functions: &[Function], scope: BodyScope) -> &[Function]
    ensures { result.now ≡ before_of functions.now scope }
{
    let BodyScope::Function { place } = scope else {
        return functions;
    };
    let place = place as usize;
    if place >= functions.len() {
        return functions;
    }
    &functions[..place]
}

// What software access adds in a body.
fn soft_in(functions: &[Function], reached: &[Name], cost: u64, scope: BodyScope) -> u64
    ensures { result ≡ soft_in functions.now reached.now cost scope }
{
    match scope {
        BodyScope::Operation => cost,
        BodyScope::Function { place } => match at(functions, place as usize) {
            Some(f) => soft_of(reached, cost, &f.name),
            None => 0,
        },
        BodyScope::FieldType { csr: _, field: _ } => 0,
        BodyScope::FieldReset { csr: _, field: _ } => 0,
        BodyScope::FieldWrite { csr: _, field: _ } => 0,
    }
}

// What a body costs under the prices of the functions that it may call.
fn own_cost(
    alloc: Global,
    space: &Space,
    program: &Program,
    body: &Body,
    functions: &[Price],
    soft: u64,
) -> Result<u64, NoMemory>
    requires program { IsLawfulProgram program.now }
    requires variables { AreLawfulVariables body.now.variables }
    ensures { IfOk result (λ n. n ≡ capped (cost_under (body_prices space.now program.now body.now
        (map priced functions.now) soft) body.now.statements)) }
{
    let variables = body.variables.as_slice();
    let scope = bits_scope(alloc, program, variables)?;
    let prices = Prices {
        space,
        program,
        variables,
        scope: &scope,
        functions,
        soft,
    };
    block_cost(alloc, &prices, body.statements.as_slice())
}

// What a body costs, with the functions that it may call.
#[tactic(auto, using(crate::proofs::PlacedCosts::place_laws))]
fn cost_of(
    alloc: Global,
    space: &Space,
    program: &Program,
    scope: BodyScope,
    body: &Body,
) -> Result<u64, NoMemory>
    requires program { IsLawfulProgram program.now }
    requires variables { AreLawfulVariables body.now.variables }
    ensures { IfOk result (λ n. n ≡ capped (cost_of space.now program.now scope body.now)) }
{
    let bare = bits_scope(alloc, program, &[])?;
    let fields = cost_of_fields(alloc, space, program, &bare)?;
    let reached = reached_by_fields(alloc, program)?;
    let names = reached.as_slice();
    let functions = program.functions.as_slice();
    let soft = soft_in(functions, names, fields, scope);
    let called = before(functions, scope);
    let prices = function_prices(alloc, space, program, &bare, called, names, fields)?;
    own_cost(alloc, space, program, body, prices.as_slice(), soft)
}

/// Whether a body costs more than 1,048,576: one for each of its nodes, the block of a loop as often
/// as its bounds allow, a call what the function costs, and software access what the bodies of all
/// fields cost. The one refusal is want of memory.
#[tactic(auto, using(crate::proofs::PlacedCosts::past_laws))]
pub fn is_past_cost(
    alloc: Global,
    space: &Space,
    program: &Program,
    scope: BodyScope,
    body: &Body,
) -> Result<bool, NoMemory>
    requires program { IsLawfulProgram program.now }
    requires variables { AreLawfulVariables body.now.variables }
    ensures { IfOk result (λ b. b
        ≡ nat_lt 1048576 (cost_of space.now program.now scope body.now)) }
{
    Ok(cost_of(alloc, space, program, scope, body)? > 1_048_576)
}
