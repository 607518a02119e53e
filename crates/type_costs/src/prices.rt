//! What the cost of a body depends on.

ghost use Rattle.std.specs.Prelude.{◌≡◌, ◌++◌, ◌∷◌, [], map, IfOk, OnOk};
ghost use Rattle.idl_spec.specs.Fields.{bits_scope};
ghost use Rattle.idl_spec.specs.Costs.{cost_under, function_prices};
ghost use Rattle.type_costs.specs.Capped.{capped};
ghost use Rattle.type_costs.specs.Prices.{priced, price_among, capped_prices, bare_prices, soft_of};

use crate::statements::block_cost;
use idl_tree::{Function, Program, Variable};
use idl_width::BitsScope;
use std::alloc::Global;
use udb_base::{Copied, Many, Name, NoMemory, Space, is_among};

/// What a call of a function costs, as far as the bound.
#[derive(Drop)]
pub(crate) struct Price {
    pub(crate) name: Name,
    pub(crate) cost: u64,
}

/// What the cost of a body depends on: the space and the program, the variables of its encoding and
/// the bits that widths can name there, what calls of the functions before it cost, and what
/// `sw_read` and `sw_write` add.
#[derive(Clone, Copy)]
pub(crate) struct Prices<'a> {
    pub(crate) space: &'a Space,
    pub(crate) program: &'a Program,
    pub(crate) variables: &'a [Variable],
    pub(crate) scope: &'a BitsScope,
    pub(crate) functions: &'a [Price],
    pub(crate) soft: u64,
}

/// What a call of the first function of a name costs; 0 where none has it.
pub(crate) fn price_of(functions: &[Price], name: &Name) -> u64
    ensures { result ≡ price_among (map priced functions.now) name.now }
{
    for one in functions {
        if one.name == *name {
            return one.cost;
        }
    }
    0
}

/// What software access adds in a function: nothing where a body of a field reaches it.
pub(crate) fn soft_of(reached: &[Name], cost: u64, name: &Name) -> u64
    ensures { result ≡ soft_of reached.now cost name.now }
{
    if is_among(name, reached) {
        return 0;
    }
    cost
}

// What a function costs under the prices of those before it.
fn function_cost(
    alloc: Global,
    space: &Space,
    program: &Program,
    scope: &BitsScope,
    before: &[Price],
    soft: u64,
    f: &Function,
) -> Result<u64, NoMemory>
    requires scope { scope.now ≡ bits_scope program.now [] }
    ensures { IfOk result (λ n. n ≡ capped (cost_under
        (bare_prices space.now program.now (map priced before.now) soft)
        f.now.body.statements)) }
{
    let prices = Prices {
        space,
        program,
        variables: &[],
        scope,
        functions: before,
        soft,
    };
    block_cost(alloc, &prices, f.body.statements.as_slice())
}

// Appends the price of a function under those before it.
fn push_price(
    alloc: Global,
    space: &Space,
    program: &Program,
    scope: &BitsScope,
    soft: u64,
    f: &Function,
    prices: &mut Many<Price>,
) -> Result<(), NoMemory>
    requires scope { scope.now ≡ bits_scope program.now [] }
    ensures { OnOk result (map priced prices.new ≡ map priced prices.old
        ++ (
          f.now.name,
          capped (cost_under
              (bare_prices space.now program.now (map priced prices.old) soft)
              f.now.body.statements),
        ) ∷ []) }
{
    let cost = function_cost(alloc, space, program, scope, prices.as_slice(), soft, f)?;
    prices.push(Price {
        name: f.name.copy(alloc)?,
        cost,
    })?;
    Ok(())
}

/// What calls of functions cost, each under the prices of those before it. Software access adds
/// `soft` in those that no body of a field reaches. The one refusal is want of memory.
pub(crate) fn function_prices(
    alloc: Global,
    space: &Space,
    program: &Program,
    scope: &BitsScope,
    functions: &[Function],
    reached: &[Name],
    soft: u64,
) -> Result<Many<Price>, NoMemory>
    requires scope { scope.now ≡ bits_scope program.now [] }
    ensures { IfOk result (λ ps. capped_prices (map priced ps) ≡ capped_prices
        (function_prices space.now program.now (soft_of reached.now soft) [] functions.now)) }
{
    let mut prices = Many::new(alloc);
    for f in functions {
        let own = soft_of(reached, soft, &f.name);
        push_price(alloc, space, program, scope, own, f, &mut prices)?;
    }
    Ok(prices)
}
