//! The costs of statements.

ghost use Rattle.std.specs.Prelude.{◌≡◌, ◌+◌, IfOk};
ghost use Rattle.idl_spec.specs.Costs.{expr_cost, stmt_cost, cost_under, greatest_turns};
ghost use Rattle.type_costs.specs.Capped.{capped};
ghost use Rattle.type_costs.specs.Prices.{prices_of, IsScoped, target_cost};

use crate::capped::{product, sum};
use crate::expressions::{expression_cost, expression_costs};
use crate::prices::{Prices, price_of};
use crate::turns::{Bounds, greatest_turns};
use idl_tree::{Expr, Stmt, Target, Width};
use std::alloc::Global;
use udb_base::NoMemory;

// What the target of an assignment costs.
#[tactic(auto, using(crate::proofs::StatementCosts::target_laws))]
fn target_cost(prices: &Prices, target: &Target) -> u64
    ensures { result ≡ capped (target_cost (prices_of prices.now) target.now) }
{
    match target {
        Target::Word(_) => 1,
        Target::Bit { name: _, at } => sum(1, expression_cost(prices, at)),
        Target::Slice {
            name: _,
            high: _,
            low: _,
        } => 1,
        Target::Register(at) => sum(1, expression_cost(prices, at)),
        Target::Field { csr: _, field: _ } => 1,
    }
}

fn two_costs(prices: &Prices, a: &Expr, b: &Expr) -> u64
    ensures { result ≡ capped (capped (expr_cost (prices_of prices.now) a.now)
        + capped (expr_cost (prices_of prices.now) b.now)) }
{
    sum(expression_cost(prices, a), expression_cost(prices, b))
}

// How often the block of a loop runs at most.
fn turns(alloc: Global, prices: &Prices, from: &Width, to: &Width) -> Result<u64, NoMemory>
    requires scope { IsScoped prices.now }
    ensures { IfOk result (λ n. n ≡ greatest_turns prices.now.space.now prices.now.program.now
        prices.now.variables.now from.now to.now) }
{
    let bounds = Bounds {
        space: prices.space,
        program: prices.program,
        variables: prices.variables,
        scope: prices.scope,
        from,
        to,
    };
    greatest_turns(alloc, &bounds)
}

#[cycle(statement_costs)]
#[tactic(auto, using(crate::proofs::StatementCosts::cost_laws))]
fn statement_cost(alloc: Global, prices: &Prices, s: &Stmt) -> Result<u64, NoMemory>
    requires scope { IsScoped prices.now }
    ensures { IfOk result (λ n. n ≡ capped (stmt_cost (prices_of prices.now) s.now)) }
{
    match s {
        Stmt::Declare {
            shape: _,
            name: _,
            value,
        } => Ok(sum(1, expression_cost(prices, value))),
        Stmt::Assign { target, value } => Ok(sum(
            sum(1, target_cost(prices, target)),
            expression_cost(prices, value),
        )),
        Stmt::Block(block) => Ok(sum(1, block_cost(alloc, prices, block.as_slice())?)),
        Stmt::Return(value) => Ok(sum(1, expression_cost(prices, value))),
        Stmt::If { test, yes, no } => {
            let yes = block_cost(alloc, prices, yes.as_slice())?;
            match no {
                Some(no) => {
                    let no = block_cost(alloc, prices, no.as_slice())?;
                    Ok(sum(1, sum(expression_cost(prices, test), sum(yes, no))))
                }
                None => Ok(sum(1, sum(expression_cost(prices, test), yes))),
            }
        }
        Stmt::For {
            name: _,
            from,
            to,
            block,
        } => {
            let turns = turns(alloc, prices, from, to)?;
            let block = block_cost(alloc, prices, block.as_slice())?;
            Ok(sum(1, product(turns, block)))
        }
        Stmt::Jump(to) => Ok(sum(1, expression_cost(prices, to))),
        Stmt::Raise { code, tval } => Ok(sum(1, two_costs(prices, code, tval))),
        Stmt::WriteMemory { bits: _, at, value } => Ok(sum(1, two_costs(prices, at, value))),
        Stmt::SoftWrite { address, value } => {
            Ok(sum(sum(1, prices.soft), two_costs(prices, address, value)))
        }
        Stmt::Call { name, args } => Ok(sum(
            sum(1, price_of(prices.functions, name)),
            expression_costs(prices, args.as_slice()),
        )),
    }
}

/// What statements cost together: one for each node, what calls and software access add, and the
/// block of a loop once for each turn. The one refusal is want of memory.
#[cycle(statement_costs)]
#[tactic(auto, using(crate::proofs::StatementCosts::block_laws))]
pub(crate) fn block_cost(alloc: Global, prices: &Prices, block: &[Stmt]) -> Result<u64, NoMemory>
    requires scope { IsScoped prices.now }
    ensures { IfOk result (λ n. n ≡ capped (cost_under (prices_of prices.now) block.now)) }
{
    let mut cost = 0;
    for s in block {
        cost = sum(cost, statement_cost(alloc, prices, s)?);
    }
    Ok(cost)
}
