//! The costs of expressions.

ghost use Rattle.std.specs.Prelude.{◌≡◌, sum_by};
ghost use Rattle.idl_spec.specs.Costs.{expr_cost};
ghost use Rattle.type_costs.specs.Capped.{capped};
ghost use Rattle.type_costs.specs.Prices.{prices_of};

use crate::capped::sum;
use crate::prices::{Prices, price_of};
use idl_tree::Expr;

/// What an expression costs: one for each node, and what its calls and its software access add.
#[cycle(expression_costs)]
#[tactic(auto, using(crate::proofs::ExpressionCosts::cost_laws))]
pub(crate) fn expression_cost(prices: &Prices, e: &Expr) -> u64
    ensures { result ≡ capped (expr_cost (prices_of prices.now) e.now) }
{
    match e {
        Expr::Number(_) => 1,
        Expr::Sized {
            width: _,
            signed: _,
            value: _,
        } => 1,
        Expr::Text(_) => 1,
        Expr::Flag(_) => 1,
        Expr::Word(_) => 1,
        Expr::Member { kind: _, name: _ } => 1,
        Expr::Unary { sign: _, of } => sum(1, expression_cost(prices, of.get())),
        Expr::Binary {
            sign: _,
            left,
            right,
        } => sum(
            1,
            sum(
                expression_cost(prices, left.get()),
                expression_cost(prices, right.get()),
            ),
        ),
        Expr::WideLeft { left, by: _ } => sum(1, expression_cost(prices, left.get())),
        Expr::Choice { test, yes, no } => {
            let sides = sum(
                expression_cost(prices, yes.get()),
                expression_cost(prices, no.get()),
            );
            sum(1, sum(expression_cost(prices, test.get()), sides))
        }
        Expr::Join(parts) => sum(1, expression_costs(prices, parts.as_slice())),
        Expr::Repeat { times: _, of } => sum(1, expression_cost(prices, of.get())),
        Expr::Index { of, at } => sum(
            1,
            sum(
                expression_cost(prices, of.get()),
                expression_cost(prices, at.get()),
            ),
        ),
        Expr::Slice {
            of,
            high: _,
            low: _,
        } => sum(1, expression_cost(prices, of.get())),
        Expr::Call { name, args } => sum(
            sum(1, price_of(prices.functions, name)),
            expression_costs(prices, args.as_slice()),
        ),
        Expr::Signed(of) => sum(1, expression_cost(prices, of.get())),
        Expr::Resize { width: _, of } => sum(1, expression_cost(prices, of.get())),
        Expr::Pc => 1,
        Expr::Encoding => 1,
        Expr::Register(at) => sum(1, expression_cost(prices, at.get())),
        Expr::Field { csr: _, field: _ } => 1,
        Expr::SoftRead(at) => sum(sum(1, prices.soft), expression_cost(prices, at.get())),
        Expr::ReadMemory { bits: _, at } => sum(1, expression_cost(prices, at.get())),
        Expr::NewField(_) => 1,
        Expr::Mode => 1,
        Expr::Implemented(_) => 1,
        Expr::ImplementedVersion {
            extension: _,
            text: _,
        } => 1,
    }
}

/// What expressions cost together.
#[cycle(expression_costs)]
#[tactic(auto, using(crate::proofs::ExpressionCosts::list_laws))]
pub(crate) fn expression_costs(prices: &Prices, all: &[Expr]) -> u64
    ensures { result ≡ capped (sum_by (expr_cost (prices_of prices.now)) all.now) }
{
    let mut cost = 0;
    for one in all {
        cost = sum(cost, expression_cost(prices, one));
    }
    cost
}
