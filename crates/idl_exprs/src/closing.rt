//! What follows the expression that an atom holds.

ghost use Rattle.std.specs.Prelude.{◌≡◌, ◌≤◌, ◌<◌, ◌^◌, suc, IfOk};
ghost use Rattle.idl_exprs.specs.Gives.{Reads, pair};
ghost use Rattle.idl_exprs.specs.Steps as step;
ghost use Rattle.idl_exprs.specs.Steps.{before_sign};

use crate::cursor::{Cursor, expect, expect_word};
use crate::progress::Open;
use crate::stop::{Stop, keep};
use idl_token::Sign;
use idl_tree::{Boxed, Expr};
use std::alloc::Global;

// soft_read ::= ']' '.' 'sw_read' '(' ')', behind the address
fn soft_read(
    alloc: Global,
    tokens: &mut Cursor<'_>,
    of: Boxed<Expr>,
    nesting: u64,
) -> Result<(Boxed<Expr>, u64), Stop>
    requires { nesting < 2 ^ 32 }
    ensures read { Reads pair (step.address (of, nesting)) tokens.old result tokens.new }
    ensures small { IfOk result (λ x. x.1 ≤ suc nesting) }
{
    let (of, _) = keep(of, expect(tokens, Sign::CloseBracket))?;
    let (of, _) = keep(of, expect(tokens, Sign::Dot))?;
    let (of, _) = keep(of, expect_word(tokens, "sw_read"))?;
    let (of, _) = keep(of, expect(tokens, Sign::OpenParen))?;
    let (of, _) = keep(of, expect(tokens, Sign::CloseParen))?;
    Ok((Boxed::new(alloc, Expr::SoftRead(of))?, nesting + 1))
}

fn before_sign(
    alloc: Global,
    tokens: &mut Cursor<'_>,
    sign: Sign,
    found: Expr,
    nesting: u64,
) -> Result<(Boxed<Expr>, u64), Stop>
    requires { nesting < 2 ^ 32 }
    ensures read { Reads pair (before_sign sign found (suc nesting)) tokens.old result tokens.new }
    ensures small { IfOk result (λ x. x.1 ≤ suc nesting) }
{
    let found = Boxed::new(alloc, found)?;
    let (found, _) = keep(found, expect(tokens, sign))?;
    Ok((found, nesting + 1))
}

/// Behind the expression that an atom holds.
pub fn close(
    alloc: Global,
    tokens: &mut Cursor<'_>,
    start: Open<'_>,
    of: Boxed<Expr>,
    nesting: u64,
) -> Result<(Boxed<Expr>, u64), Stop>
    requires { step.highest start nesting < 2 ^ 32 }
    ensures read { Reads pair (step.closes start.entry (of, nesting)) tokens.old result tokens.new }
    ensures small { IfOk result (λ x. x.1 ≤ suc (step.highest start.entry nesting)) }
{
    match start {
        Open::AsSigned => before_sign(alloc, tokens, Sign::CloseParen, Expr::Signed(of), nesting),
        Open::Resize {
            width,
            nesting: high,
        } => {
            let width = width.into_inner();
            let found = Expr::Resize { width, of };
            before_sign(alloc, tokens, Sign::CloseParen, found, nesting.max(high))
        }
        Open::Register => {
            before_sign(
                alloc,
                tokens,
                Sign::CloseBracket,
                Expr::Register(of),
                nesting,
            )
        }
        Open::Memory(bits) => {
            let found = Expr::ReadMemory { bits, at: of };
            before_sign(alloc, tokens, Sign::CloseParen, found, nesting)
        }
        Open::Address(_) => soft_read(alloc, tokens, of, nesting),
    }
}
