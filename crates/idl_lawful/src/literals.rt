//! Whether the literals of bodies have at most 128 bits.

ghost use Rattle.std.specs.Prelude.{◌≡◌, map};
ghost use Rattle.std.specs.List.{list_all};
ghost use Rattle.idl_spec.specs.Deeds.{all_of};
ghost use Rattle.type_laws.specs.Literals.{expr_numbers, stmt_numbers, numbers_of};
ghost use Rattle.idl_lawful.specs.Tests.{is_below_power};
ghost use Rattle.idl_lawful.specs.Readings.{are_small, is_small_target};

use idl_tree::{Expr, Stmt, Target};

// A literal that the tree holds has at most 128 bits.
fn is_small(number: u128) -> bool
    ensures { result ≡ is_below_power 128 number }
{
    let _ = number;
    true
}

#[cycle(expressions)]
#[tactic(auto, using(crate::proofs::LiteralForms::expression_laws))]
fn is_small_expression(e: &Expr) -> bool
    ensures { result ≡ list_all (is_below_power 128) (expr_numbers e.now) }
{
    match e {
        Expr::Number(number) => is_small(*number),
        Expr::Unary { sign: _, of } => is_small_expression(of.get()),
        Expr::Binary {
            sign: _,
            left,
            right,
        } => is_small_expression(left.get()) && is_small_expression(right.get()),
        Expr::WideLeft { left, by: _ } => is_small_expression(left.get()),
        Expr::Choice { test, yes, no } => {
            is_small_expression(test.get())
                && (is_small_expression(yes.get()) && is_small_expression(no.get()))
        }
        Expr::Join(parts) => are_small_expressions(parts.as_slice()),
        Expr::Repeat { times: _, of } => is_small_expression(of.get()),
        Expr::Index { of, at } => is_small_expression(of.get()) && is_small_expression(at.get()),
        Expr::Slice {
            of,
            high: _,
            low: _,
        } => is_small_expression(of.get()),
        Expr::Call { name: _, args } => are_small_expressions(args.as_slice()),
        Expr::Signed(of) => is_small_expression(of.get()),
        Expr::Resize { width: _, of } => is_small_expression(of.get()),
        Expr::Register(at) => is_small_expression(at.get()),
        Expr::SoftRead(at) => is_small_expression(at.get()),
        Expr::ReadMemory { bits: _, at } => is_small_expression(at.get()),
        Expr::Sized {
            width: _,
            signed: _,
            value: _,
        } => true,
        Expr::Text(_) => true,
        Expr::Flag(_) => true,
        Expr::Word(_) => true,
        Expr::Member { kind: _, name: _ } => true,
        Expr::Pc => true,
        Expr::Encoding => true,
        Expr::Field { csr: _, field: _ } => true,
        Expr::NewField(_) => true,
        Expr::Mode => true,
        Expr::Implemented(_) => true,
        Expr::ImplementedVersion {
            extension: _,
            text: _,
        } => true,
    }
}

#[cycle(expressions)]
fn are_small_expressions(all: &[Expr]) -> bool
    ensures { result ≡ list_all (is_below_power 128) (all_of (map expr_numbers all.now)) }
{
    for one in all {
        if !is_small_expression(one) {
            return false;
        }
    }
    true
}

fn is_small_target(target: &Target) -> bool
    ensures { result ≡ is_small_target target.now }
{
    match target {
        Target::Word(_) => true,
        Target::Bit { name: _, at } => is_small_expression(at),
        Target::Slice {
            name: _,
            high: _,
            low: _,
        } => true,
        Target::Register(at) => is_small_expression(at),
        Target::Field { csr: _, field: _ } => true,
    }
}

#[cycle(statements)]
#[tactic(auto, using(crate::proofs::LiteralForms::statement_laws))]
fn is_small_statement(s: &Stmt) -> bool
    ensures { result ≡ list_all (is_below_power 128) (stmt_numbers s.now) }
{
    match s {
        Stmt::Declare {
            shape: _,
            name: _,
            value,
        } => is_small_expression(value),
        Stmt::Assign { target, value } => is_small_target(target) && is_small_expression(value),
        Stmt::Block(block) => are_small_statements(block.as_slice()),
        Stmt::Return(value) => is_small_expression(value),
        Stmt::If { test, yes, no } => {
            if !is_small_expression(test) || !are_small_statements(yes.as_slice()) {
                return false;
            }
            match no {
                Some(no) => are_small_statements(no.as_slice()),
                None => true,
            }
        }
        Stmt::For {
            name: _,
            from: _,
            to: _,
            block,
        } => are_small_statements(block.as_slice()),
        Stmt::Jump(to) => is_small_expression(to),
        Stmt::Raise { code, tval } => is_small_expression(code) && is_small_expression(tval),
        Stmt::WriteMemory { bits: _, at, value } => {
            is_small_expression(at) && is_small_expression(value)
        }
        Stmt::SoftWrite { address, value } => {
            is_small_expression(address) && is_small_expression(value)
        }
        Stmt::Call { name: _, args } => are_small_expressions(args.as_slice()),
    }
}

/// Whether the literals of statements have at most 128 bits, which the types of a tree in memory
/// leave no way to break; those with a width of their own aren't asked.
#[cycle(statements)]
pub(crate) fn are_small_statements(all: &[Stmt]) -> bool
    ensures { result ≡ are_small all.now }
{
    for one in all {
        if !is_small_statement(one) {
            return false;
        }
    }
    true
}
