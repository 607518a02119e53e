//! Whether a node of a body does something of one sort.

ghost use Rattle.std.specs.Prelude.{◌≡◌, map};
ghost use Rattle.std.specs.List.{list_any};
ghost use Rattle.idl_spec.specs.Deeds as meant;
ghost use Rattle.idl_spec.specs.Deeds.{calls, reads_field, reads_state, reads_memory, acts, all_of, expr_deeds, stmt_deeds, deeds_of, stays_in_fields};
ghost use Rattle.idl_reach.specs.Asked.{passes, target_asks};

use idl_tree::{Expr, Stmt, Target};
use udb_base::Name;

/// What is asked of a node: whether a body of a field has to leave it, where it may read fields or
/// not; whether it is loud; or whether it calls a function.
#[derive(Clone, Copy)]
pub(crate) enum Asked<'a> {
    Leaves { reads: bool },
    Loud,
    Calls(&'a Name),
}

fn on_call(asked: Asked, name: &Name) -> bool
    ensures { result ≡ passes asked.entry (calls name.now) }
{
    match asked {
        Asked::Leaves { reads: _ } => false,
        Asked::Loud => false,
        Asked::Calls(wanted) => *wanted == *name,
    }
}

fn on_field(asked: Asked) -> bool
    ensures { result ≡ passes asked.entry reads_field }
{
    match asked {
        Asked::Leaves { reads } => !reads,
        Asked::Loud => false,
        Asked::Calls(_) => false,
    }
}

fn on_state(asked: Asked) -> bool
    ensures { result ≡ passes asked.entry reads_state }
{
    match asked {
        Asked::Leaves { reads: _ } => true,
        Asked::Loud => false,
        Asked::Calls(_) => false,
    }
}

fn on_memory(asked: Asked) -> bool
    ensures { result ≡ passes asked.entry reads_memory }
{
    match asked {
        Asked::Leaves { reads: _ } => true,
        Asked::Loud => true,
        Asked::Calls(_) => false,
    }
}

fn on_act(asked: Asked) -> bool
    ensures { result ≡ passes asked.entry acts }
{
    match asked {
        Asked::Leaves { reads: _ } => true,
        Asked::Loud => true,
        Asked::Calls(_) => false,
    }
}

/// Whether an expression or an operand of it does what is asked.
#[cycle(expressions)]
#[tactic(auto, using(crate::proofs::DeedForms::expression_laws))]
pub(crate) fn any_in_expression(asked: Asked, e: &Expr) -> bool
    ensures { result ≡ list_any (passes asked.entry) (expr_deeds e.now) }
{
    match e {
        Expr::Unary { sign: _, of } => any_in_expression(asked, of.get()),
        Expr::Binary {
            sign: _,
            left,
            right,
        } => any_in_expression(asked, left.get()) || any_in_expression(asked, right.get()),
        Expr::WideLeft { left, by: _ } => any_in_expression(asked, left.get()),
        Expr::Choice { test, yes, no } => {
            any_in_expression(asked, test.get())
                || (any_in_expression(asked, yes.get()) || any_in_expression(asked, no.get()))
        }
        Expr::Join(parts) => any_in_expressions(asked, parts.as_slice()),
        Expr::Repeat { times: _, of } => any_in_expression(asked, of.get()),
        Expr::Index { of, at } => {
            any_in_expression(asked, of.get()) || any_in_expression(asked, at.get())
        }
        Expr::Slice {
            of,
            high: _,
            low: _,
        } => any_in_expression(asked, of.get()),
        Expr::Call { name, args } => {
            on_call(asked, name) || any_in_expressions(asked, args.as_slice())
        }
        Expr::Signed(of) => any_in_expression(asked, of.get()),
        Expr::Resize { width: _, of } => any_in_expression(asked, of.get()),
        Expr::Pc => on_state(asked),
        Expr::Encoding => on_state(asked),
        Expr::Register(at) => on_state(asked) || any_in_expression(asked, at.get()),
        Expr::Field { csr: _, field: _ } => on_field(asked),
        Expr::SoftRead(at) => on_memory(asked) || any_in_expression(asked, at.get()),
        Expr::ReadMemory { bits: _, at } => on_memory(asked) || any_in_expression(asked, at.get()),
        Expr::Number(_) => false,
        Expr::Sized {
            width: _,
            signed: _,
            value: _,
        } => false,
        Expr::Text(_) => false,
        Expr::Flag(_) => false,
        Expr::Word(_) => false,
        Expr::Member { kind: _, name: _ } => false,
        Expr::NewField(_) => false,
        Expr::Mode => false,
        Expr::Implemented(_) => false,
        Expr::ImplementedVersion {
            extension: _,
            text: _,
        } => false,
    }
}

#[cycle(expressions)]
fn any_in_expressions(asked: Asked, all: &[Expr]) -> bool
    ensures { result ≡ list_any (passes asked.entry) (all_of (map expr_deeds all.now)) }
{
    for one in all {
        if any_in_expression(asked, one) {
            return true;
        }
    }
    false
}

fn any_in_target(asked: Asked, target: &Target) -> bool
    ensures { result ≡ target_asks (passes asked.entry) target.now }
{
    match target {
        Target::Word(_) => false,
        Target::Bit { name: _, at } => any_in_expression(asked, at),
        Target::Slice {
            name: _,
            high: _,
            low: _,
        } => false,
        Target::Register(at) => on_act(asked) || any_in_expression(asked, at),
        Target::Field { csr: _, field: _ } => on_act(asked),
    }
}

#[cycle(statements)]
#[tactic(auto, using(crate::proofs::DeedForms::statement_laws))]
fn any_in_statement(asked: Asked, s: &Stmt) -> bool
    ensures { result ≡ list_any (passes asked.entry) (stmt_deeds s.now) }
{
    match s {
        Stmt::Declare {
            shape: _,
            name: _,
            value,
        } => any_in_expression(asked, value),
        Stmt::Assign { target, value } => {
            any_in_target(asked, target) || any_in_expression(asked, value)
        }
        Stmt::Block(block) => any_in_statements(asked, block.as_slice()),
        Stmt::Return(value) => any_in_expression(asked, value),
        Stmt::If { test, yes, no } => {
            if any_in_expression(asked, test) || any_in_statements(asked, yes.as_slice()) {
                return true;
            }
            match no {
                Some(no) => any_in_statements(asked, no.as_slice()),
                None => false,
            }
        }
        Stmt::For {
            name: _,
            from: _,
            to: _,
            block,
        } => any_in_statements(asked, block.as_slice()),
        Stmt::Jump(to) => on_act(asked) || any_in_expression(asked, to),
        Stmt::Raise { code, tval } => {
            on_act(asked) || (any_in_expression(asked, code) || any_in_expression(asked, tval))
        }
        Stmt::WriteMemory { bits: _, at, value } => {
            on_act(asked) || (any_in_expression(asked, at) || any_in_expression(asked, value))
        }
        Stmt::SoftWrite { address, value } => {
            on_act(asked) || (any_in_expression(asked, address) || any_in_expression(asked, value))
        }
        Stmt::Call { name, args } => {
            on_call(asked, name) || any_in_expressions(asked, args.as_slice())
        }
    }
}

/// Whether a statement, or an expression in one, does what is asked.
#[cycle(statements)]
pub(crate) fn any_in_statements(asked: Asked, all: &[Stmt]) -> bool
    ensures { result ≡ list_any (passes asked.entry) (deeds_of all.now) }
{
    for one in all {
        if any_in_statement(asked, one) {
            return true;
        }
    }
    false
}

/// Whether statements keep to what a body of a field, or a function that it reaches, may do: they
/// change no state, don't raise, and read no register, memory, `$pc`, `$encoding` or `.sw_read`, and
/// no field where `reads` is false. Their calls aren't followed.
pub fn stays_in_fields(reads: bool, statements: &[Stmt]) -> bool
    ensures { result ≡ stays_in_fields reads statements.now }
{
    !any_in_statements(Asked::Leaves { reads }, statements)
}
