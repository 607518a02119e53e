//! Statements of the first path.

ghost use Rattle.std.specs.Prelude.{◌≡◌, List, ℕ, Option, Some, None, MatchOption, IfOk, codes};
ghost use Rattle.std.specs.Option.{option_map};
ghost use Rattle.first_bundle.specs.Statements.{begins_with, read_digits, read_operand, read_second, read_value, read_target, read_statement, operand_tree, value_tree, assignment_tree, is_register};

use crate::lines::past;
use idl_tree::{Binary, Expr, Stmt, Target, Width};
use std::alloc::Global;
use udb_base::{Boxed, NoMemory};

/// A literal of 32 bits or a register.
#[derive(Clone, Copy)]
pub enum Operand {
    Literal(u32),
    Register(u8),
}

/// An assignment to a register of an operand, or of a sum of a register and an operand.
#[derive(Clone, Copy)]
pub struct Assignment {
    pub register: u8,
    pub first: Operand,
    pub second: Option<Operand>,
}

// The number at the front of a text, and the rest.
fn digits(text: &[u8]) -> (u64, &[u8])
    ensures { (result.0, result.1.now) ≡ read_digits 0 text.now }
{
    let mut number: u64 = 0;
    for (at, byte) in text.iter().enumerate() {
        if !byte.is_ascii_digit() {
            return (number, &text[at..]);
        }
        number = number
            .saturating_mul(10)
            .saturating_add(u64::from(*byte - b'0'));
    }
    (number, &[])
}

/// Whether a text begins with a word.
pub fn begins(text: &[u8], word: &[u8]) -> bool
    ensures { result ≡ begins_with word.now text.now }
{
    text.starts_with(word)
}

// The operand at the front of a text, and the rest.
fn front_operand(text: &[u8]) -> Option<(Operand, &[u8])>
    ensures { option_map (λ r. (r.0, r.1.now)) result ≡ read_operand text.now }
{
    if begins(text, b"32'd") {
        let (number, rest) = digits(past(text, 4));
        if number < 4_294_967_296 {
            return Some((Operand::Literal(number as u32), rest));
        }
        return None;
    }
    if begins(text, b"X[") {
        let (number, rest) = digits(past(text, 2));
        if number < 32 && begins(rest, b"]") {
            return Some((Operand::Register(number as u8), past(rest, 1)));
        }
    }
    None
}

fn is_register(operand: Operand) -> bool
    ensures { result ≡ is_register operand }
{
    match operand {
        Operand::Register(_) => true,
        Operand::Literal(_) => false,
    }
}

// The second operand of a sum, which ends the statement.
fn second(register: u8, first: Operand, text: &[u8]) -> Option<Assignment>
    ensures { result ≡ read_second register first (read_operand text.now) }
{
    match front_operand(text) {
        None => None,
        Some((second, rest)) => {
            if begins(rest, b";") {
                Some(Assignment {
                    register,
                    first,
                    second: Some(second),
                })
            } else {
                None
            }
        }
    }
}

// The assigned value, which ends the statement.
fn value(register: u8, text: &[u8]) -> Option<Assignment>
    ensures { result ≡ read_value register (read_operand text.now) }
{
    match front_operand(text) {
        None => None,
        Some((first, rest)) => {
            if begins(rest, b";") {
                Some(Assignment {
                    register,
                    first,
                    second: None,
                })
            } else if is_register(first) && begins(rest, b" + ") {
                second(register, first, past(rest, 3))
            } else {
                None
            }
        }
    }
}

/// The assignment that a line is, where it is one. What follows its `;` isn't looked at.
pub fn assignment_of(text: &[u8]) -> Option<Assignment>
    ensures { result ≡ read_statement text.now }
{
    match front_operand(text) {
        Some((Operand::Register(register), rest)) => {
            if begins(rest, b" = ") {
                value(register, past(rest, 3))
            } else {
                None
            }
        }
        _ => None,
    }
}

fn tree_of_operand(alloc: Global, operand: Operand) -> Result<Expr, NoMemory>
    ensures { IfOk result (λ tree. tree ≡ operand_tree operand) }
{
    match operand {
        Operand::Literal(value) => Ok(Expr::Sized {
            width: Width::Number(32),
            signed: false,
            value: u128::from(value),
        }),
        Operand::Register(number) => Ok(Expr::Register(Boxed::new(
            alloc,
            Expr::Number(u128::from(number)),
        )?)),
    }
}

fn boxed_operand(alloc: Global, operand: Operand) -> Result<Boxed<Expr>, NoMemory>
    ensures { IfOk result (λ tree. tree ≡ operand_tree operand) }
{
    let tree = tree_of_operand(alloc, operand)?;
    Boxed::new(alloc, tree)
}

fn tree_of_sum(alloc: Global, first: Operand, second: Operand) -> Result<Expr, NoMemory>
    ensures { IfOk result (λ tree. tree ≡ value_tree first (Some second)) }
{
    let left = boxed_operand(alloc, first)?;
    let right = boxed_operand(alloc, second)?;
    Ok(Expr::Binary {
        sign: Binary::Add,
        left,
        right,
    })
}

fn tree_of_value(alloc: Global, first: Operand, second: Option<Operand>) -> Result<Expr, NoMemory>
    ensures { IfOk result (λ tree. tree ≡ value_tree first second) }
{
    match second {
        None => tree_of_operand(alloc, first),
        Some(second) => tree_of_sum(alloc, first, second),
    }
}

/// The tree of an assignment.
pub fn tree_of_assignment(alloc: Global, assignment: Assignment) -> Result<Stmt, NoMemory>
    ensures { IfOk result (λ tree. tree ≡ assignment_tree assignment) }
{
    let value = tree_of_value(alloc, assignment.first, assignment.second)?;
    Ok(Stmt::Assign {
        target: Target::Register(Expr::Number(u128::from(assignment.register))),
        value,
    })
}
