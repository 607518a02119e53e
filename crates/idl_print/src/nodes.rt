//! The nodes of bodies by their numbers.

ghost use Rattle.std.specs.Prelude.{◌≡◌, ◌==◌, ◌-◌, ◌↔◌, IfOk, OnOk};
ghost use Rattle.std.specs.List.{flat_map};
ghost use Rattle.idl_tree.specs.Print.{stmt_lines};
ghost use Rattle.idl_tree.specs.Nodes.{expr_lines, target_lines, expr_parts, expr_nodes, target_parts, target_nodes, stmt_parts, stmt_nodes, node_lines, IsNoNode, node_at};
ghost use Rattle.idl_print.specs.Searches.{after_node, after_nodes};

use crate::statement_lines::{expression_alone, statement_alone, target_alone};
use idl_tree::{Body, Expr, Stmt, Target};
use std::alloc::Global;
use udb_base::{Lines, NoMemory};

// The search for one node: its number counted from the node that comes next, which is 0 once it was
// passed, and its lines from then on.
#[derive(Drop)]
struct Search {
    left: u32,
    found: Option<Lines>,
}

impl Search {
    // Passes a node, and tells whether it is the one that is looked for.
    fn passes(&mut self) -> bool
        ensures here { result ≡ (self.old.left == 1) }
        ensures after { self.new ≡ record self.old { left = self.old.left - 1 } }
    {
        let here = self.left == 1;
        self.left = self.left.saturating_sub(1);
        here
    }
}

#[tactic(auto, unfolding(crate::specs::Searches::after_node))]
fn visit_expression(alloc: Global, search: &mut Search, e: &Expr) -> Result<(), NoMemory>
    ensures { OnOk result (search.new ≡ after_node (expr_lines e.now) search.old) }
{
    if !search.passes() {
        return Ok(());
    }
    let lines = expression_alone(alloc, e)?;
    search.found = Some(lines);
    Ok(())
}

#[tactic(auto, unfolding(crate::specs::Searches::after_node))]
fn visit_target(alloc: Global, search: &mut Search, target: &Target) -> Result<(), NoMemory>
    ensures { OnOk result (search.new ≡ after_node (target_lines target.now) search.old) }
{
    if !search.passes() {
        return Ok(());
    }
    let lines = target_alone(alloc, target)?;
    search.found = Some(lines);
    Ok(())
}

#[tactic(auto, unfolding(crate::specs::Searches::after_node))]
fn visit_statement(alloc: Global, search: &mut Search, s: &Stmt) -> Result<(), NoMemory>
    ensures { OnOk result (search.new ≡ after_node (stmt_lines s.now) search.old) }
{
    if !search.passes() {
        return Ok(());
    }
    let lines = statement_alone(alloc, s)?;
    search.found = Some(lines);
    Ok(())
}

#[cycle(expression_nodes)]
#[tactic(auto, using(crate::proofs::NodeLaws::first_nodes))]
fn seek_expression(alloc: Global, search: &mut Search, e: &Expr) -> Result<(), NoMemory>
    ensures { OnOk result (search.new ≡ after_nodes (expr_nodes e.now) search.old) }
{
    visit_expression(alloc, search, e)?;
    seek_parts(alloc, search, e)
}

#[cycle(expression_nodes)]
#[tactic(auto, using(crate::proofs::NodeLaws::expression_nodes))]
fn seek_parts(alloc: Global, search: &mut Search, e: &Expr) -> Result<(), NoMemory>
    ensures { OnOk result (search.new ≡ after_nodes (expr_parts e.now) search.old) }
{
    match e {
        Expr::Number(_) => Ok(()),
        Expr::Sized { .. } => Ok(()),
        Expr::Text(_) => Ok(()),
        Expr::Flag(_) => Ok(()),
        Expr::Word(_) => Ok(()),
        Expr::Member { .. } => Ok(()),
        Expr::Unary { of, .. } => seek_expression(alloc, search, of.get()),
        Expr::Binary { left, right, .. } => {
            seek_expression(alloc, search, left.get())?;
            seek_expression(alloc, search, right.get())
        }
        Expr::WideLeft { left, .. } => seek_expression(alloc, search, left.get()),
        Expr::Choice { test, yes, no } => {
            seek_expression(alloc, search, test.get())?;
            seek_expression(alloc, search, yes.get())?;
            seek_expression(alloc, search, no.get())
        }
        Expr::Join(parts) => seek_expressions(alloc, search, parts.as_slice()),
        Expr::Repeat { of, .. } => seek_expression(alloc, search, of.get()),
        Expr::Index { of, at } => {
            seek_expression(alloc, search, of.get())?;
            seek_expression(alloc, search, at.get())
        }
        Expr::Slice { of, .. } => seek_expression(alloc, search, of.get()),
        Expr::Call { args, .. } => seek_expressions(alloc, search, args.as_slice()),
        Expr::Signed(of) => seek_expression(alloc, search, of.get()),
        Expr::Resize { of, .. } => seek_expression(alloc, search, of.get()),
        Expr::Pc => Ok(()),
        Expr::Encoding => Ok(()),
        Expr::Register(at) => seek_expression(alloc, search, at.get()),
        Expr::Field { .. } => Ok(()),
        Expr::SoftRead(at) => seek_expression(alloc, search, at.get()),
        Expr::ReadMemory { at, .. } => seek_expression(alloc, search, at.get()),
        Expr::NewField(_) => Ok(()),
        Expr::Mode => Ok(()),
        Expr::Implemented(_) => Ok(()),
        Expr::ImplementedVersion { .. } => Ok(()),
    }
}

#[cycle(expression_nodes)]
#[tactic(auto, using(crate::proofs::NodeLaws::next_expression))]
fn seek_expressions(alloc: Global, search: &mut Search, all: &[Expr]) -> Result<(), NoMemory>
    ensures { OnOk result (search.new ≡ after_nodes (flat_map expr_nodes all.now) search.old) }
{
    for next in all {
        seek_expression(alloc, search, next)?;
    }
    Ok(())
}

#[tactic(auto, using(crate::proofs::NodeLaws::target_nodes_laws))]
fn seek_target_parts(alloc: Global, search: &mut Search, target: &Target) -> Result<(), NoMemory>
    ensures { OnOk result (search.new ≡ after_nodes (target_parts target.now) search.old) }
{
    match target {
        Target::Word(_) => Ok(()),
        Target::Bit { at, .. } => seek_expression(alloc, search, at),
        Target::Slice { .. } => Ok(()),
        Target::Register(at) => seek_expression(alloc, search, at),
        Target::Field { .. } => Ok(()),
    }
}

#[tactic(auto, using(crate::proofs::NodeLaws::first_nodes))]
fn seek_target(alloc: Global, search: &mut Search, target: &Target) -> Result<(), NoMemory>
    ensures { OnOk result (search.new ≡ after_nodes (target_nodes target.now) search.old) }
{
    visit_target(alloc, search, target)?;
    seek_target_parts(alloc, search, target)
}

#[cycle(statement_nodes)]
#[tactic(auto, using(crate::proofs::NodeLaws::first_nodes))]
fn seek_statement(alloc: Global, search: &mut Search, s: &Stmt) -> Result<(), NoMemory>
    ensures { OnOk result (search.new ≡ after_nodes (stmt_nodes s.now) search.old) }
{
    visit_statement(alloc, search, s)?;
    seek_statement_parts(alloc, search, s)
}

#[cycle(statement_nodes)]
#[tactic(auto, using(crate::proofs::NodeLaws::statement_nodes))]
fn seek_statement_parts(alloc: Global, search: &mut Search, s: &Stmt) -> Result<(), NoMemory>
    ensures { OnOk result (search.new ≡ after_nodes (stmt_parts s.now) search.old) }
{
    match s {
        Stmt::Declare { value, .. } => seek_expression(alloc, search, value),
        Stmt::Assign { target, value } => {
            seek_target(alloc, search, target)?;
            seek_expression(alloc, search, value)
        }
        Stmt::Block(block) => seek_statements(alloc, search, block.as_slice()),
        Stmt::Return(value) => seek_expression(alloc, search, value),
        Stmt::If { test, yes, no } => {
            seek_expression(alloc, search, test)?;
            seek_statements(alloc, search, yes.as_slice())?;
            match no {
                Some(no) => seek_statements(alloc, search, no.as_slice()),
                None => Ok(()),
            }
        }
        Stmt::For { block, .. } => seek_statements(alloc, search, block.as_slice()),
        Stmt::Jump(to) => seek_expression(alloc, search, to),
        Stmt::Raise { code, tval } => {
            seek_expression(alloc, search, code)?;
            seek_expression(alloc, search, tval)
        }
        Stmt::WriteMemory { at, value, .. } => {
            seek_expression(alloc, search, at)?;
            seek_expression(alloc, search, value)
        }
        Stmt::SoftWrite { address, value } => {
            seek_expression(alloc, search, address)?;
            seek_expression(alloc, search, value)
        }
        Stmt::Call { args, .. } => seek_expressions(alloc, search, args.as_slice()),
    }
}

#[cycle(statement_nodes)]
#[tactic(auto, using(crate::proofs::NodeLaws::next_statement))]
fn seek_statements(alloc: Global, search: &mut Search, all: &[Stmt]) -> Result<(), NoMemory>
    ensures { OnOk result (search.new ≡ after_nodes (flat_map stmt_nodes all.now) search.old) }
{
    for next in all {
        seek_statement(alloc, search, next)?;
    }
    Ok(())
}

/// The printed lines of one node of a body, the first without indentation and no parentheses round
/// it. Nodes are the statements, targets and expressions, numbered from 1 in the order of their
/// beginnings; what stands inside a node comes after it, and widths are no nodes. There is none for 0
/// and past the last node. The one refusal is want of memory.
#[tactic(auto, using(crate::proofs::NodeLaws::found_node))]
pub fn print_node(alloc: Global, body: &Body, node: u32) -> Result<Option<Lines>, NoMemory>
    ensures lines { IfOk result (λ found. found ≡ node_at (node_lines body.now) node) }
    ensures none { IfOk result (λ found. (found ≡ None) ↔ IsNoNode body.now node) }
{
    let mut search = Search {
        left: node,
        found: None,
    };
    seek_statements(alloc, &mut search, body.statements.as_slice())?;
    Ok(search.found)
}
