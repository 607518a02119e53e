//! Bodies as far as what is known settles them.

ghost use Rattle.std.specs.Prelude.{◌≡◌, ◌++◌, ◌∷◌, [], IfOk, OnOk};
ghost use Rattle.idl_tree.specs.declared.statements.Stmt.TheVariants as v;
ghost use Rattle.first_spec.specs.Bundle.{IsFirst};
ghost use Rattle.first_prune.specs.Bundles.{shown_of, KeepsFirst, SettlesFirst};
ghost use Rattle.first_prune.specs.Known.{known_of};
ghost use Rattle.first_prune.specs.Facts.{facts_of};
ghost use Rattle.first_prune.specs.Pruning.{pruned, pruned_one};

use crate::facts::{Facts, known_after, known_truth};
use entry_tree::Given;
use first_spec::FirstBundle;
use idl_copy::{copy_expression, copy_statement};
use idl_tree::{Expr, Stmt, Stmts};
use std::alloc::Global;
use udb_base::{Many, NoMemory};

fn push_copy(alloc: Global, shown: &mut Stmts, statement: &Stmt) -> Result<(), NoMemory>
    ensures { OnOk result (shown.new ≡ shown.old ++ statement.now ∷ []) }
{
    shown.push(copy_statement(alloc, statement)?)?;
    Ok(())
}

fn push_block(shown: &mut Stmts, block: Stmts) -> Result<(), NoMemory>
    ensures { OnOk result (shown.new ≡ shown.old ++ v.Block block ∷ []) }
{
    shown.push(Stmt::Block(block))?;
    Ok(())
}

fn push_if(
    alloc: Global,
    shown: &mut Stmts,
    test: &Expr,
    yes: Stmts,
    no: Option<Stmts>,
) -> Result<(), NoMemory>
    ensures { OnOk result (shown.new ≡ shown.old ++ v.If test.now yes no ∷ []) }
{
    let test = copy_expression(alloc, test)?;
    shown.push(Stmt::If { test, yes, no })?;
    Ok(())
}

#[cycle(pruning)]
#[tactic(auto, using(crate::proofs::PruningLemmas::pruning_laws))]
fn prune_onto(
    alloc: Global,
    statement: &Stmt,
    facts: &Facts,
    shown: &mut Stmts,
) -> Result<(), NoMemory>
    ensures { OnOk result (shown.new ≡ shown.old ++ pruned_one statement.now (facts_of facts.now)) }
{
    match statement {
        Stmt::Block(block) => {
            let block = prune_all(alloc, block.as_slice(), facts)?;
            push_block(shown, block)
        }
        Stmt::If { test, yes, no } => match known_truth(facts, test) {
            Some(truth) => {
                if truth {
                    let block = prune_all(alloc, yes.as_slice(), facts)?;
                    push_block(shown, block)
                } else {
                    match no {
                        Some(no) => {
                            let block = prune_all(alloc, no.as_slice(), facts)?;
                            push_block(shown, block)
                        }
                        None => Ok(()),
                    }
                }
            }
            None => {
                let after = known_after(&*facts, &*test, true);
                let yes = prune_all(alloc, yes.as_slice(), &after)?;
                match no {
                    Some(no) => {
                        let after = known_after(&*facts, &*test, false);
                        let no = prune_all(alloc, no.as_slice(), &after)?;
                        push_if(alloc, shown, test, yes, Some(no))
                    }
                    None => push_if(alloc, shown, test, yes, None),
                }
            }
        },
        _ => push_copy(alloc, shown, statement),
    }
}

#[cycle(pruning)]
fn prune_all(alloc: Global, statements: &[Stmt], facts: &Facts) -> Result<Stmts, NoMemory>
    ensures { IfOk result (λ shown. shown ≡ pruned (facts_of facts.now) statements.now) }
{
    let mut shown = Many::new(alloc);
    for statement in statements {
        prune_onto(alloc, statement, facts, &mut shown)?;
    }
    Ok(shown)
}

/// What is shown of statements where values are given: each `if` that they and the tests round it
/// decide is the block that is taken, or nothing. The one refusal is want of memory.
pub fn prune(alloc: Global, givens: &[Given], statements: &[Stmt]) -> Result<Stmts, NoMemory>
    ensures { IfOk result (λ shown. shown ≡ pruned (known_of givens.now) statements.now) }
{
    prune_all(alloc, statements, &Facts::Given(givens))
}

/// What a manual shows of the body of a bundle's instruction. The one refusal is want of memory.
pub fn prune_bundle(alloc: Global, bundle: &FirstBundle) -> Result<Stmts, NoMemory>
    ensures pruned { IfOk result (λ shown. shown ≡ shown_of bundle.now) }

    // In every completion that has the instruction, and from every state, it has the outcome of the
    // whole body, which is never stuck.
    ensures keeps { IfOk result (λ shown. IsFirst bundle.now → KeepsFirst bundle.now shown) }

    // No test is decided where it stands, and no parameter with one value is named.
    ensures settles { IfOk result (λ shown. IsFirst bundle.now → SettlesFirst bundle.now shown) }
{
    let givens = bundle.config.params.as_slice();
    let statements = bundle.instruction.operation.statements.as_slice();
    prune(alloc, givens, statements)
}
