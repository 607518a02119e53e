//! What is known of Boolean parameters at a place of a body.

ghost use Rattle.std.specs.Prelude.{◌≡◌, not};
ghost use Rattle.std.specs.Option.{option_map};
ghost use Rattle.first_prune.specs.Known.{look, known_of, truth_of};
ghost use Rattle.first_prune.specs.Pruning.{known_truth, known_after};
ghost use Rattle.first_prune.specs.Facts.{facts_of};

use entry_tree::Given;
use idl_tree::{Expr, Unary};
use udb_base::{Name, Value};

/// The given values, and a step for each test round the place, the newest first.
#[derive(Clone, Copy)]
pub(crate) enum Facts<'a> {
    Given(&'a [Given]),
    Tested {
        name: &'a Name,
        truth: bool,
        rest: &'a Facts<'a>,
    },
}

fn truth_of(value: &Value) -> bool
    ensures { result ≡ truth_of value.now }
{
    match value {
        Value::Flag(truth) => *truth,
        Value::Number(_number) => false,
        Value::Word(_word) => false,
    }
}

pub(crate) fn look_given(givens: &[Given], name: &Name) -> Option<bool>
    ensures { result ≡ look (known_of givens.now) name.now }
{
    for given in givens {
        if given.name == *name {
            return Some(truth_of(&given.value));
        }
    }
    None
}

fn look(facts: &Facts, name: &Name) -> Option<bool>
    ensures { result ≡ look (facts_of facts.now) name.now }
{
    match facts {
        Facts::Given(givens) => look_given(givens, name),
        Facts::Tested {
            name: tested,
            truth,
            rest,
        } => {
            if **tested == *name {
                Some(*truth)
            } else {
                look(rest, name)
            }
        }
    }
}

fn other(truth: Option<bool>) -> Option<bool>
    ensures { result ≡ option_map not truth }
{
    match truth {
        Some(truth) => Some(!truth),
        None => None,
    }
}

/// The truth value that is known of a test.
#[tactic(auto, using(crate::proofs::FactLemmas::fact_laws))]
pub(crate) fn known_truth(facts: &Facts, test: &Expr) -> Option<bool>
    ensures { result ≡ known_truth (facts_of facts.now) test.now }
{
    match test {
        Expr::Word(name) => look(facts, name),
        Expr::Unary { sign, of } => match sign {
            Unary::Not => other(known_truth(facts, of.get())),
            Unary::Invert => None,
            Unary::Minus => None,
        },
        _ => None,
    }
}

/// What is known where a test has a truth value.
#[tactic(auto, using(crate::proofs::FactLemmas::fact_laws))]
pub(crate) fn known_after<'a>(facts: &'a Facts<'a>, test: &'a Expr, truth: bool) -> Facts<'a>
    ensures { facts_of result ≡ known_after (facts_of facts.now) test.now truth }
{
    match test {
        Expr::Word(name) => Facts::Tested {
            name,
            truth,
            rest: facts,
        },
        Expr::Unary { sign, of } => match sign {
            Unary::Not => known_after(facts, of.get(), !truth),
            Unary::Invert => *facts,
            Unary::Minus => *facts,
        },
        _ => *facts,
    }
}
