//! The variable that is split or cut next.

ghost use Rattle.std.specs.Prelude.{◌≡◌, ◌<◌, ◌≤◌, ◌^◌, ◌+◌, true, List, length, map};
ghost use Rattle.std.specs.List.{list_any};
ghost use Rattle.udb_base.specs.declared.versions.Requirement.{Requirement};
ghost use Rattle.udb_spec.specs.Cells.{Step, param_cells};
ghost use Rattle.udb_spec.specs.Conditions.{passes};
ghost use Rattle.udb_spec.specs.Known.{known, known_over, ext_known, param_known};
ghost use Rattle.udb_cond.specs.Steps.{steps_of};
ghost use Rattle.udb_cond.specs.Tally.{is_unknown};
ghost use Rattle.udb_spec.specs.ProofText.{HasShortPlaces};
ghost use Rattle.udb_refute.specs.Boards.{IsBoard};
ghost use Rattle.udb_refute.specs.Search.{IsChosen, IsDivided, IsOpen, IsShortDomain, HasShortLists, is_range, cut_number};
ghost use Rattle.udb_refute.specs.Variables.{HasVariables};
ghost use Rattle.udb_spec.specs.Refutes.{is_unsplit};

use crate::boards::Board;
use crate::cells::low_end;
use crate::truth::truth;
use crate::variables::Variables;
use udb_base::Name;
use udb_cond::{Cells, Cond, Domain, Known, Space, Test, Value};

/// How the cells of a variable are divided: an extension or a listed parameter into each of its
/// choices, a range into the numbers below `at` and those from `at`.
#[derive(Clone, Copy)]
pub(crate) enum Choice {
    Split { param: bool, place: u32, count: u32 },
    Cut { place: u32, at: u64 },
}

fn ext_choice(space: &Space, name: &Name) -> Option<Choice>
    requires lists { HasShortLists space.now }
    requires places { HasShortPlaces space.now }
    ensures { (path : List Step) (needs : List Requirement)
        → ext_known path 0 space.now.extensions name.now needs ≡ Known.Unknown
        → IsChosen space.now path result }
{
    let extensions = space.extensions.as_slice();
    for (place, extension) in extensions.iter().enumerate() {
        if extension.name == *name {
            return Some(Choice::Split {
                param: false,
                place: place as u32,
                count: extension.versions.len() as u32 + 1,
            });
        }
    }
    None
}

// The number after one, at most the last of a range.
fn next_number(given: u64, high: u64) -> u64
    ensures { given + 1 ≤ high → result ≡ given + 1 }
{
    if given < high { given + 1 } else { high }
}

// Where a range with this low end is cut, so that the test has one answer on a side of the cut.
fn cut_at(least: u64, high: u64, test: Test, given: u64) -> u64
    ensures { cut_number least test given ≤ high → result ≡ cut_number least test given }
{
    match test {
        Test::Below => given,
        Test::AtLeast => given,
        Test::AtMost => next_number(given, high),
        Test::Above => next_number(given, high),
        Test::Equal | Test::NotEqual => {
            if least < given {
                given
            } else {
                next_number(given, high)
            }
        }
    }
}

fn listed(place: usize, count: usize) -> Choice
    requires place { place < 2 ^ 32 }
    requires count { count < 2 ^ 32 }
    ensures { result ≡ Choice.Split true place count }
{
    Choice::Split {
        param: true,
        place: place as u32,
        count: count as u32,
    }
}

fn value_choice(
    place: usize,
    domain: &Domain,
    test: Test,
    given: &Value,
    cells: &Cells,
) -> Option<Choice>
    requires short { IsShortDomain domain.now }
    requires place { place < 2 ^ 32 }
    ensures { (is_range domain.now ≡ true → is_unsplit (steps_of cells.now) true place ≡ true)
        → known_over (map (λ x. passes test x given.now) (param_cells
        (steps_of cells.now) place domain.now)) ≡ Known.Unknown → IsDivided
        (steps_of cells.now) place domain.now result }
{
    match domain {
        Domain::Flags => Some(listed(place, 2)),
        Domain::Numbers(numbers) => Some(listed(place, numbers.len())),
        Domain::Words(words) => Some(listed(place, words.len())),
        Domain::Range { low, high } => match given {
            Value::Number(given) => Some(Choice::Cut {
                place: place as u32,
                at: cut_at(low_end(cells, place, *low), *high, test, *given),
            }),
            _ => None,
        },
    }
}

fn param_choice(
    space: &Space,
    name: &Name,
    test: Test,
    given: &Value,
    cells: &Cells,
) -> Option<Choice>
    requires lists { HasShortLists space.now }
    requires places { HasShortPlaces space.now }
    requires open { IsOpen space.now (steps_of cells.now) }
    ensures { param_known (steps_of cells.now) 0 space.now.params name.now test given.now
        ≡ Known.Unknown → IsChosen space.now (steps_of cells.now) result }
{
    let params = space.params.as_slice();
    for (place, param) in params.iter().enumerate() {
        if param.name == *name {
            return value_choice(place, &param.domain, test, given, cells);
        }
    }
    None
}

fn is_unknown(
    space: &Space,
    cells: &Cells,
    variables: &Variables,
    board: &Board,
    cond: &Cond,
) -> bool
    requires variables { HasVariables space.now variables.now }
    requires board { IsBoard space.now (steps_of cells.now) board.now }
    requires open { IsOpen space.now (steps_of cells.now) }
    ensures { result ≡ is_unknown (known space.now (steps_of cells.now) cond.now) }
{
    match truth(space, cells, variables, board, cond) {
        Known::Unknown => true,
        Known::Yes => false,
        Known::No => false,
    }
}

#[cycle(choosing)]
fn choice_among(
    space: &Space,
    cells: &Cells,
    variables: &Variables,
    board: &Board,
    conds: &[Cond],
) -> Option<Choice>
    requires lists { HasShortLists space.now }
    requires places { HasShortPlaces space.now }
    requires variables { HasVariables space.now variables.now }
    requires board { IsBoard space.now (steps_of cells.now) board.now }
    requires open { IsOpen space.now (steps_of cells.now) }
    ensures { list_any is_unknown (map (known space.now (steps_of cells.now)) conds.now) ≡ true
        → IsChosen space.now (steps_of cells.now) result }
{
    for cond in conds {
        if is_unknown(space, cells, variables, board, cond) {
            return choose(space, cells, variables, board, cond);
        }
    }
    None
}

/// How to divide the variable of the first unknown atom of a condition that is unknown.
#[cycle(choosing)]
#[tactic(auto, using(crate::proofs::ChoiceLaws::choice_laws))]
pub(crate) fn choose(
    space: &Space,
    cells: &Cells,
    variables: &Variables,
    board: &Board,
    cond: &Cond,
) -> Option<Choice>
    requires lists { HasShortLists space.now }
    requires places { HasShortPlaces space.now }
    requires variables { HasVariables space.now variables.now }
    requires board { IsBoard space.now (steps_of cells.now) board.now }
    requires open { IsOpen space.now (steps_of cells.now) }
    ensures { known space.now (steps_of cells.now) cond.now ≡ Known.Unknown
        → IsChosen space.now (steps_of cells.now) result }
{
    match cond {
        Cond::Always => None,
        Cond::Never => None,
        Cond::Ext { name, needs: _ } => ext_choice(space, name),
        Cond::Param { name, test, value } => param_choice(space, name, *test, value, cells),
        Cond::All(parts) => choice_among(space, cells, variables, board, parts.as_slice()),
        Cond::Any(parts) => choice_among(space, cells, variables, board, parts.as_slice()),
        Cond::One(parts) => choice_among(space, cells, variables, board, parts.as_slice()),
        Cond::Not(part) => choose(space, cells, variables, board, part.get()),
    }
}
