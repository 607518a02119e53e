//! What a path of cells tells of a condition, by a table of the space and a board of the path.

ghost use Rattle.std.specs.Prelude.{◌≡◌, false, List, [], map};
ghost use Rattle.udb_base.specs.declared.versions.Requirement.{Requirement};
ghost use Rattle.udb_base.specs.declared.conditions.Test.{Test};
ghost use Rattle.udb_base.specs.declared.conditions.Value.{Value};
ghost use Rattle.udb_spec.specs.Known.{known, all_known, any_known, one_known};
ghost use Rattle.udb_cond.specs.Steps.{steps_of};
ghost use Rattle.udb_refute.specs.Boards.{IsBoard, split_path, below_path, path_of};
ghost use Rattle.udb_refute.specs.Search.{IsOpen};
ghost use Rattle.udb_refute.specs.Variables.{HasVariables};

use crate::boards::{Board, Left};
use crate::variables::Variables;
use udb_base::Name;
use udb_cond::{Cells, Cond, Known, Space, holds3, not_known, one_by};

fn split_cells<'a>(param: bool, choice: Option<u32>, rest: &'a Cells<'a>) -> Cells<'a>
    ensures { steps_of result ≡ split_path param choice (steps_of rest.now) }
{
    match choice {
        None => *rest,
        Some(child) => Cells::Child {
            param,
            place: 0,
            child,
            rest,
        },
    }
}

fn below_cells<'a>(below: Option<u64>, rest: &'a Cells<'a>) -> Cells<'a>
    ensures { steps_of result ≡ below_path below (steps_of rest.now) }
{
    match below {
        None => *rest,
        Some(at) => Cells::Below { place: 0, at, rest },
    }
}

// What an atom says in a space of one extension that was split to a choice, or wasn't.
fn extension_truth(alone: &Space, cond: &Cond, choice: Option<u32>) -> Known
    ensures { result ≡ known alone.now (split_path false choice []) cond.now }
{
    let all = Cells::All;
    holds3(alone, cond, &split_cells(false, choice, &all))
}

// What an atom says in a space of one parameter.
fn param_truth(alone: &Space, cond: &Cond, left: Left) -> Known
    ensures { result ≡ known alone.now (path_of left) cond.now }
{
    let all = Cells::All;
    let split = split_cells(true, left.choice, &all);
    let below = below_cells(left.below, &split);
    let from = Cells::From {
        place: 0,
        at: left.from,
        rest: &below,
    };
    holds3(alone, cond, &from)
}

fn extension_atom(
    space: &Space,
    cells: &Cells,
    variables: &Variables,
    board: &Board,
    cond: &Cond,
    name: &Name,
) -> Known
    requires variables { HasVariables space.now variables.now }
    requires board { IsBoard space.now (steps_of cells.now) board.now }
    requires open { IsOpen space.now (steps_of cells.now) }
    ensures { (needs : List Requirement) → cond.now ≡ Cond.Ext name.now needs
        → result ≡ known space.now (steps_of cells.now) cond.now }
{
    match variables.extensions.get(name.as_str()) {
        None => Known::No,
        Some(variable) => extension_truth(&variable.alone, cond, board.extension(variable.place)),
    }
}

fn param_atom(
    space: &Space,
    cells: &Cells,
    variables: &Variables,
    board: &Board,
    cond: &Cond,
    name: &Name,
) -> Known
    requires variables { HasVariables space.now variables.now }
    requires board { IsBoard space.now (steps_of cells.now) board.now }
    requires open { IsOpen space.now (steps_of cells.now) }
    ensures { (test : Test) (given : Value) → cond.now ≡ Cond.Param name.now test given
        → result ≡ known space.now (steps_of cells.now) cond.now }
{
    match variables.params.get(name.as_str()) {
        None => Known::No,
        Some(variable) => param_truth(&variable.alone, cond, board.param(variable.place)),
    }
}

#[cycle(truth)]
fn all_truth(
    space: &Space,
    cells: &Cells,
    variables: &Variables,
    board: &Board,
    conds: &[Cond],
) -> Known
    requires variables { HasVariables space.now variables.now }
    requires board { IsBoard space.now (steps_of cells.now) board.now }
    requires open { IsOpen space.now (steps_of cells.now) }
    ensures { result ≡ all_known (map (known space.now (steps_of cells.now)) conds.now) }
{
    let mut undecided = false;
    for cond in conds {
        match truth(space, cells, variables, board, cond) {
            Known::Yes => {}
            Known::No => return Known::No,
            Known::Unknown => undecided = true,
        }
    }
    if undecided {
        Known::Unknown
    } else {
        Known::Yes
    }
}

#[cycle(truth)]
fn any_truth(
    space: &Space,
    cells: &Cells,
    variables: &Variables,
    board: &Board,
    conds: &[Cond],
) -> Known
    requires variables { HasVariables space.now variables.now }
    requires board { IsBoard space.now (steps_of cells.now) board.now }
    requires open { IsOpen space.now (steps_of cells.now) }
    ensures { result ≡ any_known (map (known space.now (steps_of cells.now)) conds.now) }
{
    let mut undecided = false;
    for cond in conds {
        match truth(space, cells, variables, board, cond) {
            Known::Yes => return Known::Yes,
            Known::No => {}
            Known::Unknown => undecided = true,
        }
    }
    if undecided { Known::Unknown } else { Known::No }
}

#[cycle(truth)]
fn one_truth(
    space: &Space,
    cells: &Cells,
    variables: &Variables,
    board: &Board,
    conds: &[Cond],
) -> Known
    requires variables { HasVariables space.now variables.now }
    requires board { IsBoard space.now (steps_of cells.now) board.now }
    requires open { IsOpen space.now (steps_of cells.now) }
    ensures { result ≡ one_known (map (known space.now (steps_of cells.now)) conds.now) }
{
    let mut holding: usize = 0;
    let mut undecided = false;
    for cond in conds {
        match truth(space, cells, variables, board, cond) {
            Known::Yes => holding += 1,
            Known::No => {}
            Known::Unknown => undecided = true,
        }
    }
    one_by(holding, undecided)
}

/// What a path tells of a condition, as `holds3` tells it. The time grows with the condition alone:
/// no atom is read by going through the variables or the steps of the path.
#[cycle(truth)]
#[tactic(auto, using(udb_cond::proofs::KnownLemmas::known_laws))]
pub(crate) fn truth(
    space: &Space,
    cells: &Cells,
    variables: &Variables,
    board: &Board,
    cond: &Cond,
) -> Known
    requires variables { HasVariables space.now variables.now }
    requires board { IsBoard space.now (steps_of cells.now) board.now }
    requires open { IsOpen space.now (steps_of cells.now) }
    ensures { result ≡ known space.now (steps_of cells.now) cond.now }
{
    match cond {
        Cond::Always => Known::Yes,
        Cond::Never => Known::No,
        Cond::Ext { name, needs: _ } => {
            extension_atom(space, cells, variables, board, cond, name)
        }
        Cond::Param { name, .. } => param_atom(space, cells, variables, board, cond, name),
        Cond::All(parts) => all_truth(space, cells, variables, board, parts.as_slice()),
        Cond::Any(parts) => any_truth(space, cells, variables, board, parts.as_slice()),
        Cond::One(parts) => one_truth(space, cells, variables, board, parts.as_slice()),
        Cond::Not(part) => not_known(truth(space, cells, variables, board, part.get())),
    }
}
