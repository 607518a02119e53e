//! What a path of cells leaves of one extension or parameter.

ghost use Rattle.std.specs.Prelude.{◌≡◌, ◌-◌};
ghost use Rattle.udb_spec.specs.Refutes.{is_unsplit};
ghost use Rattle.udb_cond.specs.Steps.{steps_of};
ghost use Rattle.udb_check.specs.Nodes.{some_open};

use udb_cond::{Cells, is_open};

/// Whether no step of the path is a choice of the variable.
pub(crate) fn is_unsplit(cells: &Cells, param: bool, place: usize) -> bool
    ensures { result ≡ is_unsplit (steps_of cells.now) param place }
{
    match cells {
        Cells::All => true,
        Cells::Child {
            param: of_param,
            place: at,
            child: _,
            rest,
        } => {
            let other = *of_param != param || *at as usize != place;
            other && is_unsplit(rest, param, place)
        }
        Cells::Below { rest, .. } => is_unsplit(rest, param, place),
        Cells::From { rest, .. } => is_unsplit(rest, param, place),
    }
}

/// Whether a value of a listed parameter after the first of `count` is still open.
#[tactic(auto, using(crate::proofs::NodeLaws::open_laws))]
pub(crate) fn later_is_open(cells: &Cells, place: usize, count: usize) -> bool
    ensures { result ≡ some_open (steps_of cells.now) place 1 (count - 1) }
{
    for choice in 1..count {
        if is_open(cells, true, place, choice) {
            return true;
        }
    }
    false
}
