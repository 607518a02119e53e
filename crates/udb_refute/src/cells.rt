//! Which choice a path of cells takes first of a variable.

ghost use Rattle.std.specs.Prelude.{◌≡◌};
ghost use Rattle.udb_cond.specs.Steps.{steps_of};
ghost use Rattle.udb_refute.specs.Paths.{choice_on, low_end};

use udb_cond::Cells;

/// The newest choice of a variable on the path, where it was split.
pub(crate) fn choice_on(cells: &Cells, param: bool, place: usize) -> Option<u32>
    ensures { result ≡ choice_on (steps_of cells.now) param place }
{
    match cells {
        Cells::All => None,
        Cells::Child {
            param: of_param,
            place: at,
            child,
            rest,
        } => {
            if *of_param == param && *at as usize == place {
                Some(*child)
            } else {
                choice_on(rest, param, place)
            }
        }
        Cells::Below { rest, .. } => choice_on(rest, param, place),
        Cells::From { rest, .. } => choice_on(rest, param, place),
    }
}

/// The low end that the cuts of the path leave of a range.
pub(crate) fn low_end(cells: &Cells, place: usize, low: u64) -> u64
    ensures { result ≡ low_end (steps_of cells.now) place low }
{
    match cells {
        Cells::All => low,
        Cells::Child { rest, .. } => low_end(rest, place, low),
        Cells::Below { rest, .. } => low_end(rest, place, low),
        Cells::From {
            place: of,
            at,
            rest,
        } => {
            let least = low_end(rest, place, low);
            if *of as usize == place {
                least.max(*at)
            } else {
                least
            }
        }
    }
}
