//! Which choices are still open.

ghost use Rattle.std.specs.Prelude.{◌≡◌, ◌≤◌, IfSome};
ghost use Rattle.std.specs.List.{list_all};
ghost use Rattle.udb_spec.specs.Cells.{allows, range_of, child_of, range_left};
ghost use Rattle.udb_cond.specs.Steps.{steps_of};

/// A path of steps that leave fewer choices open, the newest step first. Variables are named by
/// their places in the space: extensions, or parameters where `param` is true.
///
/// `Child` leaves one choice, counted from 0: of an extension absent, then its versions rising; of
/// a listed parameter its values in the domain's order; of a ranged one the numbers of the range
/// that the rest of the path leaves. `Below` and `From` leave the numbers below `at`, or at least
/// `at`, of a ranged parameter.
#[derive(Clone, Copy)]
pub enum Cells<'a> {
    All,
    Child {
        param: bool,
        place: u32,
        child: u32,
        rest: &'a Cells<'a>,
    },
    Below {
        place: u32,
        at: u64,
        rest: &'a Cells<'a>,
    },
    From {
        place: u32,
        at: u64,
        rest: &'a Cells<'a>,
    },
}

/// Whether a choice of a variable, counted from 0, is still open.
pub fn is_open(cells: &Cells, param: bool, place: usize, choice: usize) -> bool
    ensures { result ≡ list_all (allows param place choice) (steps_of cells.now) }
{
    match cells {
        Cells::All => true,
        Cells::Child {
            param: of_param,
            place: at,
            child,
            rest,
        } => {
            let other = *of_param != param || *at as usize != place;
            (other || choice == *child as usize) && is_open(rest, param, place, choice)
        }
        Cells::Below { rest, .. } => is_open(rest, param, place, choice),
        Cells::From { rest, .. } => is_open(rest, param, place, choice),
    }
}

fn range_of(low: u64, high: u64) -> Option<(u64, u64)>
    ensures value { result ≡ range_of low high }
    ensures ordered { IfSome result (λ ends. ends.0 ≤ ends.1) }
{
    if low <= high { Some((low, high)) } else { None }
}

fn child_of(low: u64, high: u64, child: u64) -> Option<(u64, u64)>
    ensures value { result ≡ child_of child (low, high) }
    ensures ordered { IfSome result (λ ends. ends.0 ≤ ends.1) }
{
    if low <= high && child <= high - low {
        Some((low + child, low + child))
    } else {
        None
    }
}

/// The low and the high end of the numbers that are left of a range, where there are any.
pub fn range_left(cells: &Cells, place: usize, low: u64, high: u64) -> Option<(u64, u64)>
    ensures value { result ≡ range_left (steps_of cells.now) place low high }
    ensures ordered { IfSome result (λ ends. ends.0 ≤ ends.1) }
{
    match cells {
        Cells::All => range_of(low, high),
        Cells::Child {
            param,
            place: at,
            child,
            rest,
        } => {
            let (low, high) = range_left(rest, place, low, high)?;
            if *param && *at as usize == place {
                child_of(low, high, u64::from(*child))
            } else {
                Some((low, high))
            }
        }
        Cells::Below {
            place: of,
            at,
            rest,
        } => {
            let (low, high) = range_left(rest, place, low, high)?;
            if *of as usize != place {
                Some((low, high))
            } else if low < *at {
                Some((low, high.min(*at - 1)))
            } else {
                None
            }
        }
        Cells::From {
            place: of,
            at,
            rest,
        } => {
            let (low, high) = range_left(rest, place, low, high)?;
            if *of as usize == place {
                range_of(low.max(*at), high)
            } else {
                Some((low, high))
            }
        }
    }
}
