//! What a path of cells leaves of each variable, worked out once for all atoms.

ghost use Rattle.std.specs.Prelude.{◌≡◌, ◌==◌, ◌<◌, ℕ, true, false, IfOk, List, [], ◌∷◌, Option, Some, length, slice_get, if◌then◌else◌};
ghost use Rattle.udb_spec.specs.Cells.{Step, Child, Below, From};
ghost use Rattle.udb_cond.specs.Steps.{steps_of};
ghost use Rattle.udb_refute.specs.Boards.{IsBoard, Shows, lesser};

use std::alloc::Global;
use udb_base::{Many, NoMemory};
use udb_cond::{Cells, Space};

/// What is left of a parameter: the choice that it was split to, and the numbers from `from` on and
/// below `below` that the cuts of its range leave.
#[derive(Clone, Copy)]
pub(crate) struct Left {
    pub(crate) choice: Option<u32>,
    pub(crate) from: u64,
    pub(crate) below: Option<u64>,
}

/// What is left of the variables, by their places: of an extension the choice that it was split to.
#[derive(Drop)]
pub(crate) struct Board {
    extensions: Many<Option<u32>>,
    params: Many<Left>,
}

// A parameter that was neither split nor cut.
const WHOLE: Left = Left {
    choice: None,
    from: 0,
    below: None,
};

fn repeat<T: Copy + Drop>(alloc: Global, item: T, count: usize) -> Result<Many<T>, NoMemory>
    ensures { IfOk result (λ items. (i : ℕ) → i < count → slice_get items i ≡ Some item) }
{
    let mut items = Many::new(alloc);
    for _ in 0..count {
        items.push(item)?;
    }
    Ok(items)
}

// Puts an item in place of another, where there is one.
fn put<T: Copy + Drop>(items: &mut Many<T>, place: usize, item: T)
    ensures { (i : ℕ) → i < length items.old
        → slice_get items.new i ≡ (if place == i then Some item else slice_get items.old i) }
{
    if place < items.len() {
        items.set(place, item);
    }
}

fn left_at(params: &Many<Left>, place: usize) -> Left
    ensures { (left : Left) → slice_get params.now place ≡ Some left → result ≡ left }
{
    match params.get(place) {
        Some(left) => *left,
        None => WHOLE,
    }
}

fn least(at: u64, other: Option<u64>) -> u64
    ensures { result ≡ lesser at other }
{
    match other {
        None => at,
        Some(other) => at.min(other),
    }
}

impl Board {
    fn split_extension(&mut self, place: usize, child: u32)
        ensures { (n m : ℕ) (path : List Step) → Shows n m path self.old
            → Shows n m (Child false place child ∷ path) self.new }
    {
        put(&mut self.extensions, place, Some(child));
    }

    fn split_param(&mut self, place: usize, child: u32)
        ensures { (n m : ℕ) (path : List Step) → Shows n m path self.old
            → Shows n m (Child true place child ∷ path) self.new }
    {
        let Left { from, below, .. } = left_at(&self.params, place);
        let choice = Some(child);
        put(
            &mut self.params,
            place,
            Left {
                choice,
                from,
                below,
            },
        );
    }

    fn cut_below(&mut self, place: usize, at: u64)
        ensures { (n m : ℕ) (path : List Step) → Shows n m path self.old
            → Shows n m (Below place at ∷ path) self.new }
    {
        let Left {
            choice,
            from,
            below,
        } = left_at(&self.params, place);
        let below = Some(least(at, below));
        put(
            &mut self.params,
            place,
            Left {
                choice,
                from,
                below,
            },
        );
    }

    fn cut_from(&mut self, place: usize, at: u64)
        ensures { (n m : ℕ) (path : List Step) → Shows n m path self.old
            → Shows n m (From place at ∷ path) self.new }
    {
        let Left {
            choice,
            from,
            below,
        } = left_at(&self.params, place);
        let from = from.max(at);
        put(
            &mut self.params,
            place,
            Left {
                choice,
                from,
                below,
            },
        );
    }

    // Each step of a path, the oldest first.
    fn follow(&mut self, cells: &Cells)
        ensures { (n m : ℕ) → Shows n m [] self.old → Shows n m (steps_of cells.now) self.new }
    {
        match cells {
            Cells::All => {}
            Cells::Child {
                param,
                place,
                child,
                rest,
            } => {
                self.follow(rest);
                if *param {
                    self.split_param(*place as usize, *child);
                } else {
                    self.split_extension(*place as usize, *child);
                }
            }
            Cells::Below { place, at, rest } => {
                self.follow(rest);
                self.cut_below(*place as usize, *at);
            }
            Cells::From { place, at, rest } => {
                self.follow(rest);
                self.cut_from(*place as usize, *at);
            }
        }
    }

    /// What a path leaves of the variables of a space. The time grows with the variables and the
    /// steps together.
    pub(crate) fn of(alloc: Global, space: &Space, cells: &Cells) -> Result<Board, NoMemory>
        ensures { IfOk result (IsBoard space.now (steps_of cells.now)) }
    {
        let mut board = Board {
            extensions: repeat(alloc, None, space.extensions.len())?,
            params: repeat(alloc, WHOLE, space.params.len())?,
        };
        board.follow(cells);
        Ok(board)
    }

    /// The choice that the extension at a place was split to.
    pub(crate) fn extension(&self, place: usize) -> Option<u32>
        ensures { (choice : Option ℕ) → slice_get self.now.extensions place ≡ Some choice
            → result ≡ choice }
    {
        match self.extensions.get(place) {
            Some(choice) => *choice,
            None => None,
        }
    }

    /// What is left of the parameter at a place.
    pub(crate) fn param(&self, place: usize) -> Left
        ensures { (left : Left) → slice_get self.now.params place ≡ Some left → result ≡ left }
    {
        left_at(&self.params, place)
    }
}
