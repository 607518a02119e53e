//! One search for a completion or a proof.

ghost use Rattle.std.specs.Prelude.{◌≡◌, ◌≤◌, ◌<◌, ◌+◌, ◌-◌, ◌^◌, IfOk, length};
ghost use Rattle.udb_spec.specs.Conditions.{holds};
ghost use Rattle.udb_spec.specs.Spaces.{Completes};
ghost use Rattle.udb_spec.specs.Constraints.{constraints};
ghost use Rattle.udb_spec.specs.Lawful.{Lawful};
ghost use Rattle.udb_spec.specs.Refutes.{refutes};
ghost use Rattle.udb_spec.specs.ProofText.{HasShortPlaces};
ghost use Rattle.udb_cond.specs.Steps.{steps_of};
ghost use Rattle.udb_refute.specs.Search.{IsOpen, HasShortLists, own_count, space_count, number_at, HoldBefore, IsChoice, IsNext, IsFound};
ghost use Rattle.udb_refute.specs.Answers.{IsAnswer};
ghost use Rattle.udb_refute.specs.Variables.{IsTable};

use crate::boards::Board;
use crate::choices::{Choice, choose};
use crate::completions::first_full;
use crate::truth::truth;
use crate::variables::Table;
use std::alloc::Global;
use udb_base::{Boxed, Many, NoMemory};
use udb_cond::{Cells, Cond, Full, Known, Partial, Proof, Space};

/// A completion of the configuration that meets the condition, or a proof that there is none.
#[derive(Drop)]
pub enum Found {
    Completion(Full),
    Refuted(Proof),
}

// What the constraints from a position on say under a path: all hold, or the first other one fails
// or is open.
#[derive(Clone, Copy)]
enum Next {
    Met,
    Failed { number: u32 },
    Open { position: u32, choice: Choice },
}

fn space_count(space: &Space) -> usize
    requires { space_count space.now < 2 ^ 32 }
    ensures { result ≡ space_count space.now }
{
    space.extensions.len() + 2 * space.params.len()
}

// The number of the constraint at a position: those of the configuration and the asked condition
// come first, since they settle most.
fn number_at(space: &Space, part: &Partial, position: u32) -> u32
    requires { space_count space.now + own_count part.now < 2 ^ 32 - 1 }
    ensures { result ≡ number_at space.now part.now position }
{
    let own = part.constraints.len() + 1;
    let position = position as usize;
    if position <= own {
        (space_count(space) + position) as u32
    } else {
        (position - own) as u32
    }
}

fn first_open(
    alloc: Global,
    space: &Space,
    part: &Partial,
    cond: &Cond,
    table: &Table,
    first: u32,
    cells: &Cells,
) -> Result<Next, NoMemory>
    requires lists { HasShortLists space.now }
    requires places { HasShortPlaces space.now }
    requires few { space_count space.now + own_count part.now < 2 ^ 32 - 1 }
    requires table { IsTable space.now part.now cond.now table.now }
    requires open { IsOpen space.now (steps_of cells.now) }
    requires first { 1 ≤ first }
    requires before { HoldBefore space.now part.now cond.now (steps_of cells.now) (first - 1) }
    ensures { IfOk result (IsNext space.now part.now cond.now (steps_of cells.now)) }
{
    let board = Board::of(alloc, space, cells)?;
    let last = space_count(space) + (part.constraints.len() + 1);
    for position in first..last as u32 + 1 {
        let number = number_at(space, part, position);
        let Some(asked) = table.constraint(number) else {
            continue;
        };
        match truth(space, cells, &table.variables, &board, asked) {
            Known::Yes => {}
            Known::No => return Ok(Next::Failed { number }),
            Known::Unknown => {
                return match choose(space, cells, &table.variables, &board, asked) {
                    Some(choice) => Ok(Next::Open { position, choice }),
                    None => Ok(Next::Failed { number }),
                };
            }
        }
    }
    Ok(Next::Met)
}

#[cycle(searching)]
#[tactic(auto, using(crate::proofs::StepLaws::step_laws, crate::proofs::SearchLaws::found_laws))]
fn search(
    alloc: Global,
    space: &Space,
    part: &Partial,
    cond: &Cond,
    table: &Table,
    first: u32,
    cells: &Cells,
) -> Result<Found, NoMemory>
    requires lists { HasShortLists space.now }
    requires places { HasShortPlaces space.now }
    requires few { space_count space.now + own_count part.now < 2 ^ 32 - 1 }
    requires table { IsTable space.now part.now cond.now table.now }
    requires open { IsOpen space.now (steps_of cells.now) }
    requires first { 1 ≤ first }
    requires before { HoldBefore space.now part.now cond.now (steps_of cells.now) (first - 1) }
    ensures { IfOk result (IsFound space.now part.now cond.now (steps_of cells.now)) }
{
    match first_open(alloc, space, part, cond, table, first, cells)? {
        Next::Met => Ok(Found::Completion(first_full(alloc, space, cells)?)),
        Next::Failed { number } => Ok(Found::Refuted(Proof::Leaf { constraint: number })),
        Next::Open { position, choice } => match choice {
            Choice::Split {
                param,
                place,
                count,
            } => search_split(
                alloc, space, part, cond, table, position, param, place, count, cells,
            ),
            Choice::Cut { place, at } => {
                search_cut(alloc, space, part, cond, table, position, place, at, cells)
            }
        },
    }
}

#[cycle(searching)]
#[tactic(auto, using(crate::proofs::StepLaws::step_laws, crate::proofs::SearchLaws::found_laws))]
fn search_split(
    alloc: Global,
    space: &Space,
    part: &Partial,
    cond: &Cond,
    table: &Table,
    first: u32,
    param: bool,
    place: u32,
    count: u32,
    cells: &Cells,
) -> Result<Found, NoMemory>
    requires lists { HasShortLists space.now }
    requires places { HasShortPlaces space.now }
    requires few { space_count space.now + own_count part.now < 2 ^ 32 - 1 }
    requires table { IsTable space.now part.now cond.now table.now }
    requires open { IsOpen space.now (steps_of cells.now) }
    requires first { 1 ≤ first }
    requires before { HoldBefore space.now part.now cond.now (steps_of cells.now) (first - 1) }
    requires choice { IsChoice space.now (steps_of cells.now) (Choice.Split param place count) }
    ensures { IfOk result (IsFound space.now part.now cond.now (steps_of cells.now)) }
{
    let mut parts = Many::new(alloc);
    for child in 0..count {
        let under = Cells::Child {
            param,
            place,
            child,
            rest: &*cells,
        };
        match search(alloc, space, part, cond, table, first, &under)? {
            Found::Completion(full) => return Ok(Found::Completion(full)),
            Found::Refuted(proof) => parts.push(proof)?,
        }
    }
    Ok(Found::Refuted(Proof::Split {
        param,
        place,
        parts,
    }))
}

#[cycle(searching)]
#[tactic(auto, using(crate::proofs::StepLaws::step_laws, crate::proofs::SearchLaws::found_laws))]
fn search_cut(
    alloc: Global,
    space: &Space,
    part: &Partial,
    cond: &Cond,
    table: &Table,
    first: u32,
    place: u32,
    at: u64,
    cells: &Cells,
) -> Result<Found, NoMemory>
    requires lists { HasShortLists space.now }
    requires places { HasShortPlaces space.now }
    requires few { space_count space.now + own_count part.now < 2 ^ 32 - 1 }
    requires table { IsTable space.now part.now cond.now table.now }
    requires open { IsOpen space.now (steps_of cells.now) }
    requires first { 1 ≤ first }
    requires before { HoldBefore space.now part.now cond.now (steps_of cells.now) (first - 1) }
    requires choice { IsChoice space.now (steps_of cells.now) (Choice.Cut place at) }
    ensures { IfOk result (IsFound space.now part.now cond.now (steps_of cells.now)) }
{
    let low = Cells::Below {
        place,
        at,
        rest: &*cells,
    };
    let below = match search(alloc, space, part, cond, table, first, &low)? {
        Found::Completion(full) => return Ok(Found::Completion(full)),
        Found::Refuted(proof) => Boxed::new(alloc, proof)?,
    };
    let high = Cells::From {
        place,
        at,
        rest: &*cells,
    };
    let from = match search(alloc, space, part, cond, table, first, &high)? {
        Found::Completion(full) => return Ok(Found::Completion(full)),
        Found::Refuted(proof) => Boxed::new(alloc, proof)?,
    };
    Ok(Found::Refuted(Proof::Cut {
        place,
        at,
        below,
        from,
    }))
}

/// A completion of the configuration that meets the condition where there is one, else a proof that
/// there is none. Its stack grows with the variables and cuts of a path.
pub fn find(alloc: Global, space: &Space, part: &Partial, cond: &Cond) -> Result<Found, NoMemory>
    requires lawful { Lawful space.now }
    requires lists { HasShortLists space.now }
    requires places { HasShortPlaces space.now }
    requires few { length (constraints space.now part.now cond.now) < 2 ^ 32 - 1 }
    ensures { IfOk result (IsAnswer space.now part.now cond.now) }
{
    let table = Table::of(alloc, space, part, cond)?;
    search(alloc, space, part, cond, &table, 1, &Cells::All)
}
