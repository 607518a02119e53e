//! Full configurations, read from their lines.

ghost use Rattle.std.specs.Prelude.{ℕ, ◌≡◌, Err, ◌<◌, ◌-◌, ◌^◌, IfOk, length};
ghost use Rattle.udb_base.specs.declared.spaces.Full.{Full};
ghost use Rattle.udb_spec.specs.Lawful.{Lawful};
ghost use Rattle.udb_spec.specs.ProofText.{SpellsFull, SpellFull, IsFirstBadLine};
ghost use Rattle.udb_full.specs.Found.{IsChoiceFound, IsValueFound};
ghost use Rattle.udb_full.specs.Reading.{AnswersOnly, IsReading, IsFullReading};

use crate::lines::{choice_of_line, value_of_line};
use std::alloc::Global;
use udb_base::{Chars, Choices, ExtSpace, Full, Lines, Many, NoMemory, ParamSpace, Space, Values};

/// Why lines are no full configuration of a space. The line counts from 1: the first with which no
/// full configuration goes on, or one past the last where lines are missing.
#[derive(Clone, Copy, Debug, PartialEq, Eq)]
pub enum FullFault {
    Memory,
    Line { number: u32 },
}

// The choices of the first lines, or else the place where they stop.
fn read_choices(
    alloc: Global,
    exts: &[ExtSpace],
    lines: &[Chars],
) -> Result<Result<Choices, usize>, NoMemory>
    ensures { IfOk result (IsReading IsChoiceFound exts.now lines.now) }
{
    let mut choices = Many::new(alloc);
    for at in 0..exts.len() {
        if lines.len() <= at {
            return Ok(Err(at));
        }
        let Some(choice) = choice_of_line(alloc, &exts[at], lines[at].as_bytes())? else {
            return Ok(Err(at));
        };
        choices.push(choice)?;
    }
    Ok(Ok(choices))
}

// The values of the first lines, or else the place where they stop.
fn read_values(
    alloc: Global,
    params: &[ParamSpace],
    lines: &[Chars],
) -> Result<Result<Values, usize>, NoMemory>
    ensures { IfOk result (IsReading IsValueFound params.now lines.now) }
{
    let mut values = Many::new(alloc);
    for at in 0..params.len() {
        if lines.len() <= at {
            return Ok(Err(at));
        }
        let Some(value) = value_of_line(alloc, &params[at], lines[at].as_bytes())? else {
            return Ok(Err(at));
        };
        values.push(value)?;
    }
    Ok(Ok(values))
}

// A full configuration, or else the number of the first bad line.
fn read_places(alloc: Global, space: &Space, lines: &[Chars]) -> Result<Result<Full, u32>, NoMemory>
    requires lawful { Lawful space.now }
    requires few { length lines.now < 2 ^ 32 - 1 }
    ensures { IfOk result (IsFullReading space.now lines.now) }
{
    let extensions = match read_choices(alloc, space.extensions.as_slice(), lines)? {
        Ok(choices) => choices,
        Err(at) => return Ok(Err(at as u32 + 1)),
    };
    let (before, rest) = lines.split_at(space.extensions.len());
    let params = match read_values(alloc, space.params.as_slice(), rest)? {
        Ok(values) => values,
        Err(at) => return Ok(Err((before.len() + at) as u32 + 1)),
    };
    if space.params.len() < rest.len() {
        return Ok(Err((before.len() + space.params.len()) as u32 + 1));
    }
    Ok(Ok(Full { extensions, params }))
}

/// The full configuration that lines spell: a line for each extension, then for each parameter, in
/// the order of the space, with listed versions and values of the domains. A line names its place,
/// and has one spelling.
pub fn read_full(alloc: Global, space: &Space, lines: &Lines) -> Result<Full, FullFault>
    requires lawful { Lawful space.now }
    requires few { length lines.now < 2 ^ 32 - 1 }
    ensures spelled { IfOk result (SpellsFull space.now lines.now) }
    ensures every { (full : Full) → SpellsFull space.now lines.now full
        → AnswersOnly full result }
    ensures line { (number : ℕ) → result ≡ Err (FullFault.Line number)
        → IsFirstBadLine (SpellFull space.now) lines.now number }
{
    match read_places(alloc, space, lines.as_slice()) {
        Err(_) => Err(FullFault::Memory),
        Ok(Err(number)) => Err(FullFault::Line { number }),
        Ok(Ok(full)) => Ok(full),
    }
}
