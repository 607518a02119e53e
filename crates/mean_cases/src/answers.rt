//! Bodies that run.

ghost use Rattle.std.specs.Prelude.{◌≡◌, IsTrue, All};
ghost use Rattle.udb_spec.specs.Lawful.{Lawful};
ghost use Rattle.udb_spec.specs.Spaces.{Valid};
ghost use Rattle.idl_spec.specs.Programs.{IsState};
ghost use Rattle.idl_forms.specs.Ready.{IsLawfulProgram, AreLawfulVariables};
ghost use Rattle.idl_forms.specs.States.{state_of};

use crate::told::push_changes;
use crate::worlds::{program_of, space_words};
use case_world::{body_of, cond_of, full_of, space_of, state_of, variables_of};
use idl_forms::harts::HartState;
use idl_forms::values::Stop;
use idl_lawful::{are_lawful_variables, is_lawful_program, is_state};
use idl_mean::Evaluator;
use idl_tree::{Body, Program, Variables};
use std::alloc::Global;
use udb_base::{Full, Many, NoMemory, Space, both};
use udb_lawful::is_lawful;

fn stop_text(alloc: Global, stop: Stop) -> Result<String, NoMemory> {
    match stop {
        Stop::Memory => "no memory".to_string(alloc),
        Stop::Raised { code, tval } => format!(in alloc; "raised {code} {tval:#x}"),
        Stop::Stuck => "stuck".to_string(alloc),
    }
}

fn end_text(alloc: Global, end: Result<(), Stop>) -> Result<String, NoMemory> {
    match end {
        Ok(()) => "done".to_string(alloc),
        Err(stop) => stop_text(alloc, stop),
    }
}

// Of what is stuck, or wants memory, no state is told.
fn has_state(end: &Result<(), Stop>) -> bool {
    match end {
        Ok(()) => true,
        Err(Stop::Raised { .. }) => true,
        Err(_) => false,
    }
}

fn have_lawful_variables(bodies: &[Body]) -> bool
    ensures { IsTrue result → All (λ b. AreLawfulVariables b.variables) bodies.now }
{
    for body in bodies {
        if !are_lawful_variables(body.variables.as_slice()) {
            return false;
        }
    }
    true
}

// How the first of some bodies ends, with what it changes.
fn ready_answer(
    alloc: Global,
    space: &Space,
    full: &Full,
    program: &Program,
    bodies: &[Body],
    state: &mut HartState,
) -> Result<String, NoMemory>
    requires lawful { Lawful space.now }
    requires valid { Valid space.now full.now }
    requires program { IsLawfulProgram program.now }
    requires variables { All (λ b. AreLawfulVariables b.variables) bodies.now }
    requires state { IsState space.now full.now program.now (state_of state.old) }
{
    if bodies.is_empty() {
        return "no body".to_string(alloc);
    }
    let old = state.copy(alloc)?;
    let evaluator = Evaluator::new(alloc, space, program, bodies)?;
    let end = evaluator.attempt(alloc, 0, full, state);
    let has_state = has_state(&end);
    let mut text = end_text(alloc, end)?;
    if has_state {
        push_changes(alloc, &old, state, &mut text)?;
    }
    Ok(text)
}

fn tested_answer(
    alloc: Global,
    space: &Space,
    full: &Full,
    program: &Program,
    bodies: &[Body],
    state: &mut HartState,
) -> Result<String, NoMemory>
    requires lawful { Lawful space.now }
    requires valid { Valid space.now full.now }
{
    if !is_lawful_program(program) || !have_lawful_variables(bodies) {
        return "no program".to_string(alloc);
    }
    if !is_state(space, full, program, state) {
        return "no state".to_string(alloc);
    }
    ready_answer(alloc, space, full, program, bodies, state)
}

fn body_with(
    variables: Result<Variables, NoMemory>,
    body: Result<Option<Body>, NoMemory>,
) -> Result<Option<Body>, NoMemory> {
    let (variables, body) = both(variables, body)?;
    match body {
        Some(body) => Ok(Some(Body {
            variables,
            statements: body.statements,
        })),
        None => Ok(None),
    }
}

fn push_body(to: &mut Many<Body>, one: Result<Option<Body>, NoMemory>) -> Result<(), NoMemory> {
    if let Some(body) = one? {
        to.push(body)?;
    }
    Ok(())
}

// The body of a case, or none.
fn bodies_of(alloc: Global, words: &str, source: &str) -> Result<Many<Body>, NoMemory> {
    let mut bodies = Many::new(alloc);
    let body = body_with(variables_of(alloc, words), body_of(alloc, source));
    push_body(&mut bodies, body)?;
    Ok(bodies)
}

fn full_answer(
    alloc: Global,
    space: &Space,
    full: &Full,
    program: &Program,
    words: &str,
    source: &str,
) -> Result<String, NoMemory>
    requires lawful { Lawful space.now }
    requires valid { Valid space.now full.now }
{
    let state = state_of(alloc, space, full, program, words);
    let (mut state, bodies) = both(state, bodies_of(alloc, words, source))?;
    tested_answer(alloc, space, full, program, bodies.as_slice(), &mut state)
}

fn space_answer(
    alloc: Global,
    space: &Space,
    cond: &str,
    words: &str,
    program: &Program,
    source: &str,
) -> Result<String, NoMemory> {
    if !is_lawful(space) {
        return "no space".to_string(alloc);
    }
    let cond = cond_of(alloc, cond)?;
    match full_of(alloc, space, &cond)? {
        Some(full) => full_answer(alloc, space, &full, program, words, source),
        None => "no configuration".to_string(alloc),
    }
}

/// How a body ends and what it changes.
pub fn run_answer(alloc: Global, rest: &str) -> Result<String, NoMemory> {
    let (words, rest) = rest.split_once(" :: ").unwrap_or((rest, ""));
    let (functions, source) = rest.split_once(" :: ").unwrap_or(("", rest));
    let (cond, words) = words.split_once(' ').unwrap_or((words, ""));
    let (space, cond) = space_words(cond);
    let (space, program) = both(space_of(alloc, space), program_of(alloc, functions))?;
    space_answer(alloc, &space, cond, words, &program, source)
}
