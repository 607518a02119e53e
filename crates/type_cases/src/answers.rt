//! What typing says of bodies.

ghost use Rattle.udb_spec.specs.Lawful.{Lawful};
ghost use Rattle.case_space.specs.Small.{IsSmall};
ghost use Rattle.idl_forms.specs.Ready.{IsLawfulProgram, AreLawfulVariables};

use crate::scopes::{counted, function_named, scope_of};
use crate::told::fault_text;
use crate::worlds::World;
use case_space::is_small;
use case_world::{body_of, cond_of, variables_of};
use idl_lawful::{are_lawful_variables, is_lawful_program};
use idl_spec::BodyScope;
use idl_tree::{Body, Program, Variables};
use idl_types::check_body;
use std::alloc::Global;
use udb_base::{Cond, Many, NoMemory, Partial, Space, both};
use udb_lawful::is_lawful;

fn ready_answer(
    alloc: Global,
    space: &Space,
    part: &Partial,
    program: &Program,
    presence: &Cond,
    scope: BodyScope,
    body: &Body,
) -> Result<String, NoMemory>
    requires lawful { Lawful space.now }
    requires small { IsSmall space.now part.now }
    requires program { IsLawfulProgram program.now }
    requires variables { AreLawfulVariables body.now.variables }
{
    match check_body(alloc, space, program, presence, scope, body) {
        Ok(_typed) => "ok".to_string(alloc),
        Err(fault) => fault_text(alloc, space, &fault),
    }
}

fn tested_answer(
    alloc: Global,
    space: &Space,
    program: &Program,
    presence: &Cond,
    scope: BodyScope,
    body: &Body,
) -> Result<String, NoMemory> {
    let part = Partial {
        constraints: Many::new(alloc),
    };
    if !is_lawful(space) || !is_small(space, &part) {
        return "no space".to_string(alloc);
    }
    if !is_lawful_program(program) || !are_lawful_variables(body.variables.as_slice()) {
        return "no program".to_string(alloc);
    }
    ready_answer(alloc, space, &part, program, presence, scope, body)
}

// What is said of a function's own body.
fn function_answer(
    alloc: Global,
    space: &Space,
    program: &Program,
    name: &str,
) -> Result<String, NoMemory> {
    match function_named(program.functions.as_slice(), name) {
        Some((place, function)) => {
            let scope = BodyScope::Function {
                place: counted(place),
            };
            tested_answer(alloc, space, program, &Cond::Always, scope, &function.body)
        }
        None => "no function".to_string(alloc),
    }
}

fn body_with(
    variables: Result<Variables, NoMemory>,
    body: Result<Option<Body>, NoMemory>,
) -> Result<Option<Body>, NoMemory> {
    let (variables, body) = both(variables, body)?;
    match body {
        Some(body) => Ok(Some(Body {
            variables,
            statements: body.statements,
        })),
        None => Ok(None),
    }
}

fn body_answer(
    alloc: Global,
    space: &Space,
    program: &Program,
    action: &str,
    words: &str,
    source: &str,
) -> Result<String, NoMemory> {
    let (presence, words) = words.split_once(' ').unwrap_or((words, ""));
    let Some(scope) = scope_of(program, action, words) else {
        return "no case".to_string(alloc);
    };
    let body = body_with(variables_of(alloc, words), body_of(alloc, source));
    let (presence, body) = both(cond_of(alloc, presence), body)?;
    match body {
        Some(body) => tested_answer(alloc, space, program, &presence, scope, &body),
        None => "no body".to_string(alloc),
    }
}

fn program_answer(
    alloc: Global,
    space: &Space,
    program: &Program,
    action: &str,
    words: &str,
    source: &str,
) -> Result<String, NoMemory> {
    if action == "function" {
        return function_answer(alloc, space, program, words);
    }
    body_answer(alloc, space, program, action, words, source)
}

/// What typing says of the body of a case.
pub fn case_answer(
    alloc: Global,
    world: &World,
    action: &str,
    rest: &str,
) -> Result<String, NoMemory> {
    let (words, rest) = rest.split_once(" :: ").unwrap_or((rest, ""));
    let (functions, source) = if action == "function" {
        (rest, "")
    } else {
        rest.split_once(" :: ").unwrap_or(("", rest))
    };
    let (space, program) = both(world.space(alloc), world.program(alloc, functions))?;
    match program {
        Some(program) => program_answer(alloc, &space, &program, action, words, source),
        None => "no functions".to_string(alloc),
    }
}
