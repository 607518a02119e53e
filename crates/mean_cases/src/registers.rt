//! Registers at reset.

ghost use Rattle.udb_spec.specs.Lawful.{Lawful};
ghost use Rattle.udb_spec.specs.Spaces.{Valid};

use crate::worlds::{program_of, space_words};
use case_world::{cond_of, full_of, space_of};
use idl_forms::harts::{HartState, Ram};
use idl_lawful::is_lawful_program;
use idl_tree::Program;
use std::alloc::Global;
use udb_base::{Full, NoMemory, Space, both};
use udb_csr::{read_csr, reset_state};
use udb_lawful::is_lawful;

fn registers_text(
    alloc: Global,
    space: &Space,
    full: &Full,
    program: &Program,
    state: &HartState,
) -> Result<String, NoMemory>
    requires lawful { Lawful space.now }
    requires valid { Valid space.now full.now }
{
    let mut text = String::new(alloc);
    for csr in program.csrs.as_slice() {
        let number = read_csr(space, csr, full, state);
        let name = csr.name.as_str();
        text.push_str(format!(in alloc; "{name}={number:#010x} ")?.as_str())?;
    }
    Ok(text)
}

fn full_answer(
    alloc: Global,
    space: &Space,
    full: &Full,
    program: &Program,
) -> Result<String, NoMemory>
    requires lawful { Lawful space.now }
    requires valid { Valid space.now full.now }
{
    if !is_lawful_program(program) {
        return "no program".to_string(alloc);
    }
    let ram = Ram::new(alloc, &[], 0)?;
    let state = reset_state(alloc, space, program, full, ram)?;
    registers_text(alloc, space, full, program, &state)
}

fn space_answer(
    alloc: Global,
    space: &Space,
    cond: &str,
    program: &Program,
) -> Result<String, NoMemory> {
    if !is_lawful(space) {
        return "no space".to_string(alloc);
    }
    let cond = cond_of(alloc, cond)?;
    match full_of(alloc, space, &cond)? {
        Some(full) => full_answer(alloc, space, &full, program),
        None => "no configuration".to_string(alloc),
    }
}

/// The CSRs as software reads them at reset.
pub fn reset_answer(alloc: Global, cond: &str) -> Result<String, NoMemory> {
    let (space, cond) = space_words(cond);
    let (space, program) = both(space_of(alloc, space), program_of(alloc, ""))?;
    space_answer(alloc, &space, cond, &program)
}
