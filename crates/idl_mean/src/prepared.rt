//! What bodies run over.

ghost use Rattle.std.specs.Prelude.{◌≡◌, IfOk};

use idl_copy::{CopiedPart, copy_parts};
use idl_tree::{Body, Program};
use std::alloc::Global;
use udb_base::{Copied, Many, NoMemory, Space, both};

/// A space, a program and the bodies that run over them.
#[derive(Drop)]
pub struct Prepared {
    pub space: Space,
    pub program: Program,
    pub bodies: Many<Body>,
}

/// Copies of what bodies run over. The one refusal is want of memory.
pub fn prepare(
    alloc: Global,
    space: &Space,
    program: &Program,
    bodies: &[Body],
) -> Result<Prepared, NoMemory>
    ensures { IfOk result (λ p. (p.space ≡ space.now) × (p.program ≡ program.now)
        × (p.bodies ≡ bodies.now)) }
{
    let space = space.copy(alloc)?;
    let (program, bodies) = both(program.copy_part(alloc), copy_parts(alloc, bodies))?;
    Ok(Prepared {
        space,
        program,
        bodies,
    })
}
